//! What stands in an envelope's JSON tree: its members, how deep it nests, whether it has a float, its two marks; and the
//! faults that a tree, or bytes, can have as an envelope.
#![tactic(auto)]

mod fault;
pub mod find;
pub mod marks;
pub mod walk;

pub use fault::{EnvelopeFault, Field};
