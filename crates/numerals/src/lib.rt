//! Integers of 64 bits as decimal text, in their one spelling: the store, the lines of texts and the wire share it.
#![tactic(auto)]

mod words;

pub use words::{integer, natural};
