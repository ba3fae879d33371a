//! The keys of a store with what they hold, and what the commands on each kind of value share.
#![tactic(auto)]

pub mod effect;
mod keyspace;
pub mod members;
pub mod puts;

pub use keyspace::Keyspace;
