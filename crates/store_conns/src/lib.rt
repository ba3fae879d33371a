//! What a store knows of its connections, and what a command does to them.
#![tactic(auto)]

mod conns;

pub use conns::Connections;
