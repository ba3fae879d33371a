//! What happened so far in a schedule: clients say their blocks to a store, and each call is an entry of the history.
//!
//! `schedule_model` defines what a client's next command, or its whole block, does, and when a history is full.
#![tactic(auto)]

mod cost;
mod past;

pub use past::Past;
