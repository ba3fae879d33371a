//! What a client's words ask for amid a block, by tests alone: of pops, ends and returns, and of passes once the index is
//! read. What words ask at a block's start, and of a pass that has just the mutex, isn't here.
#![tactic(auto)]

mod pops;
mod releases;
mod rest;
mod returning;
mod tagged;

pub use pops::{
    ask_end_begun, ask_end_removed, ask_filled, ask_pop_begun, ask_pop_indexed, ask_popped,
};
pub use releases::{
    ask_foreign, ask_own, ask_release_begun, ask_release_deleted, ask_releasing, ask_turning,
};
pub use returning::{
    ask_asking, ask_begun, ask_leaving, ask_looking, ask_putting, ask_ready, ask_removed,
    ask_waiting, ask_watched,
};
