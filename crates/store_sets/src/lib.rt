//! What the commands on sets, hashes and sorted sets do to the keys of a store.
#![tactic(auto)]

pub mod hashes;
pub mod sets;
pub mod sorted_sets;
