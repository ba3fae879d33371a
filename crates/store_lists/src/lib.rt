//! What the commands on lists and on texts do to the keys of a store.
#![tactic(auto)]

pub mod lists;
pub mod texts;
