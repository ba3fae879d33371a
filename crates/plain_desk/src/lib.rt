//! A desk that has its store.
#![tactic(auto)]

mod desk;

pub use desk::PlainDesk;
