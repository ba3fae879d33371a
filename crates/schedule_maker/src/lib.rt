//! Schedules of any size, to be run by `replay --make`.
#![tactic(auto)]

mod messages;

pub use messages::make;
