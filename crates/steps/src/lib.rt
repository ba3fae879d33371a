//! A client that says blocks of commands, one command after the other.
//!
//! Whatever runs a client is generic in it, as it is in its desk: it begins a block, hands each next command to the
//! desk, and gives the reply back, until the block has ended.
#![tactic(auto)]

mod begun;
mod counts;
mod ended;
mod steps;

pub use begun::{BeginFault, Block};
pub use counts::ClientCounts;
pub use ended::BlockEnd;
pub use steps::Steps;
