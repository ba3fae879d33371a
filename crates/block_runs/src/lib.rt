//! A block of a client over a desk: each next command is handed to the desk, and its reply to the client, until the
//! block has ended.
#![tactic(auto)]

mod fault;
mod saying;

pub use fault::BlockFault;
pub use saying::run_block;
