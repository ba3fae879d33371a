//! One core for all blocks: a block of commands is said one by one, by the answers so far.
//!
//! A block brings its `Stage`: which command is next, and what the answer to it brings. `BlockCore` says it, and knows
//! nothing more of it. What is proved here holds of each block.
//!
//! A stage tells of its end by a small type of its own, `Stage::End`, which has the ends of its block and no others. A
//! client that holds a core of each kind matches over them.
#![tactic(auto)]

mod block;
mod fault;
mod laws;
mod stage;

pub use block::BlockCore;
pub use fault::ReplyFault;
pub use laws::blocks_begin;
pub use stage::{Progress, Stage};
