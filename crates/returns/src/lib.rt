//! The block that returns a message from the table of messages that are not acknowledged to its queues, as a stage of
//! a `block_core::BlockCore`. A pass holds the same stage as a part of its own.
#![tactic(auto)]

mod answers;
mod carried;
mod read;
mod returned;
mod spot;
mod trying;
mod words;

pub use returned::Returned;
pub use trying::{ReturnCore, Trying, return_core};
