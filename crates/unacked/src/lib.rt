//! The blocks on the table of messages that are not acknowledged: a pop, which takes a message into it, and an
//! acknowledgement, which takes one out of it for good. Each is a stage of a `block_core::BlockCore`, with its ends.
#![tactic(auto)]

mod end;
mod pop;
mod queues;
mod step;
mod words;

pub use end::{Acked, EndCore, EndStage, end_core};
pub use pop::{Delivery, PopCore, PopEnd, PopStage, pop_core};
