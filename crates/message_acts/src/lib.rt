//! What the commands of a history do to messages, by the numbers of their delivery tags.
#![tactic(auto)]

mod act;
mod message;
mod push;
mod told;
mod transaction;

pub use act::{Act, CallKind, Telling};
pub use message::{is_queue_key, message_of};
pub use push::direct_push;
pub use told::telling_of;
pub use transaction::{add_copied, add_ended};
