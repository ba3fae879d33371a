//! A desk over a link: it sends a command, and receives the reply to it with the values that were pushed before.
//!
//! Each file is a layer: which values are pushed, the sending of a command, the receiving of values, of one reply, and the
//! desk.
#![tactic(auto)]

mod desk;
mod hearing;
mod pushing;
mod replying;
mod saying;

pub use desk::{LinkDesk, exchange};
pub use hearing::Hearing;
pub use pushing::is_pushed;
pub use saying::command_value;
