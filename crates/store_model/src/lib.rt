//! The store's types and definitions: what its commands are, what a key holds, what is known of a connection, and what a
//! command does to them.
//!
//! `command_of` of `specs/` reads words as a command, `run` says what it does to the keys, and `apply_of` is the whole step
//! of a store. No code of the store stands here, so that what speaks of it doesn't wait for its code.
#![tactic(auto)]

mod command;
mod connection;
mod held;
mod limits;
mod reply;

pub use command::{Command, Fault};
pub use connection::{Conn, Queue};
pub use held::{Held, Stored};
pub use limits::{MEMBER_LIMIT, MOMENT_LIMIT, PENDING_LIMIT, QUEUE_LIMIT, RANGE_LIMIT, SET_LIMIT};
pub use reply::Reply;
