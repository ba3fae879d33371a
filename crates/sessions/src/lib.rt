//! Sessions, in which what comes over a link is asked of a desk, and the replies go back over the link.
//!
//! Each file is a layer: the words that a value spells, the asking of one value, of all values that are whole, one turn
//! with its receive and its sends, and the session.
#![tactic(auto)]

mod asking;
mod conversing;
mod ends;
mod received;
mod sending;
mod talking;
mod turning;

pub use asking::{answer, reply_onto, store_moment};
pub use conversing::{SessionEnd, session};
pub use ends::Why;
pub use received::command_in;
pub use sending::send_all;
pub use talking::Talking;
