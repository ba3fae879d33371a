//! A client whole: its seed, the tags that it drew, the passes that it began, and the block that it says.
//!
//! It begins each block there is, says it by the block's core, and tells how it ended.
#![tactic(auto)]

mod aside;
mod aside_words;
mod asides;
mod client;
mod made;
mod told;
mod work;

pub use asides::is_neutral;
pub use client::ClientCore;
