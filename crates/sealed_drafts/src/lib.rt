//! What a producer drafts, sealed in an envelope under a delivery tag.
#![tactic(auto)]

mod sealing;

pub use sealing::{Draft, seal};
