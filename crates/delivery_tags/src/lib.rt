//! Delivery tags: the identity of a message, and the seeds from which a producer draws them.
#![tactic(auto)]

mod seed;
mod tag;

pub use seed::Seed;
pub use tag::Tag;
