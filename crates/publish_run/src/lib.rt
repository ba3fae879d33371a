//! `publish`: a publish script is checked, and its blocks are said to a store over a link, in order; of each publication a
//! line is written as it ends.
//!
//! How a block is said at a desk stands in `saying.rt`; what a run has said and written when it ends is defined in
//! `specs/PublishRuns.antt`.
#![tactic(auto)]

mod ending;
mod lines;
mod publishing;
mod saying;
mod stepping;

pub use ending::PublishingEnd;
pub use publishing::publish_told;
pub use saying::{SayFault, say_block};
