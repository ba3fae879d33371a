//! Where an answer leads a client, by tests alone.
#![tactic(auto)]

mod answer;
mod entry;
mod lead;
mod pass;
mod tries;
mod values;

pub use lead::told;
pub use tries::finish;
