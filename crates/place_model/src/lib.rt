//! Where messages are: histories of a store's clients and, as definitions, the place of each message after a history.
#![tactic(auto)]

mod heard;
mod history;
mod place;

pub use heard::{Heard, Outcome};
pub use history::{Entry, History};
pub use place::Place;
