//! Sending a task again as a retry: one retry more, another moment and another tag, and nothing else changed.
#![tactic(auto)]

mod body;
mod change;
mod sending;

pub use sending::again;
