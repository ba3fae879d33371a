//! Tables and lists that a store keeps under its keys, seen by contracts as finite maps and lists.
#![tactic(auto)]

mod deque;
mod table;

pub use deque::Deque;
pub use table::Table;
