//! A worker's book: the deliveries that it took and hasn't ended, and whom it gives each.
//!
//! A book is asked one thing at a time. What it answers, and what it is afterwards, is a function of what it was and of
//! the ask.
#![tactic(auto)]

mod asking;
mod asks;
mod delivery;
mod numbers;
mod plain_book;
mod pool_book;
mod scheduling;

pub use asking::{BookAnswer, BookAsk, DropWhy, View};
pub use asks::Asks;
pub use delivery::Delivery;
pub use numbers::Numbers;
pub use plain_book::PlainBook;
pub use pool_book::{HELD_LIMIT, PoolBook, Ticket};
