//! What a key holds.
use std::fmt;
use store_tables::{Deque, Table};
use wire_values::Bytes;

/// A value of one of the five kinds.
#[derive(Drop)]
pub enum Stored {
    /// A text.
    Text(Bytes),
    /// A list, its head first.
    Items(Deque<Bytes>),
    /// The members of a set, at most 1,024.
    Members(Table<()>),
    /// The fields of a hash with their values.
    Hash(Table<Bytes>),
    /// The members of a sorted set with their scores.
    Scores(Table<i64>),
}

impl fmt::Debug for Stored {
    fn fmt<W: fmt::Write>(&self, f: &mut fmt::Formatter<W>) -> fmt::Result {
        f.write_str("Stored")
    }
}

/// A value, and the moment in seconds from which it is gone.
#[derive(Debug, Drop)]
pub struct Held {
    pub value: Stored,
    pub expiry: Option<u64>,
}
