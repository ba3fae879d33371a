//! Where a try to return a message stands.

use crate::carried::{Carried, Keys};
use command_blocks::Side;
use envelope::Tag;

/// Which message is returned, at which side, and how many tries may come after this one.
#[derive(Clone, Copy, Debug)]
pub(crate) struct Aim {
    pub(crate) tag: Tag,
    pub(crate) side: Side,
    pub(crate) more: u8,
}

/// Which command of a try is next.
#[derive(Drop)]
pub(crate) enum Spot {
    /// WATCH of the table.
    Watch,
    /// HGET of the entry.
    Read,
    /// SMEMBERS of the exchange's bindings.
    Ask(Box<Carried>),
    /// A command of the transaction that moves the message.
    Take(Box<Carried>, Keys, Point),
    /// UNWATCH, which moves nothing.
    Leave(Unmoved),
}

/// Which command of the transaction is next.
#[derive(Clone, Copy, Debug)]
pub(crate) enum Point {
    /// MULTI.
    Begin,
    /// ZREM of the index.
    Index,
    /// HDEL of the table.
    Table,
    /// The push after so many, or EXEC after all.
    After(usize),
}

/// Why nothing is moved.
#[derive(Clone, Copy, Debug)]
pub(crate) enum Unmoved {
    /// The message wasn't in the table.
    Gone,
    /// What the table has under the tag is no entry of it, or there is no queue for it.
    Stayed,
}
