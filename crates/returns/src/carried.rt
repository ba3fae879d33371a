//! What an entry of the table carries back to its queues.
ghost use Rattle.std.specs.Prelude.{◌≡◌, ◌≤◌, length, true};
ghost use Rattle.returns.specs.Keys.{are_few};

use wire_values::{Bytes, Words};

/// The redelivered text of an entry's envelope, and by what it finds its queues: the entry's own exchange and routing
/// key, whatever the envelope tells, and the priority.
#[derive(Drop)]
pub(crate) struct Carried {
    pub(crate) text: Bytes,
    pub(crate) exchange: Bytes,
    pub(crate) routing_key: Bytes,
    pub(crate) priority: u8,
    ghost short: { length text ≤ 1048576 },
    ghost named: { length exchange ≤ 255 },
}

/// The keys to which a message is pushed.
#[derive(Drop)]
pub(crate) struct Keys {
    pub(crate) words: Words,
    ghost few: { are_few words ≡ true },
}
