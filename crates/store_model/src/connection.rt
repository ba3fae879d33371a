//! What the store knows of a connection.
use crate::Command;
use store_tables::Deque;
use wire_values::{Bytes, Values};

/// The commands queued since MULTI, at most 4,096, and whether one was refused.
#[derive(Debug, Drop)]
pub struct Queue {
    pub commands: Deque<Command>,
    pub broken: bool,
}

/// A connection: its queue since MULTI, the keys that it watches and whether one of them was altered, the channels that
/// it is subscribed to, and the messages that it hasn't been told yet, at most 1,024.
#[derive(Debug, Drop)]
pub struct Conn {
    pub queue: Option<Queue>,
    pub watched: Deque<Bytes>,
    pub marked: bool,
    pub channels: Deque<Bytes>,
    pub pending: Values,
}
