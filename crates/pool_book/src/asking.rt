//! What a book is asked, and what it answers.
use crate::Delivery;
use wire_values::{Bytes, Words};

/// What a book is asked. Moments are in microseconds since 1970, but for a revoke, whose moment is in seconds.
#[derive(Drop)]
pub enum BookAsk {
    /// To take in a delivery.
    Put { delivery: Box<Delivery>, now: i64 },
    /// To give a delivery.
    Take { now: i64 },
    /// To end the delivery of this number, which was run.
    Finish { number: u64 },
    /// To revoke the task of this id, which is UTF-8.
    Revoke { id: Bytes, now: u64 },
    /// To tell what it has.
    Look { now: i64 },
    /// To say from now on that the worker is closing.
    Closing,
    /// To give nothing more.
    Shut,
}

/// Why a delivery isn't run.
#[derive(Clone, Copy, Debug, PartialEq, Eq, Drop)]
pub enum DropWhy {
    /// Its task expired.
    Expired,
    /// Its task was revoked.
    Revoked,
}

/// What a book has. Texts are ids of tasks, in the order of their list.
#[derive(Drop)]
pub struct View {
    /// Whether one more delivery may be put.
    pub room: bool,
    /// How many wait or run; 2^64 - 1 for all numbers above.
    pub busy: u64,
    /// Whether the worker is closing.
    pub closing: bool,
    /// The tasks that wait.
    pub waiting: Words,
    /// The tasks that run.
    pub running: Words,
    /// The tasks that are held until a moment.
    pub held: Words,
    /// The tasks that are revoked.
    pub revoked: Words,
}

/// What a book answers.
#[derive(Drop)]
pub enum BookAnswer {
    /// The delivery was taken in, to wait or to be held until its moment.
    Put { held: bool },
    /// This delivery is to be run.
    Run(Box<Delivery>),
    /// This delivery isn't to be run.
    Drop(Box<Delivery>, DropWhy),
    /// Nothing is given or was taken in.
    Nothing,
    /// Nothing is given any more.
    Over,
    /// The delivery was ended.
    Finished,
    /// It was noted.
    Noted,
    /// What it has.
    Seen(View),
}
