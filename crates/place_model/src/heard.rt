//! What a worker notes of its messages.
use envelope::Tag;
use std::fmt;
use wire_values::Bytes;

/// How a task ended.
#[derive(Debug, Drop)]
pub enum Outcome {
    /// With this result, as JSON text.
    Success(Bytes),
    /// With this error.
    Failure(Bytes),
    /// It is to run again after so many seconds.
    Retry(u64),
}

/// A note of a worker on a message, by the message's delivery tag.
#[derive(Drop)]
pub enum Heard {
    /// Its task was taken to be run.
    Took(Tag),
    /// Its task ended.
    Finished { tag: Tag, outcome: Outcome },
    /// Its task expired before it was run; moments are in microseconds since 1970.
    Expired { tag: Tag, expires: i64, now: i64 },
    /// Its task was revoked before it was run.
    Revoked(Tag),
    /// It carries no task that is known.
    Rejected(Tag),
    /// Its task is to run at a later moment, in microseconds since 1970.
    Held { tag: Tag, eta: i64 },
    /// What was popped is no envelope.
    Unreadable,
}

impl fmt::Debug for Heard {
    fn fmt<W: fmt::Write>(&self, f: &mut fmt::Formatter<W>) -> fmt::Result {
        f.write_str(match self {
            Heard::Took(_) => "Took",
            Heard::Finished { .. } => "Finished",
            Heard::Expired { .. } => "Expired",
            Heard::Revoked(_) => "Revoked",
            Heard::Rejected(_) => "Rejected",
            Heard::Held { .. } => "Held",
            Heard::Unreadable => "Unreadable",
        })
    }
}
