//! Where a message is.
use std::fmt;
use wire_values::Bytes;

/// The one place of a message, by its delivery tag.
#[derive(Drop)]
pub enum Place {
    /// In the list of a queue at a priority step.
    List { queue: Bytes, step: u8 },
    /// In the table of messages that aren't acknowledged, and in its index.
    Unacked,
    /// In the hand of a client: it popped the message and hasn't put it into the table yet.
    Hand(u32),
    /// An acknowledgement took it out of the table.
    Ended,
    /// In the hand of a client that is gone.
    Lost(u32),
    /// Copied: pushed more than once, by one publication or by one return.
    Copies,
    /// Never accepted.
    Never,
}

impl fmt::Debug for Place {
    fn fmt<W: fmt::Write>(&self, f: &mut fmt::Formatter<W>) -> fmt::Result {
        f.write_str(match self {
            Place::List { .. } => "List",
            Place::Unacked => "Unacked",
            Place::Hand(_) => "Hand",
            Place::Ended => "Ended",
            Place::Lost(_) => "Lost",
            Place::Copies => "Copies",
            Place::Never => "Never",
        })
    }
}
