//! Why an object that is shared didn't answer.

/// Why an object that is shared didn't answer.
#[derive(Clone, Copy, Debug, PartialEq, Eq, Drop)]
pub enum TurnFault {
    /// Its history is full, with so many entries and so many bytes.
    Full { entries: u64, bytes: u64 },
    /// Its history is closed.
    Closed,
    /// There was no memory.
    Memory,
}
