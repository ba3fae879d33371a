//! What a command tells of messages.

/// What a command of a transaction does to a message, by the number of its delivery tag.
#[derive(Clone, Copy)]
pub enum Act {
    /// It pushes the message to a queue.
    Push(u128),
    /// It takes the message out of the table of those that aren't acknowledged.
    Take(u128),
    /// Neither.
    Nothing,
}

/// What else of a command matters to the places of messages.
#[derive(Clone, Copy)]
pub enum CallKind {
    /// LPUSH.
    Pushes,
    /// BRPOP.
    Pops,
    /// MULTI.
    Begins,
    /// EXEC.
    Runs,
    /// Any other.
    Others,
}

/// What a command tells.
#[derive(Clone, Copy)]
pub struct Telling {
    pub kind: CallKind,
    pub act: Act,
}
