//! At which side a message returns to its queue.

/// The end of a queue's list to which a message returns.
#[derive(Clone, Copy, Debug)]
pub enum Side {
    /// The head: the message is popped last.
    Left,
    /// The tail: the message is popped next.
    Right,
}
