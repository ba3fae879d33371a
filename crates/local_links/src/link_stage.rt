//! How far a store behind a link still asks.

/// What becomes of the bytes that are sent to a store behind a link.
#[derive(Clone, Copy, Drop)]
pub enum LinkStage {
    /// Each value is asked once it is whole.
    Asks,
    /// A value was no command, or the bytes were no RESP2: nothing from there on is asked.
    Over,
    /// There was no memory: nothing more is taken.
    Spent,
}
