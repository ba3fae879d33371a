//! What tells a client's blocks from those of others.

/// A client's seed, and how many tags it drew and passes it began: the next tag and the next token are made of them.
#[derive(Clone, Copy, Debug)]
pub struct ClientCounts {
    /// The seed, which no other client has.
    pub seed: u64,
    /// How many tags it drew.
    pub drawn: u64,
    /// How many passes it began.
    pub passes: u64,
}
