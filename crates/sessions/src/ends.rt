//! How a session ends.
use wire_grammar::WireKind;

/// Why a session ended.
#[derive(Clone, Copy, Drop)]
pub enum Why {
    /// The other side ended between two values.
    Ended,
    /// As many receives as were allowed gave bytes.
    Turns,
    /// What was received is no RESP2: what is wrong, and how many bytes stand before the faulty one.
    Wire { kind: WireKind, place: u64 },
    /// A value was no array of one or more bulk strings.
    NotWords,
    /// The link failed, or the other side ended within a value.
    Link,
    /// The store's history is full, with so many entries and so many bytes. No store of today has a history that can be
    /// full or closed.
    Full { entries: u64, bytes: u64 },
    /// The store's history is closed.
    Closed,
    /// There was no memory, and the store refused no command for another cause; or none to send all answers.
    Memory,
}
