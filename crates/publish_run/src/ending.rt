//! How publishing ends.
use line_text::BadLine;
use wire_values::Value;

/// Why nothing more is published.
#[derive(Drop)]
pub enum PublishingEnd {
    /// All blocks of the script were said.
    Published,
    /// This line is the first bad one; the net wasn't used.
    BadLine(BadLine),
    /// The source failed.
    ReadFault,
    /// The net or the link failed, or what the store sent is no RESP2 or too many pushed values.
    LinkFault,
    /// The store answered this, which the block doesn't list there.
    Refused(Value),
    /// The sink failed.
    WriteFault,
    /// There was no memory.
    Memory,
}
