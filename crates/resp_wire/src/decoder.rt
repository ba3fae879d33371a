//! The decoder.
ghost use Rattle.std.specs.Prelude.{◌<◌, ◌≤◌, length};
ghost use Rattle.wire_grammar.specs.Limits.{value_limit};

use crate::state::Core;
use wire_grammar::WireKind;

/// Why there is no next value.
#[derive(Clone, Copy, Debug, Drop)]
pub enum WireFault {
    /// The stream is no RESP2: what is wrong, and how many bytes of the stream stand before the faulty one,
    /// 2^64 - 1 for all places above.
    Bad { kind: WireKind, place: u64 },
    /// There was no memory; the decoder is spent.
    Memory,
}

/// A fault that was found.
#[derive(Clone, Copy, Debug, Drop)]
pub struct FoundFault {
    pub kind: WireKind,
    pub place: u64,
}

/// Reads RESP2 values from a stream that comes in pieces of any size.
///
/// Each byte is looked at once. What is kept is the unread part of the pieces, and of the value at hand what its
/// bytes so far have told.
#[derive(Drop)]
pub struct Decoder {
    pub(crate) core: Core,
    pub(crate) unread: Vec<u8>,
    pub(crate) at: usize,
    // how many bytes stand before the value at hand, 2^64 - 1 for all above
    pub(crate) start: u64,
    // how many bytes of the value at hand were taken
    pub(crate) held: u64,
    // how many bytes were fed after a fault, 2^64 - 1 for all above
    pub(crate) later: u64,
    pub(crate) fault: Option<FoundFault>,
    pub(crate) spent: bool,
    ghost within: { at ≤ length unread.items },
    ghost short: { held < value_limit },
}
