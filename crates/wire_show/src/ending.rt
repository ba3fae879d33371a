//! The ways in which a showing ends.
ghost use Rattle.std.specs.Prelude.{◌≡◌, string_bytes};
ghost use Rattle.wire_show.specs.Shows.{kind_name};

use wire_grammar::WireKind;

/// Why nothing more of a stream is shown.
#[derive(Clone, Copy)]
pub enum ShowEnd {
    /// The stream was read to its end, and is whole values, one after the other.
    Whole,
    /// After the values that were shown a byte is wrong: what is wrong with it, and how many bytes of the stream stand
    /// before it.
    Bad { kind: WireKind, place: u64 },
    /// The stream was read to its end, which lies in a value; so many bytes of the stream stand before that value.
    Unfinished { place: u64 },
    /// The stream goes on past `line_text::INPUT_LIMIT`, and has no fault before.
    Long,
    /// The source failed.
    ReadFault,
    /// The sink failed.
    WriteFault,
    /// There was no memory.
    Memory,
}

/// The name of what is wrong with a byte, as a line of a fault has it.
pub fn kind_name(kind: WireKind) -> &'static str
    ensures { result.now ≡ kind_name kind }
{
    match kind {
        WireKind::BadKind => "BadKind",
        WireKind::BadInteger => "BadInteger",
        WireKind::NoCrLf => "NoCrLf",
        WireKind::TooLong => "TooLong",
        WireKind::TooDeep => "TooDeep",
    }
}
