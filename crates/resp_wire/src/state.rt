//! What a decoder keeps of the value at hand: the open arrays, and the piece that is being read.
ghost use Rattle.std.specs.Prelude.{◌<◌, ◌^◌};

use std::alloc::AllocError;
use std::collections::VecDeque;
use wire_grammar::{NumberKind, TextKind, WireKind};
use wire_values::{Bytes, Values};

/// Where in a value the next byte stands, outside the content of a bulk string.
#[derive(Clone, Copy)]
pub enum WireSpot {
    /// Where a value begins.
    Begin,
    /// In a text.
    Text(TextKind),
    /// After the carriage return of a text.
    TextFeed(TextKind),
    /// Where a number begins.
    First(NumberKind),
    /// After a minus sign.
    Minus(NumberKind),
    /// After a 0 that begins a number.
    Zero(NumberKind),
    /// After a digit; true behind a minus sign.
    Digits(NumberKind, bool),
    /// After the carriage return of a number.
    Feed(NumberKind, bool),
    /// After the content of a bulk string.
    Return,
    /// After the carriage return that follows a content.
    Line,
}

/// What the next bytes are.
#[derive(Clone, Copy)]
pub enum Phase {
    /// The content of a bulk string, of which `number` bytes come after the next one.
    Content,
    /// One byte, which decides what follows.
    At(WireSpot),
}

/// An array of which some items came; `more` come after the one at hand.
#[derive(Drop)]
pub struct Open {
    pub more: u64,
    pub items: Values,
}

/// The open arrays, innermost first, and the piece at hand.
#[derive(Drop)]
pub struct Core {
    pub phase: Phase,
    pub number: u64,
    pub bytes: Bytes,
    pub opens: VecDeque<Open>,
    ghost small: { number < 2 ^ 63 },
}

/// Why a byte led nowhere.
#[derive(Clone, Copy, Debug, Drop)]
pub enum StepFault {
    Bad(WireKind),
    Memory,
}

impl From<AllocError> for StepFault {
    ghost use Rattle.std.specs.Prelude.{◌≡◌};
    ghost use Rattle.resp_wire.specs.declared.state.StepFault.TheVariants.{Memory};

    ghost from_gives = { λ _ e. e ≡ Memory };

    fn from(_: AllocError) -> Self {
        StepFault::Memory
    }
}
