//! Why a line is bad.
use std::alloc::{AllocError, AllocFailed};

/// Why a line is bad, in the order in which a line is tested: the first reason that holds is the one that is given.
#[derive(Clone, Copy, Debug, PartialEq, Eq, Drop)]
pub enum Reason {
    /// The line, or the whole input at this line, is above its limit.
    Long,
    /// The line is no UTF-8.
    Text,
    /// The first line isn't the header of this kind of text.
    Header,
    /// A word is missing, too much, or none that may stand there.
    Syntax,
    /// The client wasn't named by a client line before.
    UnknownClient,
    /// The client was stopped by a line before.
    Stopped,
    /// The client is amid a block.
    Busy,
    /// The client is not amid a block.
    Idle,
    /// The client's number or seed was given by a line before.
    Repeated,
    /// The moment is 2^40 or above, or before the present one.
    Moment,
    /// A name that isn't lawful there.
    Name,
    /// A name that is kept for the program's own keys.
    Reserved,
    /// The arguments are no JSON array, have a float, or nest too deep.
    Json,
    /// No lawful envelope can be made of the task.
    Task,
    /// The reply isn't the store's.
    Illegal,
    /// The client's commands are no prefix of blocks.
    Unmannered,
    /// A field of a crontab entry is out of form or range.
    Cron,
    /// A worker without a queue.
    Queue,
}

impl Reason {
    ghost use Rattle.std.specs.Prelude.{◌≡◌};
    ghost use Rattle.line_text.specs.Reason.{reason_text};

    /// The reason as a program prints it, as `unknown client`.
    pub fn text(self) -> &'static str
        ensures { result.now ≡ reason_text self }
    {
        match self {
            Reason::Long => "long",
            Reason::Text => "text",
            Reason::Header => "header",
            Reason::Syntax => "syntax",
            Reason::UnknownClient => "unknown client",
            Reason::Stopped => "stopped",
            Reason::Busy => "busy",
            Reason::Idle => "idle",
            Reason::Repeated => "repeated",
            Reason::Moment => "moment",
            Reason::Name => "name",
            Reason::Reserved => "reserved",
            Reason::Json => "json",
            Reason::Task => "task",
            Reason::Illegal => "illegal",
            Reason::Unmannered => "unmannered",
            Reason::Cron => "cron",
            Reason::Queue => "queue",
        }
    }
}

/// The first bad line of a text.
#[derive(Clone, Copy, Debug, PartialEq, Eq, Drop)]
pub struct BadLine {
    /// Its number, from 1.
    pub line: u64,
    /// Why it is bad.
    pub reason: Reason,
}

/// Why a text wasn't read.
#[derive(Clone, Copy, Debug, PartialEq, Eq, Drop)]
pub enum TextFault {
    /// A line is bad.
    Bad(BadLine),
    /// There was no memory.
    Memory,
}

impl From<BadLine> for TextFault {
    ghost use Rattle.std.specs.Prelude.{◌≡◌};
    ghost use Rattle.line_text.specs.declared.reason.TextFault.TheVariants.{Bad};

    ghost from_gives = { λ bad fault. fault ≡ Bad bad };

    fn from(bad: BadLine) -> TextFault {
        TextFault::Bad(bad)
    }
}

impl From<AllocError> for TextFault {
    ghost use Rattle.std.specs.Prelude.{◌≡◌};
    ghost use Rattle.line_text.specs.declared.reason.TextFault.TheVariants.{Memory};

    ghost from_gives = { λ _ fault. fault ≡ Memory };

    fn from(_error: AllocError) -> TextFault {
        TextFault::Memory
    }
}

impl<T: Drop> From<AllocFailed<T>> for TextFault {
    ghost use Rattle.std.specs.Prelude.{◌≡◌};
    ghost use Rattle.line_text.specs.declared.reason.TextFault.TheVariants.{Memory};

    ghost from_gives = { λ _ fault. fault ≡ Memory };

    fn from(_error: AllocFailed<T>) -> TextFault {
        TextFault::Memory
    }
}
