//! How a run ends: each way with its text and its status.
ghost use Rattle.std.specs.Prelude.{IfOk, ◌≡◌};
ghost use Rattle.std.specs.Process.{exit_status};
ghost use Rattle.top_call.specs.Endings.{ended_of, text_of};

use line_text::{BadLine, INPUT_LIMIT};
use std::alloc::{AllocError, Global};
use std::process::ExitCode;
use wire_grammar::WireKind;
use wire_show::kind_name;
use wire_values::Bytes;

/// What a top call answers.
#[derive(Clone, Copy, Debug, PartialEq, Eq)]
pub struct Ended {
    /// The status of the process.
    pub status: u8,
    /// At status 2 the place of the first bad word, at status 3 the number of the first bad line, for `show` the place
    /// of the byte in question, else 0.
    pub place: u64,
    /// Always 0: no program that is built leaves messages.
    pub left: u64,
}

impl Ended {
    /// The status as the process' own.
    pub fn exit_code(&self) -> ExitCode
        ensures { exit_status result ≡ self.now.status }
    {
        ExitCode::from(self.status)
    }
}

/// The ways in which a run ends, but for a failure of the sink, which is status 5.
#[derive(Drop)]
pub enum End {
    /// Status 0: the input was read to its end, and determines a history, whose report this is.
    Reported(Bytes),
    /// Status 0: the input was read to its end, and determines a history, whose record this is.
    Recorded(Bytes),
    /// Status 0: these are the two lines of a made schedule's history.
    Made(Bytes),
    /// Status 0: the input was read to its end, and is whole values, which were shown.
    Shown,
    /// Status 2: the word at this place is the first bad one.
    BadWord(u64),
    /// Status 3: this line is the first bad one.
    BadLine(BadLine),
    /// Status 3: the byte at this place of a stream is wrong.
    BadByte { kind: WireKind, place: u64 },
    /// Status 3: the stream ends within the value that begins at this place.
    Unfinished(u64),
    /// Status 3: the stream goes on past its limit.
    LongStream,
    /// Status 4: the source failed.
    ReadFault,
    /// Status 9: a history of so many entries, which cost so many bytes, was to grow, and is full.
    Full { entries: u64, bytes: u64 },
    /// Status 11: there was no memory.
    Memory,
}

impl End {
    /// The status and the place.
    pub fn ended(&self) -> Ended
        ensures { result ≡ ended_of self.now }
    {
        let (status, place) = match self {
            End::Reported(_) | End::Recorded(_) | End::Made(_) | End::Shown => (0, 0),
            End::BadWord(place) => (2, *place),
            End::BadLine(bad) => (3, bad.line),
            End::BadByte { place, .. } => (3, *place),
            End::Unfinished(place) => (3, *place),
            End::LongStream => (3, INPUT_LIMIT as u64),
            End::ReadFault => (4, 0),
            End::Full { .. } => (9, 0),
            End::Memory => (11, 0),
        };
        Ended {
            status,
            place,
            left: 0,
        }
    }

    /// The text that is written; that of a history isn't copied.
    pub fn into_text(self, alloc: Global) -> Result<Bytes, AllocError>
        ensures { IfOk result (λ text. text ≡ text_of self) }
    {
        match self {
            End::Reported(report) => Ok(report),
            End::Recorded(record) => Ok(record),
            End::Made(lines) => Ok(lines),
            other => other.text(alloc),
        }
    }

    /// The text that is written; that of a history is copied.
    fn text(&self, alloc: Global) -> Result<Bytes, AllocError>
        ensures { IfOk result (λ text. text ≡ text_of self.now) }
    {
        let text = match self {
            End::Reported(report) => return Bytes::from_slice(alloc, report.as_slice()),
            End::Recorded(record) => return Bytes::from_slice(alloc, record.as_slice()),
            End::Made(lines) => return Bytes::from_slice(alloc, lines.as_slice()),
            End::Shown => String::new(alloc),
            End::BadWord(place) => format!(in alloc; "bad word {place}\n")?,
            End::BadLine(BadLine { line, reason }) => {
                let why = reason.text();
                format!(in alloc; "bad line {line}: {why}\n")?
            }
            End::BadByte { kind, place } => {
                let name = kind_name(*kind);
                format!(in alloc; "fault {name} at {place}\n")?
            }
            End::Unfinished(place) => format!(in alloc; "unfinished at {place}\n")?,
            End::LongStream => String::from_str(alloc, "long at 67108864\n")?,
            End::ReadFault => String::from_str(alloc, "read fault\n")?,
            End::Full { entries, bytes } => {
                format!(in alloc; "history full {entries} {bytes}\n")?
            }
            End::Memory => String::from_str(alloc, "out of memory\n")?,
        };
        Ok(Bytes::from_vec(text.into_bytes()))
    }
}
