//! How a run of a program that waits for others ends: each way with its text and its status.
ghost use Rattle.std.specs.Prelude.{IfOk, ◌≡◌};
ghost use Rattle.waiting_call.specs.Endings.{wait_ended, wait_text, waited_by};

use serve_run::ServingEnd;
use std::alloc::{AllocError, Global};
use top_call::Ended;
use wire_values::Bytes;

/// The ways in which a run ends, but for a failure of the sink, which is status 5.
#[derive(Clone, Copy, Drop)]
pub enum WaitEnd {
    /// Status 0: all connections were served.
    Done,
    /// Status 2: the word at this place is the first bad one.
    BadWord(u64),
    /// Status 6: the net failed.
    LinkFault,
    /// Status 9: all connections were served, and a session found its history full, with so many entries, which cost so
    /// many bytes. No store of today has a history that can be full.
    Full { entries: u64, bytes: u64 },
    /// Status 11: there was no memory.
    Memory,
}

impl WaitEnd {
    /// The status and the place.
    pub fn ended(&self) -> Ended
        ensures { result ≡ wait_ended self.now }
    {
        let (status, place) = match self {
            WaitEnd::Done => (0, 0),
            WaitEnd::BadWord(place) => (2, *place),
            WaitEnd::LinkFault => (6, 0),
            WaitEnd::Full { .. } => (9, 0),
            WaitEnd::Memory => (11, 0),
        };
        Ended {
            status,
            place,
            left: 0,
        }
    }

    /// The text that is written.
    pub fn text(&self, alloc: Global) -> Result<Bytes, AllocError>
        ensures { IfOk result (λ text. text ≡ wait_text self.now) }
    {
        let text = match self {
            WaitEnd::Done => String::new(alloc),
            WaitEnd::BadWord(place) => format!(in alloc; "bad word {place}\n")?,
            WaitEnd::LinkFault => String::from_str(alloc, "link fault\n")?,
            WaitEnd::Full { entries, bytes } => {
                format!(in alloc; "history full {entries} {bytes}\n")?
            }
            WaitEnd::Memory => String::from_str(alloc, "out of memory\n")?,
        };
        Ok(Bytes::from_vec(text.into_bytes()))
    }

    /// The end of a run by that of its serving; none where the sink failed, so that nothing more is told.
    pub fn of(served: ServingEnd) -> Option<WaitEnd>
        ensures { result ≡ waited_by served }
    {
        match served {
            ServingEnd::Served => Some(WaitEnd::Done),
            ServingEnd::Full { entries, bytes } => Some(WaitEnd::Full { entries, bytes }),
            ServingEnd::Net => Some(WaitEnd::LinkFault),
            ServingEnd::WriteFault => None,
            ServingEnd::Memory => Some(WaitEnd::Memory),
        }
    }
}
