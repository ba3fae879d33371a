//! Why a line spells no entry.
use line_text::Reason;
use std::alloc::{AllocError, AllocFailed};

/// Why a line spells no entry.
#[derive(Clone, Copy, Drop)]
pub enum EntryFault {
    /// The first reason that holds of it.
    Bad(Reason),
    /// There was no memory.
    Memory,
}

impl From<AllocError> for EntryFault {
    ghost use Rattle.std.specs.Prelude.{◌≡◌};
    ghost use Rattle.beat_files.specs.declared.fault.EntryFault.TheVariants.{Memory};

    ghost from_gives = { λ _ fault. fault ≡ Memory };

    fn from(_error: AllocError) -> EntryFault {
        EntryFault::Memory
    }
}

impl<T: Drop> From<AllocFailed<T>> for EntryFault {
    ghost use Rattle.std.specs.Prelude.{◌≡◌};
    ghost use Rattle.beat_files.specs.declared.fault.EntryFault.TheVariants.{Memory};

    ghost from_gives = { λ _ fault. fault ≡ Memory };

    fn from(_error: AllocFailed<T>) -> EntryFault {
        EntryFault::Memory
    }
}
