//! Why a line can't be taken.
ghost use Rattle.std.specs.Prelude.{◌≡◌};
ghost use Rattle.schedule_world.specs.Told.{lacked_memory};

use client_plans::PlanFault;
use line_text::Reason;
use std::alloc::AllocError;

/// Why a line of a schedule gave nothing, or not all.
#[derive(Clone, Copy, Debug, PartialEq, Eq, Drop)]
pub enum LineFault {
    /// The line is bad, by the first reason that holds of it.
    Bad(Reason),
    /// The history was at a limit and was to grow: how many entries it has, and what they cost in bytes.
    Full { entries: u64, bytes: u64 },
    /// There was no memory.
    Memory,
}

impl From<Reason> for LineFault {
    ghost use Rattle.std.specs.Prelude.{◌≡◌};
    ghost use Rattle.schedule_world.specs.declared.fault.LineFault.TheVariants.{Bad};

    ghost from_gives = { λ reason fault. fault ≡ Bad reason };

    fn from(reason: Reason) -> LineFault {
        LineFault::Bad(reason)
    }
}

impl From<AllocError> for LineFault {
    ghost use Rattle.std.specs.Prelude.{◌≡◌};
    ghost use Rattle.schedule_world.specs.declared.fault.LineFault.TheVariants.{Memory};

    ghost from_gives = { λ _ fault. fault ≡ Memory };

    fn from(_error: AllocError) -> LineFault {
        LineFault::Memory
    }
}

impl From<PlanFault> for LineFault {
    ghost use Rattle.std.specs.Prelude.{◌≡◌};
    ghost use Rattle.schedule_world.specs.Told.{fault_of_plan};

    ghost from_gives = { λ given fault. fault ≡ fault_of_plan given };

    fn from(given: PlanFault) -> LineFault {
        match given {
            PlanFault::Bad(reason) => LineFault::Bad(reason),
            PlanFault::Memory => LineFault::Memory,
        }
    }
}

/// Whether an answer is want of memory.
pub(crate) fn lacked_memory(told: &Result<(), LineFault>) -> bool
    ensures { result ≡ lacked_memory told.now }
{
    match told {
        Err(LineFault::Memory) => true,
        Err(LineFault::Bad(_)) | Err(LineFault::Full { .. }) | Ok(()) => false,
    }
}
