//! Why a block can't be begun.
use line_text::Reason;
use std::alloc::AllocError;

/// Why what a client asks to begin can't be begun.
#[derive(Clone, Copy, Debug, PartialEq, Eq, Drop)]
pub enum PlanFault {
    /// A test of it fails: the first reason that holds.
    Bad(Reason),
    /// There was no memory, or no further tag that the client could draw.
    Memory,
}

impl From<AllocError> for PlanFault {
    ghost use Rattle.std.specs.Prelude.{◌≡◌};
    ghost use Rattle.client_plans.specs.declared.fault.PlanFault.TheVariants.{Memory};

    ghost from_gives = { λ _ fault. fault ≡ Memory };

    fn from(_error: AllocError) -> PlanFault {
        PlanFault::Memory
    }
}
