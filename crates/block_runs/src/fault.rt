//! Why a block wasn't said to its end.
use block_core::ReplyFault;
use desks::DeskFault;
use std::alloc::AllocError;
use steps::BeginFault;
use store_model::Reply;

/// Why a block wasn't said to its end.
#[derive(Drop)]
pub enum BlockFault {
    /// The client didn't begin it; nothing was asked.
    Begin(BeginFault),
    /// The desk didn't take its next command; never for want of memory.
    Desk(DeskFault),
    /// The store answered this, and no block goes on after it.
    Refused(Reply),
    /// There was no memory, also at the desk.
    Memory,
}

impl From<AllocError> for BlockFault {
    ghost use Rattle.std.specs.Prelude.{◌≡◌};
    ghost use Rattle.block_runs.specs.declared.fault.BlockFault.TheVariants.{Memory};

    ghost from_gives = { λ _ fault. fault ≡ Memory };

    fn from(_error: AllocError) -> BlockFault {
        BlockFault::Memory
    }
}

impl From<DeskFault> for BlockFault {
    ghost use Rattle.std.specs.Prelude.{◌≡◌};
    ghost use Rattle.block_runs.specs.Faults.{desk_fault};

    ghost from_gives = { λ given fault. fault ≡ desk_fault given };

    fn from(given: DeskFault) -> BlockFault {
        match given {
            DeskFault::Link
            | DeskFault::Wire { .. }
            | DeskFault::Flood
            | DeskFault::Full { .. }
            | DeskFault::Closed
            | DeskFault::Ended => { BlockFault::Desk(given) }
            DeskFault::Memory => BlockFault::Memory,
        }
    }
}

impl From<ReplyFault> for BlockFault {
    ghost use Rattle.std.specs.Prelude.{◌≡◌};
    ghost use Rattle.block_runs.specs.Faults.{reply_fault};

    ghost from_gives = { λ given fault. fault ≡ reply_fault given };

    fn from(given: ReplyFault) -> BlockFault {
        match given {
            ReplyFault::Refused(reply) => BlockFault::Refused(reply),
            ReplyFault::Memory => BlockFault::Memory,
        }
    }
}

impl From<BeginFault> for BlockFault {
    ghost use Rattle.std.specs.Prelude.{◌≡◌};
    ghost use Rattle.block_runs.specs.Faults.{begin_fault};

    ghost from_gives = { λ given fault. fault ≡ begin_fault given };

    fn from(given: BeginFault) -> BlockFault {
        match given {
            BeginFault::NoTag
            | BeginFault::Name(_)
            | BeginFault::Draft(_)
            | BeginFault::BadNeutral => { BlockFault::Begin(given) }
            BeginFault::Memory => BlockFault::Memory,
        }
    }
}
