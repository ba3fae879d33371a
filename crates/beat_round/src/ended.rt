//! How a round ended.
ghost use Rattle.std.specs.Prelude.{◌≡◌};
ghost use Rattle.beat_round.specs.Ends.{stop_end};

use block_runs::BlockFault;
use desks::DeskFault;
use envelope::Tag;
use std::alloc::{AllocError, AllocFailed};
use store_model::Reply;
use wire_values::List;

/// How a round ended.
#[derive(Drop)]
pub enum BeatEnd {
    /// Each entry that was due was published, by its index and its tag, and the schedule has ticked.
    Sent(List<(u64, Tag)>),
    /// The desk didn't take a command.
    Desk(DeskFault),
    /// The store answered this, and no publication goes on after it.
    Refused(Reply),
    /// The client drew its last tag, and an entry is still to be sent.
    NoTag,
    /// No lawful envelope can be made of what an entry sends.
    Unsealed,
    /// There was no memory.
    Memory,
}

impl From<AllocError> for BeatEnd {
    ghost use Rattle.std.specs.Prelude.{◌≡◌};
    ghost use Rattle.beat_round.specs.declared.ended.BeatEnd.TheVariants.{Memory};

    ghost from_gives = { λ _ end. end ≡ Memory };

    fn from(_error: AllocError) -> BeatEnd {
        BeatEnd::Memory
    }
}

impl<T: Drop> From<AllocFailed<T>> for BeatEnd {
    ghost use Rattle.std.specs.Prelude.{◌≡◌};
    ghost use Rattle.beat_round.specs.declared.ended.BeatEnd.TheVariants.{Memory};

    ghost from_gives = { λ _ end. end ≡ Memory };

    fn from(_error: AllocFailed<T>) -> BeatEnd {
        BeatEnd::Memory
    }
}

/// How a round ends where a publication wasn't said to its end. A publication that the client didn't begin though it has a
/// tag can't be sealed.
pub(crate) fn stop_end(fault: BlockFault) -> BeatEnd
    ensures { result ≡ stop_end fault }
{
    match fault {
        BlockFault::Begin(_) => BeatEnd::Unsealed,
        BlockFault::Desk(fault) => BeatEnd::Desk(fault),
        BlockFault::Refused(reply) => BeatEnd::Refused(reply),
        BlockFault::Memory => BeatEnd::Memory,
    }
}
