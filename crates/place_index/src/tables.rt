//! What a walk over a history gathered of its messages, to be looked up by the numbers of their tags.
ghost use Rattle.std.specs.Prelude.{IfOk};
ghost use Rattle.place_model.specs.Shown.{history_of};
ghost use Rattle.place_index.specs.Indexed.{AreHandsOf, AreTablesOf, AreTalliesOf, HasTables};

use crate::tagged::{Tagged, first_told, tallied};
use letters::Letters;
use place_model::History;
use place_walk::{HistoryWalk, gathered};
use std::alloc::{AllocError, Global};
use wire_values::List;

/// Messages, each with whether it is told more than once.
#[derive(Drop)]
pub(crate) struct MessageTallies {
    /// Those that a client of the table pushed directly.
    pub(crate) pushes: Tagged<bool>,
    /// Those that a transaction took out of the table and pushed nowhere.
    pub(crate) ended: Tagged<bool>,
    /// Those that a transaction pushed more than once.
    pub(crate) copied: Tagged<bool>,
}

/// Messages with the first connection in whose client's hand each is.
#[derive(Drop)]
pub(crate) struct MessageHands {
    /// Of clients that aren't gone.
    pub(crate) there: Tagged<u32>,
    /// Of clients that are gone.
    pub(crate) gone: Tagged<u32>,
}

/// What a walk over a history gathered, in tables.
#[derive(Drop)]
pub(crate) struct WalkTables {
    /// The messages that were pushed directly, in order.
    pub(crate) accepted: List<u128>,
    pub(crate) tallies: MessageTallies,
    pub(crate) hands: MessageHands,
}

impl MessageTallies {
    /// The messages that were pushed, ended and copied.
    fn of(alloc: Global, walk: &HistoryWalk) -> Result<MessageTallies, AllocError>
        ensures { IfOk result (λ r. AreTalliesOf walk.now r) }
    {
        let pushes = tallied(alloc, walk.pushes.as_slice())?;
        let ended = tallied(alloc, walk.ended.as_slice())?;
        let copied = tallied(alloc, walk.copied.as_slice())?;
        Ok(MessageTallies {
            pushes,
            ended,
            copied,
        })
    }
}

impl MessageHands {
    /// The messages in the hands of clients.
    fn of(alloc: Global, walk: &HistoryWalk) -> Result<MessageHands, AllocError>
        ensures { IfOk result (λ r. AreHandsOf walk.now r) }
    {
        let there = first_told(alloc, walk.seats.hands(alloc, false)?)?;
        let gone = first_told(alloc, walk.seats.hands(alloc, true)?)?;
        Ok(MessageHands { there, gone })
    }
}

impl WalkTables {
    /// What a history tells.
    pub(crate) fn of(
        alloc: Global,
        letters: &mut Letters,
        history: &History,
    ) -> Result<WalkTables, AllocError>
        ensures { IfOk result (λ tables. HasTables (history_of history.now) tables) }
    {
        let walk = gathered(alloc, letters, history)?;
        WalkTables::of_walk(alloc, walk)
    }

    /// What a walk tells.
    fn of_walk(alloc: Global, walk: HistoryWalk) -> Result<WalkTables, AllocError>
        ensures { IfOk result (λ tables. AreTablesOf walk tables) }
    {
        let (tallies, hands) = told_by_walk(alloc, &walk)?;
        Ok(WalkTables {
            accepted: walk.accepted,
            tallies,
            hands,
        })
    }
}

/// What a walk tells, but for the order in which messages were pushed.
fn told_by_walk(
    alloc: Global,
    walk: &HistoryWalk,
) -> Result<(MessageTallies, MessageHands), AllocError>
    ensures tallies { IfOk result (λ r. AreTalliesOf walk.now r.0) }
    ensures hands { IfOk result (λ r. AreHandsOf walk.now r.1) }
{
    let tallies = MessageTallies::of(alloc, walk)?;
    let hands = MessageHands::of(alloc, walk)?;
    Ok((tallies, hands))
}
