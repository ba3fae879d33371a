//! What a history tells of its messages, to be looked up by the numbers of their tags.
ghost use Rattle.std.specs.Prelude.{◌≡◌, IfOk};
ghost use Rattle.place_model.specs.Histories.{after};
ghost use Rattle.place_model.specs.Shown.{history_of};
ghost use Rattle.place_index.specs.Indexed.{IsIndexOf, elsewhere_in, place_in, single_in};

use crate::kept::is_kept;
use crate::standing::{Standing, standing};
use crate::tables::WalkTables;
use crate::tagged::Tagged;
use letters::Letters;
use place_model::{History, Place};
use std::alloc::{AllocError, Global};
use store_keys::Keyspace;

/// What a history tells of its messages, beside the table in its store.
#[derive(Drop)]
pub(crate) struct Index {
    pub(crate) walked: WalkTables,
    /// The messages in the lists of queues.
    pub(crate) standing: Tagged<Standing>,
}

impl Index {
    /// What a history tells that leaves these keys.
    pub(crate) fn of(
        alloc: Global,
        letters: &mut Letters,
        history: &History,
        keys: &Keyspace,
    ) -> Result<Index, AllocError>
        requires { keys.now ≡ (after (history_of history.now)).store.keys }
        ensures { IfOk result (λ index. IsIndexOf (history_of history.now) index) }
    {
        let walked = WalkTables::of(alloc, letters, history)?;
        let standing = standing(alloc, letters, keys)?;
        Ok(Index { walked, standing })
    }

    /// The place of a message, beside the keys that the history leaves.
    pub(crate) fn place(
        &self,
        alloc: Global,
        keys: &Keyspace,
        number: u128,
    ) -> Result<Place, AllocError>
        ensures { IfOk result (λ place. place ≡ place_in self.now keys.now number) }
    {
        match self.walked.tallies.pushes.get(number) {
            None => Ok(Place::Never),
            Some(twice) => {
                if *twice || self.walked.tallies.copied.has(number) {
                    return Ok(Place::Copies);
                }
                self.single(alloc, keys, number)
            }
        }
    }

    /// The place of a message of which nothing is pushed twice.
    fn single(&self, alloc: Global, keys: &Keyspace, number: u128) -> Result<Place, AllocError>
        ensures { IfOk result (λ place. place ≡ single_in self.now keys.now number) }
    {
        if let Some((queue, step)) = self.standing.get(number) {
            return Ok(Place::List {
                queue: queue.copy(alloc)?,
                step: *step,
            });
        }
        if is_kept(alloc, keys, number)? {
            return Ok(Place::Unacked);
        }
        Ok(self.elsewhere(number))
    }

    /// The place of a message that is in no list and not in the table.
    fn elsewhere(&self, number: u128) -> Place
        ensures { result ≡ elsewhere_in self.now number }
    {
        if let Some(conn) = self.walked.hands.there.get(number) {
            return Place::Hand(*conn);
        }
        if self.walked.tallies.ended.has(number) {
            return Place::Ended;
        }
        match self.walked.hands.gone.get(number) {
            Some(conn) => Place::Lost(*conn),
            None => Place::Never,
        }
    }
}
