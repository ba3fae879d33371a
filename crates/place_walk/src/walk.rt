//! A walk over a history's entries: what it gathers of messages.
ghost use Rattle.std.specs.Prelude.{◌≡◌, ◌++◌, IfOk, OnOk};
ghost use Rattle.std.specs.FinMap.{get};
ghost use Rattle.command_blocks.specs.EnvelopeTexts.{plain_setting};
ghost use Rattle.message_acts.specs.Numbers.{listed};
ghost use Rattle.place_model.specs.Shown.{history_of};
ghost use Rattle.place_walk.specs.Gathered.{IsWalkOf};
ghost use Rattle.place_walk.specs.Walks.{call_noted, gathered, walk_called, walk_start, walk_stopped, walked};

use crate::numbered::Numbered;
use crate::seat::ClientSeat;
use crate::seats::{seat_after, seats_of, stopped};
use letters::Letters;
use message_acts::{Act, Telling, add_copied, add_ended, direct_push, telling_of};
use place_model::{Entry, Heard, History};
use std::alloc::{AllocError, Global};
use wire_values::{List, Value};

/// What was gathered, by the numbers of delivery tags.
#[derive(Drop)]
pub struct HistoryWalk {
    /// The clients of the table.
    pub seats: Numbered<ClientSeat>,
    /// The messages that were pushed directly, in order.
    pub accepted: List<u128>,
    /// Those of them that a client of the table pushed.
    pub pushes: List<u128>,
    /// Those that a transaction took out of the table and pushed nowhere.
    pub ended: List<u128>,
    /// Those that a transaction pushed more than once.
    pub copied: List<u128>,
}

/// What a history's entries tell of its messages. What their words spell is noted.
///
/// `AllocError` is want of memory.
pub fn gathered(
    alloc: Global,
    letters: &mut Letters,
    history: &History,
) -> Result<HistoryWalk, AllocError>
    ensures { IfOk result (λ walk. IsWalkOf (history_of history.now) walk) }
{
    walk_over(alloc, letters, history)
}

/// The walk over a history's entries.
fn walk_over(
    alloc: Global,
    letters: &mut Letters,
    history: &History,
) -> Result<HistoryWalk, AllocError>
    ensures { IfOk result (λ walk. walk ≡ gathered plain_setting (history_of history.now)) }
{
    let mut walk = HistoryWalk::new(alloc, history.clients())?;
    for entry in history.entries() {
        walk.add(alloc, letters, entry)?;
    }
    Ok(walk)
}

impl HistoryWalk {
    /// Before any entry.
    fn new(alloc: Global, clients: &[(u32, u64)]) -> Result<HistoryWalk, AllocError>
        ensures { IfOk result (λ walk. walk ≡ walk_start clients.now) }
    {
        Ok(HistoryWalk {
            seats: seats_of(alloc, clients)?,
            accepted: List::new(),
            pushes: List::new(),
            ended: List::new(),
            copied: List::new(),
        })
    }

    /// After one more entry.
    fn add(
        &mut self,
        alloc: Global,
        letters: &mut Letters,
        entry: &Entry<Heard>,
    ) -> Result<(), AllocError>
        ensures { OnOk result (self.new ≡ walked plain_setting self.old entry.now) }
    {
        match entry {
            Entry::Call {
                conn,
                at: _,
                words,
                reply,
            } => {
                let told = telling_of(alloc, letters, words)?;
                self.called(alloc, letters, *conn, told, &reply.answer)
            }
            Entry::Heard { conn: _, heard: _ } => Ok(()),
            Entry::Stop { conn } => self.stopped(*conn),
        }
    }

    /// After a call.
    fn called(
        &mut self,
        alloc: Global,
        letters: &mut Letters,
        conn: u32,
        told: Telling,
        answer: &Value,
    ) -> Result<(), AllocError>
        ensures { OnOk result (self.new ≡ walk_called plain_setting self.old conn told.kind told.act answer.now (get self.old.seats conn)) }
    {
        add_number(alloc, &mut self.accepted, direct_push(told, answer))?;
        match self.seats.take(conn) {
            None => Ok(()),
            Some(seat) => {
                self.note(alloc, seat.acts.as_slice(), told, answer)?;
                let seat = seat_after(alloc, letters, seat, told, answer)?;
                self.seats.put(conn, seat)
            }
        }
    }

    /// After a call of a client of the table, whose commands since MULTI do this.
    fn note(
        &mut self,
        alloc: Global,
        acts: &[Act],
        told: Telling,
        answer: &Value,
    ) -> Result<(), AllocError>
        ensures { OnOk result (self.new ≡ call_noted self.old acts.now told.kind told.act answer.now) }
    {
        add_number(alloc, &mut self.pushes, direct_push(told, answer))?;
        add_ended(alloc, &mut self.ended, acts, told.kind, answer)?;
        add_copied(alloc, &mut self.copied, acts, told.kind, answer)
    }

    /// After a connection is gone.
    fn stopped(&mut self, conn: u32) -> Result<(), AllocError>
        ensures { OnOk result (self.new ≡ walk_stopped self.old conn (get self.old.seats conn)) }
    {
        match self.seats.take(conn) {
            None => Ok(()),
            Some(seat) => self.seats.put(conn, stopped(seat)),
        }
    }
}

/// Adds a number, if there is one.
fn add_number(
    alloc: Global,
    numbers: &mut List<u128>,
    number: Option<u128>,
) -> Result<(), AllocError>
    ensures { OnOk result (numbers.new ≡ numbers.old ++ listed number) }
{
    match number {
        Some(number) => Ok(numbers.push(alloc, number)?),
        None => Ok(()),
    }
}
