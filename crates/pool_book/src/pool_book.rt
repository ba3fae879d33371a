//! The book.
ghost use Rattle.std.specs.Prelude.{◌≡◌, ◌==◌, ◌<◌, false, true, IfOk, IfSome, OnErr, OnOk, length, position};
ghost use Rattle.pool_book.specs.Books.{answer_of, book_after, pool_book_of, busy_in, empty_book, given_after, given_answer, hold_after, hold_answer, ids_of, is_one_due, put_after, put_answer, take_after, take_answer, ticket_ids, view_of, without_ticket};
ghost use Rattle.pool_book.specs.declared.asking.BookAnswer.TheVariants as answer;
ghost use Rattle.pool_book.specs.declared.asking.BookAsk.TheVariants as ask;

use crate::scheduling::{has_expired, is_held_at, place_of, second_of};
use crate::{BookAnswer, BookAsk, Delivery, DropWhy, Numbers, View};
use revokes::Revokes;
use std::alloc::{AllocError, Global};
use wire_values::{Bytes, List, Words};

/// How many deliveries may be held at once.
pub const HELD_LIMIT: usize = 65_535;

/// A delivery that runs: its number, and the id of its task.
#[derive(Drop)]
pub struct Ticket {
    pub number: u64,
    pub id: Bytes,
}

/// The deliveries that a worker took: those that wait, those that are held until a moment, and those that run; with the
/// ids that are revoked, how many may wait and run at once, and whether the worker is closing. After want of memory it
/// answers nothing more.
#[derive(Drop)]
pub struct PoolBook {
    waiting: Vec<Box<Delivery>>,
    held: Vec<Box<Delivery>>,
    running: Vec<Ticket>,
    numbers: Numbers,
    revokes: Revokes,
    prefetch: u64,
    closing: bool,
    shut: bool,
    spent: bool,
}

impl PoolBook {
    /// A book to which nothing was put; takes no memory.
    pub fn new(alloc: Global, prefetch: u64) -> PoolBook
        ensures book { pool_book_of result ≡ empty_book prefetch }
        ensures spent { result.spent ≡ false }
    {
        PoolBook {
            waiting: Vec::new(alloc),
            held: Vec::new(alloc),
            running: Vec::new(alloc),
            numbers: Numbers::new(alloc),
            revokes: Revokes::new(alloc),
            prefetch,
            closing: false,
            shut: false,
            spent: false,
        }
    }

    /// Answers an ask.
    ///
    /// # Errors
    /// Want of memory, now or in an earlier call.
    pub fn call(&mut self, alloc: Global, ask: BookAsk) -> Result<BookAnswer, AllocError>
        ensures answer { IfOk result (λ answer. answer ≡ answer_of (pool_book_of self.old) ask) }
        ensures book { OnOk result (pool_book_of self.new ≡ book_after (pool_book_of self.old) ask) }
        ensures spent { OnErr result (self.new.spent ≡ true) }
        ensures fresh { OnOk result (self.old.spent ≡ false) }
        ensures same { OnOk result (self.new.spent ≡ false) }
    {
        if self.spent {
            return Err(AllocError);
        }
        match self.answer(alloc, ask) {
            Ok(answer) => Ok(answer),
            Err(refused) => {
                self.spent = true;
                Err(refused)
            }
        }
    }

    fn answer(&mut self, alloc: Global, ask: BookAsk) -> Result<BookAnswer, AllocError>
        ensures answer { IfOk result (λ answer. answer ≡ answer_of (pool_book_of self.old) ask) }
        ensures book { OnOk result (pool_book_of self.new ≡ book_after (pool_book_of self.old) ask) }
        ensures spent { self.new.spent ≡ self.old.spent }
    {
        match ask {
            BookAsk::Put { delivery, now } => self.put(delivery, now),
            BookAsk::Take { now } => self.take(alloc, now),
            BookAsk::Finish { number } => Ok(self.finish(number)),
            BookAsk::Revoke { id, now } => self.revoke(alloc, id, now),
            BookAsk::Look { now } => self.look(alloc, now),
            BookAsk::Closing => Ok(self.close()),
            BookAsk::Shut => Ok(self.shut()),
        }
    }

    /// Takes in a delivery, unless its number was put before or too many are held.
    fn put(&mut self, delivery: Box<Delivery>, now: i64) -> Result<BookAnswer, AllocError>
        ensures answer { IfOk result (λ answer. answer ≡ put_answer (pool_book_of self.old) delivery now) }
        ensures book { OnOk result (pool_book_of self.new ≡ put_after (pool_book_of self.old) delivery now) }
        ensures spent { self.new.spent ≡ self.old.spent }
    {
        if self.numbers.has(delivery.number()) {
            return Ok(BookAnswer::Nothing);
        }
        if is_held_at(&delivery, now) {
            return self.hold(delivery);
        }
        self.numbers.add(delivery.number())?;
        self.waiting.push(delivery)?;
        Ok(BookAnswer::Put { held: false })
    }

    /// Holds a delivery, unless too many are held.
    fn hold(&mut self, delivery: Box<Delivery>) -> Result<BookAnswer, AllocError>
        ensures answer { IfOk result (λ answer. answer ≡ hold_answer (pool_book_of self.old)) }
        ensures book { OnOk result (pool_book_of self.new ≡ hold_after (pool_book_of self.old) delivery) }
        ensures spent { self.new.spent ≡ self.old.spent }
    {
        if self.held.len() >= HELD_LIMIT {
            return Ok(BookAnswer::Nothing);
        }
        self.numbers.add(delivery.number())?;
        let place = place_of(self.held.as_slice(), &delivery);
        self.held.insert(place, delivery)?;
        Ok(BookAnswer::Put { held: true })
    }

    /// Gives a delivery.
    fn take(&mut self, alloc: Global, now: i64) -> Result<BookAnswer, AllocError>
        ensures answer { IfOk result (λ answer. answer ≡ take_answer (pool_book_of self.old) now) }
        ensures book { OnOk result (pool_book_of self.new ≡ take_after (pool_book_of self.old) now) }
        ensures spent { self.new.spent ≡ self.old.spent }
    {
        if self.shut {
            return Ok(BookAnswer::Over);
        }
        if !self.waiting.is_empty() {
            let delivery = self.waiting.remove(0);
            return self.give(alloc, delivery, now);
        }
        if !self.is_one_due(now) {
            return Ok(BookAnswer::Nothing);
        }
        let delivery = self.held.remove(0);
        self.give(alloc, delivery, now)
    }

    /// Whether one that is held is due.
    fn is_one_due(&self, now: i64) -> bool
        ensures { result ≡ is_one_due now self.now.held.items }
    {
        match self.held.first() {
            Some(delivery) => !is_held_at(delivery, now),
            None => false,
        }
    }

    /// Gives this delivery, to be dropped or to be run.
    fn give(
        &mut self,
        alloc: Global,
        delivery: Box<Delivery>,
        now: i64,
    ) -> Result<BookAnswer, AllocError>
        ensures answer { IfOk result (λ answer. answer ≡ given_answer (pool_book_of self.old) now delivery) }
        ensures book { OnOk result (pool_book_of self.new ≡ given_after (pool_book_of self.old) now delivery) }
        ensures spent { self.new.spent ≡ self.old.spent }
    {
        if self
            .revokes
            .has(delivery.task().id.as_slice(), second_of(now))
        {
            return Ok(BookAnswer::Drop(delivery, DropWhy::Revoked));
        }
        if has_expired(&delivery, now) {
            return Ok(BookAnswer::Drop(delivery, DropWhy::Expired));
        }
        let id = delivery.task().id.copy(alloc)?;
        self.running.push(Ticket {
            number: delivery.number(),
            id,
        })?;
        Ok(BookAnswer::Run(delivery))
    }

    /// Ends the delivery of a number that runs.
    fn finish(&mut self, number: u64) -> BookAnswer
        ensures answer { result ≡ answer.Finished }
        ensures book { pool_book_of self.new ≡ book_after (pool_book_of self.old) (ask.Finish number) }
        ensures spent { self.new.spent ≡ self.old.spent }
    {
        end_ticket(&mut self.running, number);
        BookAnswer::Finished
    }

    /// Revokes the task of an id.
    fn revoke(&mut self, alloc: Global, id: Bytes, now: u64) -> Result<BookAnswer, AllocError>
        ensures answer { IfOk result (λ given. given ≡ answer.Noted) }
        ensures book { OnOk result (pool_book_of self.new ≡ book_after (pool_book_of self.old) (ask.Revoke id now)) }
        ensures spent { self.new.spent ≡ self.old.spent }
    {
        self.revokes.add(alloc, id, now)?;
        Ok(BookAnswer::Noted)
    }

    /// Says from now on that the worker is closing.
    fn close(&mut self) -> BookAnswer
        ensures answer { result ≡ answer.Noted }
        ensures book { pool_book_of self.new ≡ book_after (pool_book_of self.old) ask.Closing }
        ensures spent { self.new.spent ≡ self.old.spent }
    {
        self.closing = true;
        BookAnswer::Noted
    }

    /// Gives nothing more.
    fn shut(&mut self) -> BookAnswer
        ensures answer { result ≡ answer.Noted }
        ensures book { pool_book_of self.new ≡ book_after (pool_book_of self.old) ask.Shut }
        ensures spent { self.new.spent ≡ self.old.spent }
    {
        self.shut = true;
        BookAnswer::Noted
    }

    /// What it has.
    fn look(&mut self, alloc: Global, now: i64) -> Result<BookAnswer, AllocError>
        ensures answer { IfOk result (λ given. given ≡ answer.Seen (view_of (pool_book_of self.old) now)) }
        ensures same { self.new ≡ self.old }
    {
        let waiting = ids_of(alloc, self.waiting.as_slice())?;
        let running = ticket_ids(alloc, self.running.as_slice())?;
        let held = ids_of(alloc, self.held.as_slice())?;
        let revoked = self.revokes.live(alloc, second_of(now))?;
        Ok(BookAnswer::Seen(View {
            room: self.busy() < self.prefetch && self.held.len() < HELD_LIMIT,
            busy: self.busy(),
            closing: self.closing,
            waiting,
            running,
            held,
            revoked,
        }))
    }

    /// How many wait or run.
    fn busy(&self) -> u64
        ensures { result ≡ busy_in (pool_book_of self.now) }
    {
        (self.waiting.len() as u64).saturating_add(self.running.len() as u64)
    }
}

/// Takes out the one that runs under a number.
#[tactic(auto, using(crate::proofs::Placing::removed_at))]
fn end_ticket(running: &mut Vec<Ticket>, number: u64)
    ensures { running.new.items ≡ without_ticket number running.old.items }
{
    match ticket_place(running.as_slice(), number) {
        Some(place) => {
            running.remove(place);
        }
        None => {}
    }
}

/// The place of the one that runs under a number.
fn ticket_place(running: &[Ticket], number: u64) -> Option<usize>
    ensures value { result ≡ position (λ t. t.number == number) running.now }
    ensures within { IfSome result (λ place. place < length running.now) }
{
    running.iter().position(|ticket| ticket.number == number)
}

/// The ids of the tasks of deliveries.
fn ids_of(alloc: Global, deliveries: &[Box<Delivery>]) -> Result<Words, AllocError>
    ensures { IfOk result (λ ids. ids ≡ ids_of deliveries.now) }
{
    let mut ids = List::new();
    for delivery in deliveries {
        ids.push(alloc, delivery.task().id.copy(alloc)?)?;
    }
    Ok(ids)
}

/// The ids of the tasks that run.
fn ticket_ids(alloc: Global, tickets: &[Ticket]) -> Result<Words, AllocError>
    ensures { IfOk result (λ ids. ids ≡ ticket_ids tickets.now) }
{
    let mut ids = List::new();
    for ticket in tickets {
        ids.push(alloc, ticket.id.copy(alloc)?)?;
    }
    Ok(ids)
}
