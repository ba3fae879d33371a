//! What is kept of each client.
ghost use Rattle.std.specs.FinMap as map;
ghost use Rattle.std.specs.Option.{option_copied};
ghost use Rattle.std.specs.Prelude.{◌≡◌, Ok, OnErr, OnOk, Some, alloc_error, true};
ghost use Rattle.steps.specs.Begins.{errand_of};
ghost use Rattle.steps.specs.declared.begun.BeginFault.TheVariants.{Memory};
ghost use Rattle.command_blocks.specs.Scripts.{Over, Plan};
ghost use Rattle.client_core.specs.Begun.{Began};
ghost use Rattle.client_core.specs.Works.{client_left, core_client};
ghost use Rattle.client_plans.specs.Plans.{Begins};
ghost use Rattle.schedule_world.specs.Rests.{IsBusy, IsPresent, IsResting, is_book_gone};

use client_core::ClientCore;
use line_text::Reason;
use std::alloc::{AllocError, Global};
use std::collections::BTreeMap;
use std::marker::Model;
use steps::{BeginFault, Block, ClientCounts, Steps};

/// What is kept of a client: the client whole, and whether it is stopped.
#[derive(Drop)]
pub(crate) struct ClientBook {
    pub(crate) core: ClientCore,
    pub(crate) is_stopped: bool,
}

impl ClientBook {
    /// Whether the client says nothing more: it is stopped, or an answer to it wasn't listed.
    pub(crate) fn is_gone(&self) -> bool
        ensures { result ≡ is_book_gone self.now }
    {
        self.is_stopped || self.core.is_off()
    }
}

/// The clients' books by their numbers, seen by contracts as a finite map.
#[derive(Drop)]
pub(crate) struct Books {
    kept: BTreeMap<u32, ClientBook>,
}

impl Model for Books {
    ghost use Rattle.schedule_world.specs.Shelves.{Shelf, shelf_code};
    ghost use Rattle.std.specs.FinMap as map;

    ghost Value = { Shelf };

    ghost coded = { shelf_code };

    ghost view = { λ b. map.from_entries b.kept.entries };
}

impl Books {
    ghost use Rattle.schedule_world.specs.Begins.{BeganPlan, HasBegunPlan, MayBegin};
    ghost use Rattle.schedule_world.specs.declared.book.ClientBook.{ClientBook as Kept};

    /// No books; takes no memory.
    pub(crate) fn new(alloc: Global) -> Self
        ensures { result ≡ map.empty }
    {
        Books {
            kept: BTreeMap::new(alloc),
        }
    }

    /// A client's book.
    pub(crate) fn get(&self, client: u32) -> Option<&ClientBook>
        ensures { option_copied result ≡ map.get self.now client }
    {
        self.kept.get(&client)
    }

    /// The counts of a client that has no block to go on with.
    ///
    /// # Errors
    /// `UnknownClient`, `Stopped`, also since an answer wasn't listed, or `Busy`.
    pub(crate) fn resting(&self, client: u32) -> Result<ClientCounts, Reason>
        ensures { IsResting (map.get self.now client) result }
    {
        let book = self.get(client).ok_or(Reason::UnknownClient)?;
        if book.is_gone() {
            return Err(Reason::Stopped);
        }
        if book.core.has_more() {
            return Err(Reason::Busy);
        }
        Ok(book.core.counts())
    }

    /// Takes the book of a client out that has a block to go on with.
    ///
    /// # Errors
    /// `UnknownClient`, `Stopped`, also since an answer wasn't listed, or `Idle`; then nothing changed.
    pub(crate) fn take_busy(&mut self, client: u32) -> Result<ClientBook, Reason>
        ensures taken { IsBusy (map.get self.old client) result }
        ensures kept { OnErr result (self.new ≡ self.old) }
        ensures removed { OnOk result (self.new ≡ map.remove self.old client) }
    {
        let book = self.get(client).ok_or(Reason::UnknownClient)?;
        if book.is_gone() {
            return Err(Reason::Stopped);
        }
        if !book.core.has_more() {
            return Err(Reason::Idle);
        }
        self.take(client).ok_or(Reason::UnknownClient)
    }

    /// A client begins a block; without memory its book is gone.
    pub(crate) fn begin(
        &mut self,
        alloc: Global,
        client: u32,
        block: Block,
    ) -> Result<(), AllocError>
        requires { (k : Kept) → map.get self.old client ≡ Some k → MayBegin k block }
        ensures ok { OnOk result ((k : Kept) (p : Plan) → map.get self.old client ≡ Some k → Begins (core_client k.core) p block
            → HasBegunPlan client k p self.old self.new) }
        ensures err { OnErr result (self.new ≡ map.remove self.old client) }
    {
        match self.take(client) {
            Some(book) => self.set_begun(alloc, client, book, block),
            None => Ok(()),
        }
    }

    /// Sets the book of a client that begins a block; without memory the table is as it was.
    fn set_begun(
        &mut self,
        alloc: Global,
        client: u32,
        mut book: ClientBook,
        block: Block,
    ) -> Result<(), AllocError>
        requires { MayBegin book block }
        ensures ok { OnOk result ((p : Plan) → Begins (core_client book.core) p block → (n : Kept) × (self.new ≡ map.insert self.old client n) × BeganPlan book p n) }
        ensures err { OnErr result (self.new ≡ self.old) }
    {
        began(alloc, &mut book.core, block)?;
        self.set(client, book)
    }

    /// Whether a client is there.
    ///
    /// # Errors
    /// `UnknownClient`, or `Stopped`, also since an answer wasn't listed.
    pub(crate) fn present(&self, client: u32) -> Result<(), Reason>
        ensures { IsPresent (map.get self.now client) result }
    {
        let book = self.get(client).ok_or(Reason::UnknownClient)?;
        if book.is_gone() {
            return Err(Reason::Stopped);
        }
        Ok(())
    }

    /// Notes that a client is stopped; without memory its book is gone.
    pub(crate) fn stop(&mut self, client: u32) -> Result<(), AllocError>
        ensures ok { OnOk result ((k : Kept) → map.get self.old client ≡ Some k
            → self.new ≡ map.insert (map.remove self.old client) client (record k { is_stopped = true })) }
        ensures err { OnErr result (self.new ≡ map.remove self.old client) }
    {
        let Some(mut book) = self.take(client) else {
            return Ok(());
        };
        book.is_stopped = true;
        self.set(client, book)
    }

    /// Takes a client's book out.
    fn take(&mut self, client: u32) -> Option<ClientBook>
        ensures taken { result ≡ map.get self.old client }
        ensures removed { self.new ≡ map.remove self.old client }
    {
        self.kept.remove(&client)
    }

    /// Sets a client's book; without memory the table is as it was.
    pub(crate) fn set(&mut self, client: u32, book: ClientBook) -> Result<(), AllocError>
        ensures ok { OnOk result (self.new ≡ map.insert self.old client book) }
        ensures err { OnErr result (self.new ≡ self.old) }
    {
        self.kept.insert(client, book)?;
        Ok(())
    }
}

/// A client begins a block that it may begin.
fn began(alloc: Global, core: &mut ClientCore, block: Block) -> Result<(), AllocError>
    requires idle { client_left core.old ≡ Over }
    requires planned { (p : Plan) × Begins (core_client core.old) p block }
    ensures { OnOk result (Began core.old core.new (errand_of (core_client core.old) block) (Ok tt)) }
{
    match core.begin(alloc, block) {
        Ok(()) => Ok(()),
        Err(fault) => Err(lacked(fault)),
    }
}

/// The want of memory that a client told who began the block of a plan.
fn lacked(fault: BeginFault) -> AllocError
    requires { fault ≡ Memory }
    ensures { result ≡ alloc_error }
{
    match fault {
        BeginFault::Memory => AllocError,
        BeginFault::NoTag | BeginFault::Name(_) | BeginFault::Draft(_) | BeginFault::BadNeutral => {
            unreachable!()
        }
    }
}
