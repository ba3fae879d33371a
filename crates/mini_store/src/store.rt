//! The store that clients share.
ghost use Rattle.store_model.specs.Store.{apply_of, empty_state, gone_of, ready_of};
ghost use Rattle.store_model.specs.Limits.{moment_limit};
ghost use Rattle.wire_grammar.specs.Fits.{IsWithinLimits};
ghost use Rattle.std.specs.Prelude.{◌≡◌, ◌<◌, IfOk, IsErr, IsTrue, OnErr, OnOk, false, true};

use crate::database::Database;
use std::alloc::{AllocError, Global};
use std::marker::Model;
use store_keys::Keyspace;
use store_model::Reply;
use wire_values::Words;

/// A store of texts, lists, sets, hashes and sorted sets under keys, shared by connections that are told by their
/// numbers. Contracts see its state, and whether it is spent.
///
/// After an answer of want of memory the store is spent: each later command is answered so and changes nothing.
#[derive(Debug, Drop)]
pub struct Store {
    database: Database,
    spent: bool,
}

impl Model for Store {
    ghost use Rattle.store_model.specs.Store.{StoreView, view_code};

    ghost Value = { StoreView };

    ghost coded = { view_code };

    ghost view = { λ s. record { state = s.database; spent = s.spent } };
}

impl Store {
    /// A store without keys that knows no connection; takes no memory.
    pub fn new(alloc: Global) -> Self
        ensures { result ≡ record { state = empty_state; spent = false } }
    {
        Store {
            database: Database::new(alloc),
            spent: false,
        }
    }

    /// Takes a command of a connection: drops what is due at this moment, in seconds, then runs or queues the command.
    ///
    /// A faulty command and one that meets another kind of value are answered an error value. `AllocError` is want of
    /// memory; the store is spent from then on.
    pub fn apply(
        &mut self,
        alloc: Global,
        at: u64,
        conn: u32,
        words: &Words,
    ) -> Result<Reply, AllocError>
        requires moment { at < moment_limit }
        requires words { IsWithinLimits words.now }
        ensures reply { IfOk result (λ reply. (self.new.state, reply) ≡ apply_of self.old.state at conn words.now) }
        ensures whole { OnOk result (self.new.spent ≡ false) }
        ensures wants { OnErr result (self.new.spent ≡ true) }
        ensures spent { IsTrue self.old.spent → IsErr result }
        ensures still { IsTrue self.old.spent → self.new ≡ self.old }
    {
        if self.spent {
            return Err(AllocError);
        }
        self.spent = true;
        let reply = self.database.apply(alloc, at, conn, words)?;
        self.spent = false;
        Ok(reply)
    }

    /// The keys with what they hold, also those that are due and not yet dropped; takes no memory.
    pub fn keys(&self) -> &Keyspace
        ensures { result.now ≡ self.now.state.keys }
    {
        self.database.keys()
    }

    /// Drops all that a connection has; takes no memory.
    pub fn gone(&mut self, conn: u32)
        ensures { self.new ≡ record self.old { state = gone_of self.old.state conn } }
    {
        self.database.forget(conn);
    }

    /// Whether a command finds what it would wait for: false exactly where it is a lawful BRPOP and each of its keys is
    /// absent or gone at this moment. Takes no memory.
    pub fn ready(&self, at: u64, words: &Words) -> bool
        ensures { result ≡ ready_of self.now.state at words.now }
    {
        self.database.ready(at, words)
    }
}
