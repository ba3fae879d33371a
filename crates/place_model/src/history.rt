//! Histories: what a store's clients called, noted and left.
ghost use Rattle.std.specs.Prelude.{◌≡◌, [], ◌∷◌, OnOk, OnErr};
ghost use Rattle.place_model.specs.Takable.{AreTakable};

use crate::Heard;
use std::alloc::{AllocError, Global};
use store_model::Reply;
use wire_values::{List, Words};

/// An entry of a history: a call of a connection, a note of its client, or its end. `N` is the type of notes.
#[derive(Debug, Drop)]
pub enum Entry<N> {
    /// A command of a connection, with the moment in seconds at which the store took it, and the reply.
    Call {
        conn: u32,
        at: u64,
        words: Words,
        reply: Reply,
    },
    /// What the client of a connection noted; the store isn't concerned.
    Heard {
        conn: u32,
        heard: N,
    },
    /// The connection is gone, with its client.
    Stop {
        conn: u32,
    },
}

/// A history of a store: its clients, each a connection with the seed of its tags, and the entries in order. The store
/// begins with no key.
#[derive(Debug, Drop)]
pub struct History {
    clients: List<(u32, u64)>,
    entries: List<Entry<Heard>>,
    // A store can take each entry.
    ghost takable: { ∥ AreTakable entries ∥₁ },
}

impl History {
    ghost use Rattle.std.specs.FinMap.{empty};
    ghost use Rattle.place_model.specs.Histories.{and_then, conn_of, connections, seeds};
    ghost use Rattle.queue_keys.specs.QueueKeys.{IsAway};
    ghost use Rattle.place_model.specs.Shown.{IsRunning, and_client, history_of, seed_of};
    ghost use Rattle.place_model.specs.Takable.{IsTakable};

    /// No clients and no entries; takes no memory.
    pub fn new() -> History
        ensures { history_of result ≡ record { start = empty; used = []; clients = []; entries = [] } }
    {
        History {
            clients: List::new(),
            entries: List::new(),
        }
    }

    /// Adds a client by its connection and its seed; without memory nothing changes.
    pub fn client(&mut self, alloc: Global, conn: u32, seed: u64) -> Result<(), AllocError>
        requires conn { IsAway conn (connections (history_of self.old).clients) }
        requires seed { IsAway seed (seeds (history_of self.old).clients) }
        ensures ok { OnOk result (history_of self.new ≡ and_client (history_of self.old) conn seed) }
        ensures err { OnErr result (self.new ≡ self.old) }
    {
        Ok(self.clients.push(alloc, (conn, seed))?)
    }

    /// Adds an entry of a client that isn't gone; without memory nothing changes. The moment of a call is below 2^40
    /// seconds, and the array of its words, as bulk strings, fits: at most 4,096 words, each of at most 1,048,576 bytes, and
    /// all of it within 8,388,608 bytes as RESP2 writes it.
    pub fn add(&mut self, alloc: Global, entry: Entry<Heard>) -> Result<(), AllocError>
        requires running { IsRunning (history_of self.old) (conn_of entry) }
        requires takable { IsTakable entry }
        ensures ok { OnOk result (history_of self.new ≡ and_then (history_of self.old) (entry ∷ [])) }
        ensures err { OnErr result (self.new ≡ self.old) }
    {
        Ok(self.entries.push(alloc, entry)?)
    }

    /// The entries in order.
    pub fn entries(&self) -> &[Entry<Heard>]
        ensures entries { result.now ≡ (history_of self.now).entries }
        ensures takable { AreTakable result.now }
    {
        self.entries.as_slice()
    }

    /// The connections with their seeds, in the order in which they were added.
    pub fn clients(&self) -> &[(u32, u64)]
        ensures { result.now ≡ (history_of self.now).clients }
    {
        self.clients.as_slice()
    }

    /// The seed of a connection. None where it isn't in the table.
    pub fn seed_of(&self, conn: u32) -> Option<u64>
        ensures { result ≡ seed_of conn (history_of self.now).clients }
    {
        for (number, seed) in self.clients.as_slice() {
            if *number == conn {
                return Some(*seed);
            }
        }
        None
    }
}
