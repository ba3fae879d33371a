//! What the store knows of its connections.
ghost use Rattle.store_model.specs.Connections.{Conns, broken_queue, cleared, conn, delivered, longer_queue, queue_length, with_broken, with_command, hearing, hears, hit, no_conn, reached, touch, touch_due, touched};
ghost use Rattle.store_model.specs.Keys.{due_keys};
ghost use Rattle.store_model.specs.Replies.{message};
ghost use Rattle.std.specs.BTreeMap.{IsOrdered};
ghost use Rattle.std.specs.FinMap as map;
ghost use Rattle.std.specs.Ordering.{nat_cmp};
ghost use Rattle.std.specs.Prelude.{◌≡◌, [], ◌∷◌, ◌++◌, IfOk, IsTrue, None, OnOk, Some, is_some, length, map as mapped};

use sqlite_items::Items;
use std::alloc::{AllocError, Global};
use std::collections::BTreeMap;
use std::marker::Model;
use std::mem;
use store_keys::Keyspace;
use store_keys::effect::push_bulk;
use store_model::{Command, Conn, PENDING_LIMIT, Queue};
use store_tables::Deque;
use wire_values::{Bytes, Value, Values};

/// The connections by their numbers, seen by contracts as a finite map.
#[derive(Debug, Drop)]
pub struct Connections {
    kept: BTreeMap<u32, Conn>,
}

impl Model for Connections {
    ghost use Rattle.store_model.specs.Connections.{Conns};
    ghost use Rattle.store_model.specs.Store.{conns_code};
    ghost use Rattle.std.specs.FinMap as map;

    ghost Value = { Conns };

    ghost coded = { conns_code };

    ghost view = { λ c. map.from_entries c.kept.entries };
}

impl Connections {
    /// No connection is known; takes no memory.
    pub fn new(alloc: Global) -> Self
        ensures { result ≡ map.empty }
    {
        Connections {
            kept: BTreeMap::new(alloc),
        }
    }

    /// Whether a connection has a queue since MULTI.
    pub fn is_queueing(&self, number: u32) -> bool
        ensures { result ≡ is_some (conn self.now number).queue }
    {
        match self.kept.get(&number) {
            Some(known) => known.queue.is_some(),
            None => false,
        }
    }

    /// Whether a key that the connection watches was altered.
    pub fn is_marked(&self, number: u32) -> bool
        ensures { result ≡ (conn self.now number).marked }
    {
        match self.kept.get(&number) {
            Some(known) => known.marked,
            None => false,
        }
    }

    /// How many commands a connection has queued.
    pub fn queue_len(&self, number: u32) -> usize
        ensures { result ≡ queue_length (conn self.now number).queue }
    {
        match self.kept.get(&number) {
            Some(known) => queue_len(&known.queue),
            None => 0,
        }
    }

    /// How many channels a connection has.
    pub fn channel_count(&self, number: u32) -> usize
        ensures { result ≡ length (conn self.now number).channels }
    {
        match self.kept.get(&number) {
            Some(known) => known.channels.len(),
            None => 0,
        }
    }

    /// How many messages a connection has pending.
    pub fn pending_count(&self, number: u32) -> usize
        ensures { result ≡ length (conn self.now number).pending }
    {
        match self.kept.get(&number) {
            Some(known) => known.pending.len(),
            None => 0,
        }
    }

    /// Takes out what is known of a connection, for something new to be set.
    pub fn take(&mut self, alloc: Global, number: u32) -> Conn
        ensures taken { result ≡ conn self.old number }
        ensures room { (c : Conn) → map.insert self.new number c ≡ map.insert self.old number c }
    {
        let Some(known) = self.kept.remove(&number) else {
            return unknown(alloc);
        };
        known
    }

    /// Sets what is known of a connection.
    pub fn set(&mut self, number: u32, known: Conn) -> Result<(), AllocError>
        ensures { OnOk result (self.new ≡ map.insert self.old number known) }
    {
        self.kept.insert(number, known)?;
        Ok(())
    }

    /// Clears a connection's queue, watched keys and mark, and gives the queue.
    pub fn clear(&mut self, alloc: Global, number: u32) -> Result<Option<Queue>, AllocError>
        ensures queue { IfOk result (λ q. q ≡ (conn self.old number).queue) }
        ensures cleared { OnOk result (self.new ≡ map.insert self.old number (cleared (conn self.old number))) }
    {
        let known = self.take(alloc, number);
        let (known, queue) = cleared(alloc, known);
        self.set(number, known)?;
        Ok(queue)
    }

    /// Marks a connection's queue broken.
    pub fn break_queue(&mut self, alloc: Global, number: u32) -> Result<(), AllocError>
        ensures { OnOk result (self.new ≡ map.insert self.old number (with_broken (conn self.old number))) }
    {
        let known = self.take(alloc, number);
        self.set(number, with_broken(known))
    }

    /// Takes the messages that a connection has pending.
    pub fn collect(&mut self, alloc: Global, number: u32) -> Result<Values, AllocError>
        ensures messages { IfOk result (λ ms. ms ≡ (conn self.old number).pending) }
        ensures quiet { OnOk result (self.new ≡ map.insert self.old number (record (conn self.old number) { pending = [] })) }
    {
        let known = self.take(alloc, number);
        let (known, messages) = hushed(alloc, known);
        self.set(number, known)?;
        Ok(messages)
    }

    /// Adds a command to a connection's queue.
    pub fn enqueue(
        &mut self,
        alloc: Global,
        number: u32,
        command: Command,
    ) -> Result<(), AllocError>
        ensures { OnOk result (self.new ≡ map.insert self.old number (with_command command (conn self.old number))) }
    {
        let known = self.take(alloc, number);
        let known = with_command(known, command)?;
        self.set(number, known)
    }

    /// How many connections a message on this channel reaches.
    pub fn hearing(&self, channel: &Bytes) -> usize
        ensures { result ≡ hearing channel.now (map.entries self.now) }
    {
        hearing_in(&self.kept, channel)
    }

    /// Makes a message on a channel pending for each connection that it reaches.
    pub fn deliver(
        &mut self,
        alloc: Global,
        channel: &Bytes,
        text: &Bytes,
    ) -> Result<(), AllocError>
        ensures { OnOk result (self.new ≡ delivered channel.now text.now self.old) }
    {
        let all = mem::replace(&mut self.kept, BTreeMap::new(alloc));
        self.kept = tell_all(alloc, all, channel, text)?;
        Ok(())
    }

    /// Drops all that a connection has.
    pub fn forget(&mut self, number: u32)
        ensures { self.new ≡ map.remove self.old number }
    {
        self.kept.remove(&number);
    }

    /// Marks each connection that watches one of these keys.
    pub fn mark(&mut self, keys: &Deque<Bytes>)
        ensures { self.new ≡ touched keys.now self.old }
    {
        if keys.is_empty() {
            return;
        }
        mark_all(&mut self.kept, keys);
    }

    /// Marks each connection that watches a key whose expiry is reached.
    pub fn mark_due(&mut self, keys: &Keyspace, at: u64)
        ensures { self.new ≡ touched (due_keys at (map.entries keys.now)) self.old }
    {
        mark_all_due(&mut self.kept, keys, at);
    }
}

fn mark_all(kept: &mut BTreeMap<u32, Conn>, keys: &Deque<Bytes>)
    ensures each { kept.new.entries ≡ mapped (λ e. (e.0, touch keys.now e.1)) kept.old.entries }
    ensures ordered { IsOrdered nat_cmp kept.old }
{
    kept.retain(|_, known| {
        if known.watched.has_any(keys) {
            known.marked = true;
        }
        true
    });
}

// A connection that isn't known.
fn unknown(alloc: Global) -> Conn
    ensures { result ≡ no_conn }
{
    Conn {
        queue: None,
        watched: Deque::new(alloc),
        marked: false,
        channels: Deque::new(alloc),
        pending: Items::new(alloc),
    }
}

// Whether a message on this channel reaches the connection.
fn hears(known: &Conn, channel: &Bytes) -> bool
    ensures { result ≡ hears channel.now known.now }
{
    known.channels.has(channel) && known.pending.len() < PENDING_LIMIT
}

fn hearing_in(kept: &BTreeMap<u32, Conn>, channel: &Bytes) -> usize
    ensures count { result ≡ hearing channel.now kept.now.entries }
    ensures ordered { IsOrdered nat_cmp kept.now }
{
    kept.iter().filter(|entry| hears(entry.1, channel)).count()
}

fn message(alloc: Global, channel: &Bytes, text: &Bytes) -> Result<Value, AllocError>
    ensures { IfOk result (λ v. v ≡ message channel.now text.now) }
{
    let mut parts = Items::new(alloc);
    push_bulk(alloc, &mut parts, b"message".as_slice())?;
    push_bulk(alloc, &mut parts, channel.as_slice())?;
    push_bulk(alloc, &mut parts, text.as_slice())?;
    Ok(Value::Array(parts))
}

// The connection with the message pending, where it reaches it.
fn tell(alloc: Global, mut known: Conn, channel: &Bytes, text: &Bytes) -> Result<Conn, AllocError>
    ensures { IfOk result (λ c. c ≡ reached channel.now text.now known) }
{
    if hears(&known, channel) {
        known.pending.push(message(alloc, channel, text)?)?;
    }
    Ok(known)
}

// Moves each connection over, with the message where it reaches it.
fn tell_all(
    alloc: Global,
    mut all: BTreeMap<u32, Conn>,
    channel: &Bytes,
    text: &Bytes,
) -> Result<BTreeMap<u32, Conn>, AllocError>
    ensures { IfOk result (λ m. map.from_entries m.entries ≡ delivered channel.now text.now (map.from_entries all.entries)) }
{
    // `len` tells that the numbers rise.
    let _count = all.len();
    let mut told = BTreeMap::new(alloc);
    while let Some((number, known)) = all.pop_first() {
        told.insert(number, tell(alloc, known, channel, text)?)?;
    }
    Ok(told)
}

fn mark_all_due(kept: &mut BTreeMap<u32, Conn>, keys: &Keyspace, at: u64)
    ensures each { kept.new.entries ≡ mapped (λ e. (e.0, touch_due at keys.now e.1)) kept.old.entries }
    ensures ordered { IsOrdered nat_cmp kept.old }
{
    kept.retain(|_, known| {
        if keys.has_due(&known.watched, at) {
            known.marked = true;
        }
        true
    });
}

fn queue_len(queue: &Option<Queue>) -> usize
    ensures { result ≡ queue_length queue.now }
{
    match queue {
        Some(queue) => queue.commands.len(),
        None => 0,
    }
}

// The connection without queue, watched keys and mark, and the queue.
fn cleared(alloc: Global, known: Conn) -> (Conn, Option<Queue>)
    ensures conn { result.0 ≡ cleared known }
    ensures queue { result.1 ≡ known.queue }
{
    let Conn {
        queue,
        watched: _,
        marked: _,
        channels,
        pending,
    } = known;
    let cleared = Conn {
        queue: None,
        watched: Deque::new(alloc),
        marked: false,
        channels,
        pending,
    };
    (cleared, queue)
}

fn broken(queue: Option<Queue>) -> Option<Queue>
    ensures { result ≡ broken_queue queue }
{
    match queue {
        Some(queue) => Some(Queue {
            commands: queue.commands,
            broken: true,
        }),
        None => None,
    }
}

// The connection with its queue broken.
fn with_broken(known: Conn) -> Conn
    ensures { result ≡ with_broken known }
{
    Conn {
        queue: broken(known.queue),
        watched: known.watched,
        marked: known.marked,
        channels: known.channels,
        pending: known.pending,
    }
}

fn longer(queue: Option<Queue>, command: Command) -> Result<Option<Queue>, AllocError>
    ensures { IfOk result (λ q. q ≡ longer_queue command queue) }
{
    match queue {
        Some(queue) => longer_by_one(queue, command),
        None => {
            mem::drop(command);
            Ok(None)
        }
    }
}

fn longer_by_one(queue: Queue, command: Command) -> Result<Option<Queue>, AllocError>
    ensures { IfOk result (λ q. q ≡ longer_queue command (Some queue)) }
{
    let broken = queue.broken;
    let mut commands = queue.commands;
    commands.push(command)?;
    Ok(Some(Queue { commands, broken }))
}

// The connection with a command more in its queue.
fn with_command(known: Conn, command: Command) -> Result<Conn, AllocError>
    ensures { IfOk result (λ c. c ≡ with_command command known) }
{
    Ok(Conn {
        queue: longer(known.queue, command)?,
        watched: known.watched,
        marked: known.marked,
        channels: known.channels,
        pending: known.pending,
    })
}

// The connection with no messages pending, and the messages.
fn hushed(alloc: Global, known: Conn) -> (Conn, Values)
    ensures conn { result.0 ≡ record known { pending = [] } }
    ensures messages { result.1 ≡ known.pending }
{
    let Conn {
        queue,
        watched,
        marked,
        channels,
        pending,
    } = known;
    let hushed = Conn {
        queue,
        watched,
        marked,
        channels,
        pending: Items::new(alloc),
    };
    (hushed, pending)
}
