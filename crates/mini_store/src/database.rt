//! The keys and the connections, and what a command of a connection does to them.
ghost use Rattle.store_model.specs.Commands.{is_queued, run};
ghost use Rattle.store_model.specs.Connections.{Conns, around, cleared, conn, joined, posted, touched, with_queue, without};
ghost use Rattle.store_model.specs.Keys.{Keys};
ghost use Rattle.store_model.specs.Limits.{moment_limit, queue_limit};
ghost use Rattle.store_model.specs.Replies.{aborted, channel_answer, done, full, not_inside, number, queued};
ghost use Rattle.store_model.specs.Store.{State, answer_to, apply_of, discard, empty_state, executed, finds, gone_of, heard_plain, inside, is_heard, multi, outside_transaction, quiet, ready_of, refused, run_all, run_one, run_queue, serve, settled, set_conn, spoken, subscribe, to_queue, unsubscribe, unwatch, watch};
ghost use Rattle.store_model.specs.Words.{brpop_of, command_of, upper_byte};
ghost use Rattle.std.specs.FinMap.{insert, remove};
ghost use Rattle.std.specs.Prelude.{◌≡◌, ◌<◌, [], ◌∷◌, ◌++◌, ℕ, IfOk, IsTrue, None, OnOk, Some, bytes_eq, codes, false, is_some, length, map as mapped, nat_lt, true};

use crate::run::{fault_answer, is_queued, run};
use numerals::natural;
use sqlite_items::Items;
use std::alloc::{AllocError, Global};
use std::marker::Model;
use std::mem;
use store_conns::Connections;
use store_keys::Keyspace;
use store_keys::effect::{error, number, pair, push_bulk, status};
use store_model::{Command, Conn, QUEUE_LIMIT, Queue, Reply};
use store_tables::Deque;
use store_words::{command_of, upper_byte};
use wire_values::{Bytes, Value, Values, Words};

/// The keys and the connections.
#[derive(Debug, Drop)]
pub struct Database {
    keys: Keyspace,
    conns: Connections,
}

impl Model for Database {
    ghost use Rattle.store_model.specs.Store.{State, state_code};

    ghost Value = { State };

    ghost coded = { state_code };

    ghost view = { λ d. record { keys = d.keys; conns = d.conns } };
}

// Commands in a row, with the keys that they altered and their answers.
fn run_all(
    keys: &mut Keyspace,
    conns: &mut Connections,
    alloc: Global,
    at: u64,
    mut commands: Deque<Command>,
) -> Result<(Deque<Bytes>, Values), AllocError>
    requires { at < moment_limit }
    ensures { IfOk result (λ r. record { keys = keys.new; conns = conns.new; altered = r.0; answers = r.1 } ≡ run_all at keys.old conns.old commands) }
{
    let mut altered = Deque::new(alloc);
    let mut answers = Items::new(alloc);
    while let Some(command) = commands.pop_front() {
        run_next(keys, conns, alloc, at, command, &mut altered, &mut answers)?;
    }
    Ok((altered, answers))
}

// One command more, with the keys that it altered and its answer.
fn run_next(
    keys: &mut Keyspace,
    conns: &mut Connections,
    alloc: Global,
    at: u64,
    command: Command,
    altered: &mut Deque<Bytes>,
    answers: &mut Values,
) -> Result<(), AllocError>
    requires { at < moment_limit }
    ensures keys { OnOk result (keys.new ≡ (run (around at conns.old) keys.old command).keys) }
    ensures altered { OnOk result (altered.new ≡ altered.old ++ (run (around at conns.old) keys.old command).altered) }
    ensures answers { OnOk result (answers.new ≡ answers.old ++ (run (around at conns.old) keys.old command).answer ∷ []) }
    ensures posted { OnOk result (conns.new ≡ posted command conns.old) }
{
    let effect = run(keys, conns, alloc, at, command)?;
    altered.append(effect.altered)?;
    Ok(answers.push(effect.answer)?)
}

// The connection with this queue.
fn with_queue(known: Conn, commands: Deque<Command>, broken: bool) -> Conn
    ensures { result ≡ with_queue known commands broken }
{
    Conn {
        queue: Some(Queue { commands, broken }),
        watched: known.watched,
        marked: known.marked,
        channels: known.channels,
        pending: known.pending,
    }
}

impl Database {
    /// No key and no connection.
    pub fn new(alloc: Global) -> Self
        ensures { result ≡ empty_state }
    {
        Database {
            keys: Keyspace::new(alloc),
            conns: Connections::new(alloc),
        }
    }

    /// The keys with what they hold.
    pub fn keys(&self) -> &Keyspace
        ensures { result.now ≡ self.now.keys }
    {
        &self.keys
    }

    /// Drops what is due, and marks who watches it.
    pub fn settle(&mut self, at: u64)
        ensures { self.new ≡ settled self.old at }
    {
        if self.keys.is_calm(at) {
            return;
        }
        self.conns.mark_due(&self.keys, at);
        self.keys.drop_due(at);
    }

    /// Drops all that a connection has.
    pub fn forget(&mut self, number: u32)
        ensures { self.new ≡ gone_of self.old number }
    {
        self.conns.forget(number);
    }

    // A command that runs at once.
    fn run_one(&mut self, alloc: Global, at: u64, command: Command) -> Result<Value, AllocError>
        requires { at < moment_limit }
        ensures { IfOk result (λ v. (self.new, v) ≡ run_one at self.old command) }
    {
        let effect = run(&mut self.keys, &mut self.conns, alloc, at, command)?;
        self.conns.mark(&effect.altered);
        Ok(effect.answer)
    }

    // The commands of a queue, run for EXEC.
    fn run_queue(
        &mut self,
        alloc: Global,
        at: u64,
        commands: Deque<Command>,
    ) -> Result<Value, AllocError>
        requires { at < moment_limit }
        ensures { IfOk result (λ v. (self.new, v) ≡ run_queue at self.old commands) }
    {
        let (altered, answers) = run_all(&mut self.keys, &mut self.conns, alloc, at, commands)?;
        self.conns.mark(&altered);
        Ok(Value::Array(answers))
    }
}

// What a connection is subscribed or unsubscribed with: the word, the channel, and how many channels there are now.
fn channel_answer(
    alloc: Global,
    word: &[u8],
    channel: &Bytes,
    count: usize,
) -> Result<Value, AllocError>
    ensures { IfOk result (λ v. v ≡ channel_answer word.now channel.now count) }
{
    let mut parts = Items::new(alloc);
    push_bulk(alloc, &mut parts, word)?;
    push_bulk(alloc, &mut parts, channel.as_slice())?;
    push_number(&mut parts, count)?;
    Ok(Value::Array(parts))
}

fn push_number(parts: &mut Values, count: usize) -> Result<(), AllocError>
    ensures { OnOk result (parts.new ≡ parts.old ++ number count ∷ []) }
{
    let count = number(count)?;
    Ok(parts.push(count)?)
}

impl Database {
    // MULTI.
    fn multi(&mut self, alloc: Global, number: u32) -> Result<Value, AllocError>
        ensures { IfOk result (λ v. (self.new, v) ≡ multi self.old number (conn self.old.conns number)) }
    {
        let known = self.conns.take(alloc, number);
        let known = with_queue(known, Deque::new(alloc), false);
        self.conns.set(number, known)?;
        let answer = status(alloc, b"OK".as_slice())?;
        Ok(answer)
    }

    // WATCH.
    fn watch(&mut self, alloc: Global, number: u32, keys: Deque<Bytes>) -> Result<Value, AllocError>
        ensures { IfOk result (λ v. (self.new, v) ≡ watch self.old number (conn self.old.conns number) keys) }
    {
        let mut known = self.conns.take(alloc, number);
        known.watched.append(keys)?;
        self.conns.set(number, known)?;
        let answer = status(alloc, b"OK".as_slice())?;
        Ok(answer)
    }

    // UNWATCH.
    fn unwatch(&mut self, alloc: Global, number: u32) -> Result<Value, AllocError>
        ensures { IfOk result (λ v. (self.new, v) ≡ unwatch self.old number (conn self.old.conns number)) }
    {
        let mut known = self.conns.take(alloc, number);
        known.watched = Deque::new(alloc);
        known.marked = false;
        self.conns.set(number, known)?;
        let answer = status(alloc, b"OK".as_slice())?;
        Ok(answer)
    }

    // SUBSCRIBE.
    fn subscribe(
        &mut self,
        alloc: Global,
        number: u32,
        channel: &Bytes,
    ) -> Result<Value, AllocError>
        ensures { IfOk result (λ v. (self.new, v) ≡ subscribe self.old number (conn self.old.conns number) channel.now) }
    {
        let mut known = self.conns.take(alloc, number);
        join(alloc, &mut known.channels, channel)?;
        let count = known.channels.len();
        self.conns.set(number, known)?;
        let answer = channel_answer(alloc, b"subscribe".as_slice(), channel, count)?;
        Ok(answer)
    }

    // UNSUBSCRIBE.
    fn unsubscribe(
        &mut self,
        alloc: Global,
        number: u32,
        channel: &Bytes,
    ) -> Result<Value, AllocError>
        ensures { IfOk result (λ v. (self.new, v) ≡ unsubscribe self.old number (conn self.old.conns number) channel.now) }
    {
        let mut known = self.conns.take(alloc, number);
        known.channels.take_out(channel);
        let count = known.channels.len();
        self.conns.set(number, known)?;
        let answer = channel_answer(alloc, b"unsubscribe".as_slice(), channel, count)?;
        Ok(answer)
    }

    // A command outside MULTI.
    fn plain(
        &mut self,
        alloc: Global,
        at: u64,
        number: u32,
        command: Command,
    ) -> Result<Value, AllocError>
        requires { at < moment_limit }
        ensures { IfOk result (λ v. (self.new, v) ≡ outside_transaction at self.old number (conn self.old.conns number) command) }
    {
        match command {
            Command::Multi => self.multi(alloc, number),
            Command::Watch(keys) => self.watch(alloc, number, keys),
            Command::Unwatch => self.unwatch(alloc, number),
            Command::Subscribe(channel) => self.subscribe(alloc, number, &channel),
            Command::Unsubscribe(channel) => self.unsubscribe(alloc, number, &channel),
            other => self.run_one(alloc, at, other),
        }
    }
}

// Adds a channel to those that there are.
fn join(alloc: Global, channels: &mut Deque<Bytes>, channel: &Bytes) -> Result<(), AllocError>
    ensures { OnOk result (channels.new ≡ joined channel.now channels.old) }
{
    if channels.has(channel) {
        return Ok(());
    }
    let channel = channel.copy(alloc)?;
    channels.push(channel)
}

impl Database {
    // An error of a connection, which breaks its queue, if it has one.
    fn refuse(&mut self, alloc: Global, number: u32, answer: Value) -> Result<Value, AllocError>
        ensures { IfOk result (λ v. (self.new, v) ≡ refused self.old number (conn self.old.conns number) (conn self.old.conns number).queue answer) }
    {
        if !self.conns.is_queueing(number) {
            return Ok(answer);
        }
        self.conns.break_queue(alloc, number)?;
        Ok(answer)
    }

    // A command to be queued.
    fn enqueue(&mut self, alloc: Global, number: u32, command: Command) -> Result<Value, AllocError>
        ensures { IfOk result (λ v. (q : Queue) → (conn self.old.conns number).queue ≡ Some q
            → (self.new, v) ≡ to_queue self.old number (conn self.old.conns number) q command (is_queued command) (nat_lt (length q.commands) queue_limit)) }
    {
        if !is_queued(&command) {
            mem::drop(command);
            let answer = error(alloc, b"ERR inside".as_slice())?;
            return self.refuse(alloc, number, answer);
        }
        if self.conns.queue_len(number) >= QUEUE_LIMIT {
            mem::drop(command);
            let answer = error(alloc, b"ERR full".as_slice())?;
            return self.refuse(alloc, number, answer);
        }
        self.conns.enqueue(alloc, number, command)?;
        let answer = status(alloc, b"QUEUED".as_slice())?;
        Ok(answer)
    }

    // EXEC.
    fn execute(&mut self, alloc: Global, at: u64, number: u32) -> Result<Value, AllocError>
        requires { at < moment_limit }
        ensures { IfOk result (λ v. (q : Queue) → (conn self.old.conns number).queue ≡ Some q → (self.new, v) ≡ executed at self.old number (conn self.old.conns number) q.commands q.broken) }
    {
        let marked = self.conns.is_marked(number);
        let Some(queue) = self.conns.clear(alloc, number)? else {
            return Ok(Value::NullArray);
        };
        if queue.broken {
            let answer = error(alloc, b"EXECABORT".as_slice())?;
            return Ok(answer);
        }
        if marked {
            return Ok(Value::NullArray);
        }
        self.run_queue(alloc, at, queue.commands)
    }

    // DISCARD.
    fn discard(&mut self, alloc: Global, number: u32) -> Result<Value, AllocError>
        ensures { IfOk result (λ v. (self.new, v) ≡ discard self.old number (conn self.old.conns number)) }
    {
        self.conns.clear(alloc, number)?;
        let answer = status(alloc, b"OK".as_slice())?;
        Ok(answer)
    }
}

// Whether a subscribed connection may use the command.
fn is_heard(command: &Command) -> bool
    ensures { result ≡ is_heard command.now }
{
    match command {
        Command::Ping | Command::Subscribe(_) | Command::Unsubscribe(_) => true,
        Command::Faulty(_, heard) => *heard,
        Command::Select(_)
        | Command::Get(_)
        | Command::Set(_, _, _, _)
        | Command::Del(_)
        | Command::Expire(_, _)
        | Command::Lpush(_, _)
        | Command::Rpush(_, _)
        | Command::Rpop(_)
        | Command::Brpop(_)
        | Command::Llen(_)
        | Command::Hlen(_)
        | Command::Zcard(_)
        | Command::Sadd(_, _)
        | Command::Srem(_, _)
        | Command::Smembers(_)
        | Command::Hset(_, _, _)
        | Command::Hget(_, _)
        | Command::Hdel(_, _)
        | Command::Zadd(_, _, _)
        | Command::Zrem(_, _)
        | Command::Zrevrangebyscore(_, _, _, _, _)
        | Command::Watch(_)
        | Command::Unwatch
        | Command::Multi
        | Command::Exec
        | Command::Discard
        | Command::Publish(_, _) => false,
    }
}

impl Database {
    // A command after MULTI.
    fn inside(
        &mut self,
        alloc: Global,
        at: u64,
        number: u32,
        command: Command,
    ) -> Result<Value, AllocError>
        requires { at < moment_limit }
        ensures { IfOk result (λ v. (q : Queue) → (conn self.old.conns number).queue ≡ Some q → (self.new, v) ≡ inside at self.old number (conn self.old.conns number) q command) }
    {
        match command {
            Command::Exec => self.execute(alloc, at, number),
            Command::Discard => self.discard(alloc, number),
            Command::Faulty(fault, _) => {
                let answer = fault_answer(alloc, &fault)?;
                self.refuse(alloc, number, answer)
            }
            other => self.enqueue(alloc, number, other),
        }
    }
}

impl Database {
    // A command of a subscribed connection outside MULTI.
    fn heard_plain(
        &mut self,
        alloc: Global,
        at: u64,
        number: u32,
        command: Command,
    ) -> Result<Value, AllocError>
        requires { at < moment_limit }
        ensures { IfOk result (λ v. (self.new, v) ≡ heard_plain at self.old number (conn self.old.conns number) command) }
    {
        match command {
            Command::Ping => {
                let word = Bytes::from_slice(alloc, b"pong".as_slice())?;
                let answer = pair(alloc, word, Bytes::new())?;
                Ok(answer)
            }
            other => self.plain(alloc, at, number, other),
        }
    }

    // A command of a subscribed connection.
    fn spoken(
        &mut self,
        alloc: Global,
        at: u64,
        number: u32,
        command: Command,
    ) -> Result<Value, AllocError>
        requires { at < moment_limit }
        ensures { IfOk result (λ v. (self.new, v) ≡ spoken at self.old number (conn self.old.conns number) command (conn self.old.conns number).queue (is_heard command)) }
    {
        if !is_heard(&command) {
            mem::drop(command);
            let answer = error(alloc, b"ERR subscribed".as_slice())?;
            return self.refuse(alloc, number, answer);
        }
        if self.conns.is_queueing(number) {
            return self.inside(alloc, at, number, command);
        }
        self.heard_plain(alloc, at, number, command)
    }

    // A command of a connection.
    fn serve(
        &mut self,
        alloc: Global,
        at: u64,
        number: u32,
        command: Command,
    ) -> Result<Value, AllocError>
        requires { at < moment_limit }
        ensures { IfOk result (λ v. (self.new, v) ≡ serve at self.old number command (conn self.old.conns number)) }
    {
        if self.conns.channel_count(number) > 0 {
            return self.spoken(alloc, at, number, command);
        }
        if self.conns.is_queueing(number) {
            return self.inside(alloc, at, number, command);
        }
        self.plain(alloc, at, number, command)
    }

    // Takes the messages that a connection has pending.
    fn collect(&mut self, alloc: Global, number: u32) -> Result<Values, AllocError>
        ensures messages { IfOk result (λ ms. ms ≡ (conn self.old.conns number).pending) }
        ensures quiet { OnOk result (self.new ≡ quiet self.old number (conn self.old.conns number) (conn self.old.conns number).pending) }
    {
        if self.conns.pending_count(number) == 0 {
            return Ok(Items::new(alloc));
        }
        let messages = self.conns.collect(alloc, number)?;
        Ok(messages)
    }

    /// A command of a connection, at a moment at which nothing is due.
    #[tactic(auto, unfolding(store_model::specs::Store::answer_to))]
    fn answer(
        &mut self,
        alloc: Global,
        at: u64,
        number: u32,
        words: &Words,
    ) -> Result<Reply, AllocError>
        requires { at < moment_limit }
        ensures { IfOk result (λ r. (self.new, r) ≡ answer_to at self.old number words.now) }
    {
        let pushed = self.collect(alloc, number)?;
        let command = command_of(alloc, words)?;
        let answer = self.serve(alloc, at, number, command)?;
        Ok(Reply { pushed, answer })
    }

    /// A command of a connection.
    pub fn apply(
        &mut self,
        alloc: Global,
        at: u64,
        number: u32,
        words: &Words,
    ) -> Result<Reply, AllocError>
        requires { at < moment_limit }
        ensures { IfOk result (λ r. (self.new, r) ≡ apply_of self.old at number words.now) }
    {
        self.settle(at);
        self.answer(alloc, at, number, words)
    }
}

// Whether the name is that of BRPOP, in letters of either case.
fn is_brpop(name: &[u8]) -> bool
    ensures { result ≡ bytes_eq (mapped upper_byte name.now) (codes "BRPOP") }
{
    match name {
        [a, b, c, d, e] => {
            upper_byte(*a) == 66
                && upper_byte(*b) == 82
                && upper_byte(*c) == 80
                && upper_byte(*d) == 79
                && upper_byte(*e) == 80
        }
        [] | [_] | [_, _] | [_, _, _] | [_, _, _, _] | [_, _, _, _, _, _, ..] => false,
    }
}

impl Database {
    // Whether one of BRPOP's keys is there, or its words are faulty.
    fn finds(&self, at: u64, args: &[Bytes]) -> bool
        ensures { result ≡ finds at self.now.keys (brpop_of args.now) }
    {
        let Some((time, names)) = args.split_last() else {
            return true;
        };
        if names.is_empty() {
            return true;
        }
        let Some(_) = natural(time.as_slice()) else {
            return true;
        };
        self.keys.has_live(names, at)
    }

    /// Whether a command finds what it would wait for.
    pub fn ready(&self, at: u64, words: &Words) -> bool
        ensures { result ≡ ready_of self.now at words.now }
    {
        match words.as_slice() {
            [] => true,
            [name, args @ ..] => {
                if !is_brpop(name.as_slice()) {
                    return true;
                }
                self.finds(at, args)
            }
        }
    }
}
