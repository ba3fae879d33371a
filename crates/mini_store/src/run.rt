//! What each command does to the keys.
ghost use Rattle.store_model.specs.Commands.{Around, is_queued, run, select_answer};
ghost use Rattle.store_model.specs.Connections.{around, delivered, hearing, posted};
ghost use Rattle.store_model.specs.Keys.{out};
ghost use Rattle.store_model.specs.Limits.{moment_limit};
ghost use Rattle.store_model.specs.Replies.{fault_text, number};
ghost use Rattle.store_model.specs.Texts.{until};
ghost use Rattle.mini_store.specs.RunParts.{is_on_tables, only_looks};
ghost use Rattle.std.specs.FinMap.{entries};
ghost use Rattle.std.specs.Prelude.{◌≡◌, ◌<◌, [], IfOk, OnOk, true};

use std::alloc::{AllocError, Global};
use std::mem;
use store_conns::Connections;
use store_keys::Keyspace;
use store_keys::effect::{Effect, error, number, status};
use store_lists::{lists, texts};
use store_model::{Command, Fault};
use store_sets::{hashes, sets, sorted_sets};
use wire_values::{Bytes, Value};

/// The answer to a faulty spelling.
pub fn fault_answer(alloc: Global, fault: &Fault) -> Result<Value, AllocError>
    ensures { IfOk result (λ v. v ≡ Value.Error (fault_text fault.now)) }
{
    match fault {
        Fault::Name => error(alloc, b"ERR command".as_slice()),
        Fault::Arity => error(alloc, b"ERR arity".as_slice()),
        Fault::Syntax => error(alloc, b"ERR syntax".as_slice()),
        Fault::Integer => error(alloc, b"ERR integer".as_slice()),
    }
}

fn select_answer(alloc: Global, number: i64) -> Result<Value, AllocError>
    ensures { IfOk result (λ v. v ≡ select_answer number) }
{
    if number <= 0 && 0 <= number {
        return status(alloc, b"OK".as_slice());
    }
    error(alloc, b"ERR database".as_slice())
}

// The moment so many seconds later.
fn until(at: u64, life: Option<u32>) -> Option<u64>
    requires { at < moment_limit }
    ensures { result ≡ until at life }
{
    let Some(seconds) = life else {
        return None;
    };
    Some(at + u64::from(seconds))
}

/// Whether the command may stand between MULTI and EXEC.
pub fn is_queued(command: &Command) -> bool
    ensures { result ≡ is_queued command.now }
{
    match command {
        Command::Ping
        | Command::Set(_, _, _, _)
        | Command::Del(_)
        | Command::Expire(_, _)
        | Command::Lpush(_, _)
        | Command::Rpush(_, _)
        | Command::Llen(_)
        | Command::Hlen(_)
        | Command::Zcard(_)
        | Command::Sadd(_, _)
        | Command::Srem(_, _)
        | Command::Hset(_, _, _)
        | Command::Hdel(_, _)
        | Command::Zadd(_, _, _)
        | Command::Zrem(_, _)
        | Command::Publish(_, _) => true,
        Command::Select(_)
        | Command::Get(_)
        | Command::Rpop(_)
        | Command::Brpop(_)
        | Command::Smembers(_)
        | Command::Hget(_, _)
        | Command::Zrevrangebyscore(_, _, _, _, _)
        | Command::Watch(_)
        | Command::Unwatch
        | Command::Multi
        | Command::Exec
        | Command::Discard
        | Command::Subscribe(_)
        | Command::Unsubscribe(_)
        | Command::Faulty(_, _) => false,
    }
}

/// Runs a command: what it does to the keys, and to the messages that connections have pending.
pub fn run(
    keys: &mut Keyspace,
    conns: &mut Connections,
    alloc: Global,
    at: u64,
    command: Command,
) -> Result<Effect, AllocError>
    requires { at < moment_limit }
    ensures run { IfOk result (λ e. out keys.new e.altered e.answer ≡ run (around at conns.old) keys.old command) }
    ensures posted { OnOk result (conns.new ≡ posted command conns.old) }
{
    match command {
        Command::Set(key, text, absent, life) => {
            texts::set(keys, alloc, key, text, until(at, life), absent)
        }
        Command::Del(names) => texts::del(keys, alloc, names),
        Command::Expire(key, life) => texts::expire(keys, alloc, key, at + u64::from(life)),
        Command::Lpush(key, values) => lists::lpush(keys, alloc, key, values),
        Command::Rpush(key, values) => lists::rpush(keys, alloc, key, values),
        Command::Rpop(key) => lists::rpop(keys, alloc, key),
        Command::Brpop(names) => lists::brpop(keys, alloc, names),
        Command::Publish(channel, text) => publish(conns, alloc, &channel, &text),
        other => run_on_tables(keys, alloc, other),
    }
}

// Runs a command on a set, a hash or a sorted set, or one that only looks.
fn run_on_tables(keys: &mut Keyspace, alloc: Global, command: Command) -> Result<Effect, AllocError>
    ensures { is_on_tables command ≡ true → (a : Around) → IfOk result (λ e. out keys.new e.altered e.answer ≡ run a keys.old command) }
{
    match command {
        Command::Sadd(key, names) => sets::sadd(keys, alloc, key, names),
        Command::Srem(key, names) => sets::srem(keys, alloc, key, names),
        Command::Hset(key, field, text) => hashes::hset(keys, alloc, key, field, text),
        Command::Hdel(key, names) => hashes::hdel(keys, alloc, key, names),
        Command::Zadd(key, score, name) => sorted_sets::zadd(keys, alloc, key, score, name),
        Command::Zrem(key, names) => sorted_sets::zrem(keys, alloc, key, names),
        other => {
            let effect = run_to_look(keys, alloc, &other);
            mem::drop(other);
            effect
        }
    }
}

// Runs a command that only looks.
fn run_to_look(keys: &Keyspace, alloc: Global, command: &Command) -> Result<Effect, AllocError>
    ensures { only_looks command.now ≡ true → (a : Around) → IfOk result (λ e. out keys.now e.altered e.answer ≡ run a keys.now command.now) }
{
    let answer = look(keys, alloc, command)?;
    Ok(Effect::none(alloc, answer))
}

// The answer to a command that only looks.
fn look(keys: &Keyspace, alloc: Global, command: &Command) -> Result<Value, AllocError>
    ensures { only_looks command.now ≡ true → (a : Around) → IfOk result (λ v. out keys.now [] v ≡ run a keys.now command.now) }
{
    match command {
        Command::Ping => status(alloc, b"PONG".as_slice()),
        Command::Select(number) => select_answer(alloc, *number),
        Command::Get(key) => texts::get(keys, alloc, key),
        Command::Llen(key) => lists::len(keys, alloc, key),
        Command::Hlen(key) => hashes::len(keys, alloc, key),
        Command::Zcard(key) => sorted_sets::len(keys, alloc, key),
        Command::Smembers(key) => sets::members(keys, alloc, key),
        Command::Hget(key, field) => hashes::hget(keys, alloc, key, field),
        Command::Zrevrangebyscore(key, high, low, skip, most) => {
            sorted_sets::range(keys, alloc, key, *high, *low, *skip, *most)
        }
        Command::Faulty(fault, _) => fault_answer(alloc, fault),
        Command::Watch(_)
        | Command::Unwatch
        | Command::Multi
        | Command::Exec
        | Command::Discard
        | Command::Subscribe(_)
        | Command::Unsubscribe(_) => error(alloc, b"ERR outside".as_slice()),
        Command::Set(_, _, _, _)
        | Command::Del(_)
        | Command::Expire(_, _)
        | Command::Lpush(_, _)
        | Command::Rpush(_, _)
        | Command::Rpop(_)
        | Command::Brpop(_)
        | Command::Sadd(_, _)
        | Command::Srem(_, _)
        | Command::Hset(_, _, _)
        | Command::Hdel(_, _)
        | Command::Zadd(_, _, _)
        | Command::Zrem(_, _)
        | Command::Publish(_, _) => error(alloc, b"ERR outside".as_slice()),
    }
}

// PUBLISH.
fn publish(
    conns: &mut Connections,
    alloc: Global,
    channel: &Bytes,
    text: &Bytes,
) -> Result<Effect, AllocError>
    ensures told { IfOk result (λ e. (e.altered ≡ []) × (e.answer ≡ number (hearing channel.now (entries conns.old)))) }
    ensures posted { OnOk result (conns.new ≡ delivered channel.now text.now conns.old) }
{
    let reached = conns.hearing(channel);
    conns.deliver(alloc, channel, text)?;
    Ok(Effect::none(alloc, number(reached)?))
}
