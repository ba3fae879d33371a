//! What the words of a command tell of messages.
ghost use Rattle.std.specs.Prelude.{◌≡◌, IfOk};
ghost use Rattle.std.specs.Option.{option_copied};
ghost use Rattle.store_model.specs.Words.{command_of};
ghost use Rattle.command_blocks.specs.EnvelopeTexts.{plain_setting};
ghost use Rattle.message_acts.specs.Acts.{act_of, kind_of, only, push_one, take_one};

use crate::act::{Act, CallKind, Telling};
use crate::message::{is_queue_key, message_of};
use envelope::Tag;
use letters::Letters;
use queue_keys::are_same;
use std::alloc::{AllocError, Global};
use std::mem;
use store_model::Command;
use store_tables::Deque;
use store_words::command_of;
use wire_values::{Bytes, Words};

/// What the words of a command tell. What its elements spell is noted.
///
/// `AllocError` is want of memory.
pub fn telling_of(
    alloc: Global,
    letters: &mut Letters,
    words: &Words,
) -> Result<Telling, AllocError>
    ensures { IfOk result (λ told. told ≡ record { kind = kind_of (command_of words.now); act = act_of plain_setting (command_of words.now) }) }
{
    let command = command_of(alloc, words)?;
    let told = of_command(alloc, letters, &command);
    mem::drop(command);
    told
}

/// What a command tells.
fn of_command(
    alloc: Global,
    letters: &mut Letters,
    command: &Command,
) -> Result<Telling, AllocError>
    ensures { IfOk result (λ told. told ≡ record { kind = kind_of command.now; act = act_of plain_setting command.now }) }
{
    Ok(Telling {
        kind: kind_of(command),
        act: act_of(alloc, letters, command)?,
    })
}

/// What a command does to a message.
fn act_of(alloc: Global, letters: &mut Letters, command: &Command) -> Result<Act, AllocError>
    ensures { IfOk result (λ act. act ≡ act_of plain_setting command.now) }
{
    match command {
        Command::Lpush(key, elements) | Command::Rpush(key, elements) => {
            push_one(alloc, letters, key, elements)
        }
        Command::Hdel(key, fields) => Ok(take_one(key, fields)),
        _ => Ok(Act::Nothing),
    }
}

/// What else of a command matters.
fn kind_of(command: &Command) -> CallKind
    ensures { result ≡ kind_of command.now }
{
    match command {
        Command::Lpush(_, _) => CallKind::Pushes,
        Command::Brpop(_) => CallKind::Pops,
        Command::Multi => CallKind::Begins,
        Command::Exec => CallKind::Runs,
        _ => CallKind::Others,
    }
}

/// A push to a key, where there is just one element.
fn push_one(
    alloc: Global,
    letters: &mut Letters,
    key: &Bytes,
    elements: &Deque<Bytes>,
) -> Result<Act, AllocError>
    ensures { IfOk result (λ act. act ≡ push_one plain_setting key.now (only elements.now)) }
{
    let Some(element) = only(elements) else {
        return Ok(Act::Nothing);
    };
    if !is_queue_key(key.as_slice()) {
        return Ok(Act::Nothing);
    }
    match message_of(alloc, letters, element.as_slice())? {
        Some(number) => Ok(Act::Push(number)),
        None => Ok(Act::Nothing),
    }
}

/// The taking of a field out of a hash, where there is just one field.
fn take_one(key: &Bytes, fields: &Deque<Bytes>) -> Act
    ensures { result ≡ take_one plain_setting key.now (only fields.now) }
{
    let Some(field) = only(fields) else {
        return Act::Nothing;
    };
    if !are_same(key.as_slice(), b"unacked") {
        return Act::Nothing;
    }
    match Tag::read(field.as_slice()) {
        Some(tag) => Act::Take(tag.0),
        None => Act::Nothing,
    }
}

/// The text of a list that has just one.
fn only(texts: &Deque<Bytes>) -> Option<&Bytes>
    ensures { option_copied result ≡ only texts.now }
{
    let mut left = texts.iter();
    let first = left.next()?;
    match left.next() {
        Some(_) => None,
        None => Some(first),
    }
}
