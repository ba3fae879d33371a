//! The words of a command, read off a value that was received.
ghost use Rattle.std.specs.Prelude.{IfOk, MatchOption, None, OnErr, Some, is_some, ◌≡◌};
ghost use Rattle.store_model.specs.Words.{Words as TheWords};
ghost use Rattle.command_blocks.specs.Answers.{bulk_of};
ghost use Rattle.sessions.specs.CommandValues.{command_in, command_items, contents};

use command_blocks::answer::items;
use std::alloc::{AllocError, Global};
use wire_values::{Bytes, List, Value, Words};

/// The words of a command that a value spells, as an array of one or more bulk strings; None of any other value. It
/// fails only of a command, where there is no memory for its words.
pub fn command_in(alloc: Global, value: &Value) -> Result<Option<Words>, AllocError>
    ensures words { IfOk result (λ words. words ≡ command_in value.now) }
    ensures err { OnErr result ((words : TheWords) × (command_in value.now ≡ Some words)) }
{
    match items(value) {
        Some(values) => words_in(alloc, values),
        None => Ok(None),
    }
}

/// The contents of one or more bulk strings.
fn words_in(alloc: Global, values: &[Value]) -> Result<Option<Words>, AllocError>
    ensures words { IfOk result (λ words. words ≡ command_items values.now) }
    ensures err { OnErr result ((words : TheWords) × (command_items values.now ≡ Some words)) }
{
    if values.is_empty() || !are_bulks(values) {
        return Ok(None);
    }
    let mut words = List::new();
    for value in values {
        let Some(word) = content(value) else {
            return Ok(None);
        };
        words.push(alloc, word.copy(alloc)?)?;
    }
    Ok(Some(words))
}

/// Whether all values are bulk strings.
fn are_bulks(values: &[Value]) -> bool
    ensures { result ≡ is_some (contents values.now) }
{
    for value in values {
        if content(value).is_none() {
            return false;
        }
    }
    true
}

/// The content of a bulk string.
#[tactic(auto, using(crate::proofs::Contents::array_layer), unfolding(wire_values::specs::Layer::layer))]
fn content(value: &Value) -> Option<&Bytes>
    ensures { MatchOption result (bulk_of value.now ≡ None) (λ bytes. bulk_of value.now ≡ Some bytes.now) }
{
    match value {
        Value::Bulk(bytes) => Some(bytes),
        Value::Status(_)
        | Value::Error(_)
        | Value::Integer(_)
        | Value::Array(_)
        | Value::NullBulk
        | Value::NullArray => None,
    }
}
