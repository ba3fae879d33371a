//! The texts of an answer.
ghost use Rattle.std.specs.Prelude.{◌≡◌, IfOk, MatchOption, Some, None};
ghost use Rattle.wire_values.specs.Layer.{layer};
ghost use Rattle.command_blocks.specs.Answers.{bulk_of};
ghost use Rattle.command_blocks.specs.Scripts.{each_told, null_bulk_in, texts_of};

use command_blocks::answer::items;
use std::alloc::{AllocError, Global};
use wire_values::{Bytes, Value, Words};

/// The texts of an answer that is an array of bulk strings, as SMEMBERS has; None where it is anything else.
///
/// # Errors
/// Want of memory.
pub fn texts(alloc: Global, answer: &Value) -> Result<Option<Words>, AllocError>
    ensures { IfOk result (λ texts. texts ≡ texts_of answer.now) }
{
    match items(answer) {
        Some(values) => each_text(alloc, values),
        None => Ok(None),
    }
}

/// The texts of values that are all bulk strings.
fn each_text(alloc: Global, values: &[Value]) -> Result<Option<Words>, AllocError>
    ensures { IfOk result (λ texts. texts ≡ each_told bulk_of values.now) }
{
    let mut texts = Words::new();
    for value in values {
        let Some(text) = bulk(value) else {
            return Ok(None);
        };
        texts.push(alloc, Bytes::from_slice(alloc, text)?)?;
    }
    Ok(Some(texts))
}

/// The bytes of an answer that is a bulk string.
#[tactic(auto, using(command_blocks::proofs::Layers::array_layer), unfolding(wire_values::specs::Layer::layer))]
pub fn bulk(answer: &Value) -> Option<&[u8]>
    ensures { MatchOption result (bulk_of answer.now ≡ None) (λ bytes. bulk_of answer.now ≡ Some bytes.now) }
{
    match answer {
        Value::Bulk(bytes) => Some(bytes.as_slice()),
        Value::Status(_)
        | Value::Error(_)
        | Value::Integer(_)
        | Value::Array(_)
        | Value::NullBulk
        | Value::NullArray => None,
    }
}

/// Whether an answer is the null bulk string.
#[tactic(auto, using(command_blocks::proofs::Layers::array_layer), unfolding(wire_values::specs::Layer::layer))]
pub fn is_null_bulk(answer: &Value) -> bool
    ensures { result ≡ null_bulk_in (layer answer.now) }
{
    match answer {
        Value::NullBulk => true,
        Value::Status(_)
        | Value::Error(_)
        | Value::Integer(_)
        | Value::Bulk(_)
        | Value::Array(_)
        | Value::NullArray => false,
    }
}
