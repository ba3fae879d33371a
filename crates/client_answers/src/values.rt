//! What values are.
ghost use Rattle.std.specs.Prelude.{◌≡◌, bytes_eq, IfOk, is_some, not};
ghost use Rattle.wire_values.specs.Layer.{layer};
ghost use Rattle.command_blocks.specs.Answers.{is_error, items_of, number_of};
ghost use Rattle.manner_laws.specs.Cursor.{all_integers, are_integers, are_two_integers, bulk_texts_of, is_null_array, is_null_bulk, is_status};

use block_words::texts;
use command_blocks::answer::{integer, items};
use std::alloc::{AllocError, Global};
use wire_values::{Value, Words};

/// Whether it is the simple string of this text.
#[tactic(auto, using(command_blocks::proofs::Layers::array_layer), unfolding(wire_values::specs::Layer::layer))]
pub(crate) fn is_status(text: &[u8], answer: &Value) -> bool
    ensures { result ≡ is_status text.now (layer answer.now) }
{
    match answer {
        Value::Status(told) => are_equal(text, told.as_slice()),
        Value::Error(_)
        | Value::Integer(_)
        | Value::Bulk(_)
        | Value::NullBulk
        | Value::Array(_)
        | Value::NullArray => false,
    }
}

/// Whether two texts are equal.
pub(crate) fn are_equal(one: &[u8], other: &[u8]) -> bool
    ensures { result ≡ bytes_eq one.now other.now }
{
    one == other
}

/// Whether it is the null bulk string.
#[tactic(auto, using(command_blocks::proofs::Layers::array_layer), unfolding(wire_values::specs::Layer::layer))]
pub(crate) fn is_null_bulk(answer: &Value) -> bool
    ensures { result ≡ is_null_bulk (layer answer.now) }
{
    match answer {
        Value::NullBulk => true,
        Value::Status(_)
        | Value::Error(_)
        | Value::Integer(_)
        | Value::Bulk(_)
        | Value::Array(_)
        | Value::NullArray => false,
    }
}

/// Whether it is the null array.
#[tactic(auto, using(command_blocks::proofs::Layers::array_layer), unfolding(wire_values::specs::Layer::layer))]
pub(crate) fn is_null_array(answer: &Value) -> bool
    ensures { result ≡ is_null_array (layer answer.now) }
{
    match answer {
        Value::NullArray => true,
        Value::Status(_)
        | Value::Error(_)
        | Value::Integer(_)
        | Value::Bulk(_)
        | Value::NullBulk
        | Value::Array(_) => false,
    }
}

/// Whether it isn't an error.
#[tactic(auto, using(command_blocks::proofs::Layers::array_layer), unfolding(wire_values::specs::Layer::layer))]
pub(crate) fn is_no_error(answer: &Value) -> bool
    ensures { result ≡ not (is_error answer.now) }
{
    match answer {
        Value::Error(_) => false,
        Value::Status(_)
        | Value::Integer(_)
        | Value::Bulk(_)
        | Value::NullBulk
        | Value::Array(_)
        | Value::NullArray => true,
    }
}

/// Whether it is an integer.
pub(crate) fn is_integer(answer: &Value) -> bool
    ensures { result ≡ is_some (number_of answer.now) }
{
    integer(answer).is_some()
}

/// Whether it is an array.
pub(crate) fn is_array(answer: &Value) -> bool
    ensures { result ≡ is_some (items_of answer.now) }
{
    match items(answer) {
        Some(_) => true,
        None => false,
    }
}

/// Whether it is an array of integers.
pub(crate) fn are_integers(answer: &Value) -> bool
    ensures { result ≡ are_integers (items_of answer.now) }
{
    match items(answer) {
        Some(values) => all_integers(values),
        None => false,
    }
}

/// Whether it is an array of two integers.
pub(crate) fn are_two_integers(answer: &Value) -> bool
    ensures { result ≡ are_two_integers (items_of answer.now) }
{
    match items(answer) {
        Some(values) => values.len() == 2 && all_integers(values),
        None => false,
    }
}

/// Whether all are integers.
fn all_integers(values: &[Value]) -> bool
    ensures { result ≡ all_integers values.now }
{
    let mut left = values;
    'values: loop {
        match left {
            [] => return true,
            [value, rest @ ..] => {
                if !is_integer(value) {
                    return false;
                }
                left = rest;
            }
        }
    }
}

/// The bytes of an array of bulk strings.
#[tactic(auto, using(crate::proofs::Texts::texts_same))]
pub(crate) fn bulk_texts(alloc: Global, answer: &Value) -> Result<Option<Words>, AllocError>
    ensures { IfOk result (λ found. found ≡ bulk_texts_of answer.now) }
{
    texts(alloc, answer)
}
