//! Which values fit on the wire.
ghost use Rattle.std.specs.Prelude.{◌≡◌, ◌≤◌, ◌↔◌, IsTrue, IfSome, Some, decimal, length, map};
ghost use Rattle.std.specs.List.{list_any};
ghost use Rattle.wire_grammar.specs.Limits.{depth_limit, is_end, value_limit};
ghost use Rattle.wire_grammar.specs.Fits.{HasSpelling, IsWithinLimits};
ghost use Rattle.wire_spelling.specs.Lengths.{bulk_length, integer_length, joined, spelled_length, text_length};

use wire_grammar::{COUNT_LIMIT, DEPTH_LIMIT, LENGTH_LIMIT, TEXT_LIMIT, VALUE_LIMIT};
use wire_values::{Value, Words};

/// Whether a value can be written: its texts have no end of a line in them and at most `TEXT_LIMIT` bytes, its bulk
/// strings at most `LENGTH_LIMIT`, its arrays at most `COUNT_LIMIT` items; at most `DEPTH_LIMIT` arrays are open inside each other;
/// and all of it takes at most `VALUE_LIMIT` bytes. It takes no memory.
pub fn fits(value: &Value) -> bool
    ensures { IsTrue result ↔ HasSpelling value.now }
{
    spelled_length(value, DEPTH_LIMIT as u64).is_some()
}

/// Whether a command of these words can be written, as the array of its words as bulk strings: at most `COUNT_LIMIT`
/// words, each of at most `LENGTH_LIMIT` bytes, and all of it within `VALUE_LIMIT` bytes. It takes no memory.
pub fn command_fits(words: &Words) -> bool
    ensures { IsTrue result ↔ IsWithinLimits words.now }
{
    command_length(words).is_some()
}

/// The length of a command's spelling, where it has one.
fn command_length(words: &Words) -> Option<u64>
    ensures is { result ≡ spelled_length (Value.Array (map Value.Bulk words.now)) depth_limit }
    ensures within { IfSome result (λ n. n ≤ value_limit) }
{
    let count = words.as_slice().len() as u64;
    if count > COUNT_LIMIT {
        return None;
    }
    let mut length = decimal_length(count) + 3;
    'words: for word in words.as_slice() {
        length = joined(length, bulk_length(word.len() as u64))?;
    }
    Some(length)
}

/// The length of a value's spelling, where it has one with so many arrays inside each other at most.
fn spelled_length(value: &Value, depth: u64) -> Option<u64>
    ensures is { result ≡ spelled_length value.now depth }
    ensures within { IfSome result (λ n. n ≤ value_limit) }
{
    match value {
        Value::Status(text) => text_length(text.as_slice()),
        Value::Error(text) => text_length(text.as_slice()),
        Value::Integer(number) => integer_length(*number),
        Value::Bulk(content) => bulk_length(content.len() as u64),
        Value::NullBulk => Some(5),
        Value::Array(items) => {
            let count = items.as_slice().len() as u64;
            if depth == 0 || count > COUNT_LIMIT {
                return None;
            }
            let mut length = decimal_length(count) + 3;
            for item in items.as_slice() {
                length = joined(length, spelled_length(item, depth - 1))?;
            }
            Some(length)
        }
        Value::NullArray => { if depth == 0 { None } else { Some(5) } }
    }
}

/// The sum of two lengths, where it is within the limit of a value.
fn joined(length: u64, more: Option<u64>) -> Option<u64>
    requires { length ≤ value_limit }
    ensures is { result ≡ joined (Some length) more }
    ensures within { IfSome result (λ n. n ≤ value_limit) }
{
    let sum = length.checked_add(more?)?;
    if sum <= VALUE_LIMIT { Some(sum) } else { None }
}

/// Whether a text has a byte in it that ends a line.
fn has_end(text: &[u8]) -> bool
    ensures { result ≡ list_any is_end text.now }
{
    text.iter().any(|b| *b == b'\r' || *b == b'\n')
}

fn text_length(text: &[u8]) -> Option<u64>
    ensures is { result ≡ text_length text.now }
    ensures within { IfSome result (λ n. n ≤ value_limit) }
{
    if has_end(text) || text.len() > TEXT_LIMIT {
        return None;
    }
    Some(text.len() as u64 + 3)
}

fn bulk_length(length: u64) -> Option<u64>
    ensures is { result ≡ bulk_length length }
    ensures within { IfSome result (λ n. n ≤ value_limit) }
{
    if length <= LENGTH_LIMIT {
        Some(decimal_length(length) + length + 5)
    } else {
        None
    }
}

fn integer_length(number: i64) -> Option<u64>
    ensures is { result ≡ integer_length number }
    ensures within { IfSome result (λ n. n ≤ value_limit) }
{
    let digits = decimal_length(number.unsigned_abs());
    Some(if number < 0 { digits + 4 } else { digits + 3 })
}

/// How many digits a number has.
fn decimal_length(number: u64) -> u64
    ensures is { result ≡ length (decimal number) }
    ensures within { result ≤ 20 }
{
    let mut rest = number;
    let mut digits = 1;
    'tens: while rest >= 10 {
        rest /= 10;
        digits += 1;
    }
    digits
}
