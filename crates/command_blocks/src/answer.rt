//! What an answer of the store is, read off its outermost layer.
ghost use Rattle.std.specs.Prelude.{◌≡◌, bytes_eq, MatchOption, Some, None};
ghost use Rattle.wire_values.specs.Layer.{layer};
ghost use Rattle.command_blocks.specs.Answers.{is_one, bulk_of, both_texts, items_of, number_of, both_numbers, numbers_among, numbers_of, pair_among, pair_of};
ghost use Rattle.command_blocks.specs.Scripts.{null_array_in, status_in};

use wire_values::Value;

/// The integer of an answer that is one.
#[tactic(auto, using(crate::proofs::Layers::array_layer), unfolding(wire_values::specs::Layer::layer))]
pub fn integer(answer: &Value) -> Option<i64>
    ensures { result ≡ number_of answer.now }
{
    match answer {
        Value::Integer(number) => Some(*number),
        Value::Status(_)
        | Value::Error(_)
        | Value::Bulk(_)
        | Value::NullBulk
        | Value::Array(_)
        | Value::NullArray => None,
    }
}

/// Whether an answer is the integer 1.
pub fn is_one(answer: &Value) -> bool
    ensures { result ≡ is_one (number_of answer.now) }
{
    match integer(answer) {
        Some(number) => is_unit(number),
        None => false,
    }
}

/// Whether a number is 1.
pub fn is_unit(number: i64) -> bool
    ensures { result ≡ is_one (Some number) }
{
    if number == 1 {
        return true;
    }
    false
}

/// The values of an answer that is an array.
#[tactic(auto, using(crate::proofs::Layers::array_layer), unfolding(wire_values::specs::Layer::layer))]
pub fn items(answer: &Value) -> Option<&[Value]>
    ensures { MatchOption result (items_of answer.now ≡ None) (λ values. items_of answer.now ≡ Some values.now) }
{
    match answer {
        Value::Array(values) => Some(values.as_slice()),
        Value::Status(_)
        | Value::Error(_)
        | Value::Integer(_)
        | Value::Bulk(_)
        | Value::NullBulk
        | Value::NullArray => None,
    }
}

/// The bytes of an answer that is a bulk string.
#[tactic(auto, using(crate::proofs::Layers::array_layer), unfolding(wire_values::specs::Layer::layer))]
fn bulk(answer: &Value) -> Option<&[u8]>
    ensures { MatchOption result (bulk_of answer.now ≡ None) (λ bytes. bulk_of answer.now ≡ Some bytes.now) }
{
    match answer {
        Value::Bulk(bytes) => Some(bytes.as_slice()),
        Value::Status(_)
        | Value::Error(_)
        | Value::Integer(_)
        | Value::Array(_)
        | Value::NullBulk
        | Value::NullArray => None,
    }
}

/// The key and the element of an answer to BRPOP.
pub fn pair(answer: &Value) -> Option<(&[u8], &[u8])>
    ensures { MatchOption result (pair_of answer.now ≡ None) (λ p. pair_of answer.now ≡ Some (p.0.now, p.1.now)) }
{
    match items(answer) {
        Some(values) => pair_among(values),
        None => None,
    }
}

/// The two bulk strings of an array of two.
fn pair_among(values: &[Value]) -> Option<(&[u8], &[u8])>
    ensures { MatchOption result (pair_among values.now ≡ None) (λ p. pair_among values.now ≡ Some (p.0.now, p.1.now)) }
{
    match values {
        [key, element] => both(key, element),
        [] | [_] | [_, _, _, ..] => None,
    }
}

/// The bytes of two bulk strings.
fn both<'a>(key: &'a Value, element: &'a Value) -> Option<(&'a [u8], &'a [u8])>
    ensures { MatchOption result (both_texts (bulk_of key.now) (bulk_of element.now) ≡ None) (λ p. both_texts (bulk_of key.now) (bulk_of element.now) ≡ Some (p.0.now, p.1.now)) }
{
    let key = bulk(key)?;
    let element = bulk(element)?;
    Some((key, element))
}

/// Whether an answer is the simple string of this text.
#[tactic(auto, using(crate::proofs::Layers::array_layer), unfolding(wire_values::specs::Layer::layer))]
pub fn is_status(answer: &Value, text: &[u8]) -> bool
    ensures { result ≡ status_in text.now (layer answer.now) }
{
    match answer {
        Value::Status(told) => are_equal(told.as_slice(), text),
        Value::Error(_)
        | Value::Integer(_)
        | Value::Bulk(_)
        | Value::NullBulk
        | Value::Array(_)
        | Value::NullArray => false,
    }
}

/// Whether two texts are equal.
fn are_equal(one: &[u8], other: &[u8]) -> bool
    ensures { result ≡ bytes_eq one.now other.now }
{
    one == other
}

/// Whether an answer is the null array.
#[tactic(auto, using(crate::proofs::Layers::array_layer), unfolding(wire_values::specs::Layer::layer))]
pub fn is_null_array(answer: &Value) -> bool
    ensures { result ≡ null_array_in (layer answer.now) }
{
    match answer {
        Value::NullArray => true,
        Value::Status(_)
        | Value::Error(_)
        | Value::Integer(_)
        | Value::Bulk(_)
        | Value::NullBulk
        | Value::Array(_) => false,
    }
}

/// The two integers of an answer that is an array of two.
pub fn two_integers(answer: &Value) -> Option<(i64, i64)>
    ensures { result ≡ numbers_of answer.now }
{
    two_among(items(answer)?)
}

/// The two integers of two values.
fn two_among(values: &[Value]) -> Option<(i64, i64)>
    ensures { result ≡ numbers_among values.now }
{
    match values {
        [one, other] => both_integers(one, other),
        [] | [_] | [_, _, _, ..] => None,
    }
}

/// The integers of two values that are both integers.
fn both_integers(one: &Value, other: &Value) -> Option<(i64, i64)>
    ensures { result ≡ both_numbers (number_of one.now) (number_of other.now) }
{
    let one = integer(one)?;
    let other = integer(other)?;
    Some((one, other))
}
