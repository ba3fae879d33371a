//! Values that a store pushes.
ghost use Rattle.std.specs.Prelude.{codes, is_some, ◌≡◌};
ghost use Rattle.command_blocks.specs.Answers.{bulk_of};
ghost use Rattle.link_desk.specs.PushedValues.{are_message, is_pushed, is_content};

use command_blocks::answer::items;
use wire_values::Value;

/// Whether a value counts as pushed: it is an array of three bulk strings, the first of which is `message`, as a subscribed
/// connection of Redis is told the messages of its channels.
pub fn is_pushed(value: &Value) -> bool
    ensures { result ≡ is_pushed value.now }
{
    match items(value) {
        Some(values) => are_message(values),
        None => false,
    }
}

/// Whether these are three bulk strings, the first of which is `message`.
fn are_message(values: &[Value]) -> bool
    ensures { result ≡ are_message values.now }
{
    match values {
        [word, channel, text] => is_message_word(word) && is_bulk(channel) && is_bulk(text),
        _ => false,
    }
}

/// Whether a value is the bulk string `message`.
#[tactic(auto, using(crate::proofs::Pushings::array_layer), unfolding(wire_values::specs::Layer::layer))]
fn is_message_word(value: &Value) -> bool
    ensures { result ≡ is_content (codes "message") (bulk_of value.now) }
{
    match value {
        Value::Bulk(content) => content.as_slice() == b"message".as_slice(),
        Value::Status(_)
        | Value::Error(_)
        | Value::Integer(_)
        | Value::Array(_)
        | Value::NullBulk
        | Value::NullArray => false,
    }
}

/// Whether a value is a bulk string.
#[tactic(auto, using(crate::proofs::Pushings::array_layer), unfolding(wire_values::specs::Layer::layer))]
fn is_bulk(value: &Value) -> bool
    ensures { result ≡ is_some (bulk_of value.now) }
{
    match value {
        Value::Bulk(_) => true,
        Value::Status(_)
        | Value::Error(_)
        | Value::Integer(_)
        | Value::Array(_)
        | Value::NullBulk
        | Value::NullArray => false,
    }
}
