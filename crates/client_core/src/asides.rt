//! Which commands concern no message.
ghost use Rattle.std.specs.Prelude.{◌≡◌};
ghost use Rattle.wire_values.specs.Layer.{layer};
ghost use Rattle.command_blocks.specs.Answers.{is_error};
ghost use Rattle.command_blocks.specs.EnvelopeTexts.{plain_setting};
ghost use Rattle.command_blocks.specs.Setting.{control_channel};
ghost use Rattle.queue_keys.specs.Names.{has_end, same};
ghost use Rattle.steps.specs.Neutrals.{is_neutral, is_neutral_pair, is_neutral_triple};

use queue_keys::are_same;
use wire_values::{Bytes, Value, Words};

/// Whether a command concerns no message: PING, SELECT 0, LLEN; SUBSCRIBE, UNSUBSCRIBE or PUBLISH on the channel of control
/// messages; LPUSH, BRPOP of one key or EXPIRE on a list of control replies (Kombu's pidbox).
pub fn is_neutral(words: &Words) -> bool
    ensures { result ≡ is_neutral words.now }
{
    are_neutral(words.as_slice())
}

/// Whether words are such a command.
fn are_neutral(words: &[Bytes]) -> bool
    ensures { result ≡ is_neutral words.now }
{
    match words {
        [] => false,
        [name] => are_same(b"PING", name.as_slice()),
        [name, word] => is_neutral_pair(name.as_slice(), word.as_slice()),
        [name, word, _] => is_neutral_triple(name.as_slice(), word.as_slice()),
        [name, word, _, _, ..] => are_same(b"LPUSH", name.as_slice())
            && is_reply_key(word.as_slice()),
    }
}

/// Whether two words are such a command.
fn is_neutral_pair(name: &[u8], word: &[u8]) -> bool
    ensures { result ≡ is_neutral_pair name.now word.now }
{
    are_same(b"LLEN", name)
        || (are_same(b"SELECT", name) && are_same(b"0", word))
        || ((are_same(b"SUBSCRIBE", name) || are_same(b"UNSUBSCRIBE", name)) && is_channel(word))
}

/// Whether three words are such a command, by the first two.
fn is_neutral_triple(name: &[u8], word: &[u8]) -> bool
    ensures { result ≡ is_neutral_triple name.now word.now }
{
    (are_same(b"PUBLISH", name) && is_channel(word))
        || ((are_same(b"LPUSH", name) || are_same(b"BRPOP", name) || are_same(b"EXPIRE", name))
            && is_reply_key(word))
}

/// Whether it is the channel of control messages.
fn is_channel(word: &[u8]) -> bool
    ensures { result ≡ same control_channel word.now }
{
    are_same(b"/0.celery.pidbox", word)
}

/// Whether it is the key of a list of control replies.
fn is_reply_key(key: &[u8]) -> bool
    ensures { result ≡ plain_setting.is_reply key.now }
{
    ends(b".reply.celery.pidbox", key)
}

/// Whether a text ends with the end.
fn ends(end: &[u8], text: &[u8]) -> bool
    ensures { result ≡ has_end end.now text.now }
{
    text.ends_with(end)
}

/// Whether an answer is an error.
#[tactic(auto, using(command_blocks::proofs::Layers::array_layer), unfolding(wire_values::specs::Layer::layer))]
pub(crate) fn is_error(answer: &Value) -> bool
    ensures { result ≡ is_error answer.now }
{
    match answer {
        Value::Error(_) => true,
        Value::Status(_)
        | Value::Integer(_)
        | Value::Bulk(_)
        | Value::NullBulk
        | Value::Array(_)
        | Value::NullArray => false,
    }
}
