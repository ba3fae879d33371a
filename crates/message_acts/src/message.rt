//! Messages of queues, by the numbers of their delivery tags.
ghost use Rattle.std.specs.Prelude.{◌≡◌, IfOk, Ok, Some, None};
ghost use Rattle.command_blocks.specs.EnvelopeTexts.{plain_setting};
ghost use Rattle.command_blocks.specs.Setting.{is_queue};
ghost use Rattle.envelope.specs.Envelopes.{envelope_at};
ghost use Rattle.letters.specs.Letters.{letter_of};
ghost use Rattle.message_acts.specs.Numbers.{number_told};
ghost use Rattle.queue_keys.specs.Names.{Bytes as Text};
ghost use Rattle.serde_json.specs.View.{view as data_of};

use envelope::{Envelope, EnvelopeFault};
use letters::{Letter, Letters};
use queue_keys::split_key;
use std::alloc::{AllocError, Global};

/// Whether it is the key of a queue.
pub fn is_queue_key(key: &[u8]) -> bool
    ensures { result ≡ is_queue plain_setting key.now }
{
    match split_key(key) {
        Some(_) => true,
        None => false,
    }
}

/// The number of an envelope's tag. None where the bytes are no envelope. What the bytes spell is noted.
///
/// `AllocError` is want of memory.
pub fn message_of(
    alloc: Global,
    letters: &mut Letters,
    bytes: &[u8],
) -> Result<Option<u128>, AllocError>
    ensures { IfOk result (λ n. n ≡ number_told (plain_setting.tag_of bytes.now)) }
{
    match letters.known(bytes) {
        Some(letter) => Ok(number_in(letter)),
        None => read_message(alloc, letters, bytes),
    }
}

/// The number that a text tells as an envelope, by what it spells.
fn number_in(letter: Letter) -> Option<u128>
    ensures { (b : Text) → letter_of b ≡ Some letter → result ≡ number_told (plain_setting.tag_of b) }
{
    match letter {
        Letter::Envelope { number, marked: _ } => Some(number),
        Letter::Entry { .. } => None,
    }
}

/// The number of an envelope's tag, where the bytes aren't known.
fn read_message(
    alloc: Global,
    letters: &mut Letters,
    bytes: &[u8],
) -> Result<Option<u128>, AllocError>
    ensures { IfOk result (λ n. n ≡ number_told (plain_setting.tag_of bytes.now)) }
{
    match envelope::read(alloc, bytes) {
        Ok(message) => noted(alloc, letters, &message),
        Err(EnvelopeFault::Memory) => Err(AllocError),
        Err(
            EnvelopeFault::TooLong
            | EnvelopeFault::NotJson
            | EnvelopeFault::TooDeep
            | EnvelopeFault::Float
            | EnvelopeFault::Missing(_)
            | EnvelopeFault::Compressed
            | EnvelopeFault::BadBody,
        ) => Ok(None),
    }
}

/// The number of an envelope's tag, where what it spells is noted.
fn noted(
    alloc: Global,
    letters: &mut Letters,
    message: &Envelope,
) -> Result<Option<u128>, AllocError>
    ensures { (b : Text) → envelope_at b ≡ Ok (data_of message.now) → IfOk result (λ n. n ≡ number_told (plain_setting.tag_of b)) }
{
    letters.note(alloc, message)?;
    Ok(Some(message.tag().0))
}
