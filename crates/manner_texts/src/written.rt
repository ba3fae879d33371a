//! Envelopes that stand as they are written.
ghost use Rattle.std.specs.Prelude.{◌≡◌, IfOk, IfSome, Ok, None, Some};
ghost use Rattle.serde_json.specs.View.{view as data_of};
ghost use Rattle.delivery_tags.specs.Tags.{tag_text};
ghost use Rattle.envelope.specs.Envelopes.{envelope_at};
ghost use Rattle.command_blocks.specs.EnvelopeTexts.{way_of, way_said, written_tag};
ghost use Rattle.manner_texts.specs.Ways.{TellsWritten, way_told};

use crate::way::MessageWay;
use envelope::{Envelope, EnvelopeFault, Tag, read};
use queue_keys::are_same;
use std::alloc::{AllocError, Global};
use wire_values::Bytes;

/// The message of an envelope that stands as it is written.
#[derive(Drop)]
pub struct WrittenMessage {
    /// Its tag.
    pub tag: Tag,
    /// Where it goes.
    pub way: MessageWay,
}

/// The message of an envelope that stands as it is written. None where the bytes are anything else.
///
/// # Errors
/// Want of memory.
pub fn read_written(alloc: Global, bytes: &[u8]) -> Result<Option<WrittenMessage>, AllocError>
    ensures { IfOk result (TellsWritten bytes.now) }
{
    match read(alloc, bytes) {
        Ok(envelope) => written(alloc, bytes, &envelope),
        Err(EnvelopeFault::Memory) => Err(AllocError),
        Err(_) => Ok(None),
    }
}

/// The same, by the envelope.
fn written(
    alloc: Global,
    bytes: &[u8],
    envelope: &Envelope,
) -> Result<Option<WrittenMessage>, AllocError>
    requires { envelope_at bytes.now ≡ Ok (data_of envelope.now) }
    ensures { IfOk result (TellsWritten bytes.now) }
{
    if !are_same(bytes, envelope.text()) {
        return Ok(None);
    }
    let way = way_of(alloc, envelope)?;
    Ok(Some(WrittenMessage {
        tag: envelope.tag(),
        way,
    }))
}

/// Where an envelope goes.
fn way_of(alloc: Global, envelope: &Envelope) -> Result<MessageWay, AllocError>
    ensures { IfOk result (λ way. way_told way ≡ way_said (data_of envelope.now)) }
{
    Ok(MessageWay {
        exchange: Bytes::from_slice(alloc, envelope.exchange())?,
        routing_key: Bytes::from_slice(alloc, envelope.routing_key())?,
        priority: envelope.priority(),
    })
}
