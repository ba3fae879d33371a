//! Entries of the table of messages that aren't acknowledged.
ghost use Rattle.std.specs.Prelude.{◌≡◌, bytes_eq, IfOk, Ok, option_map};
ghost use Rattle.serde_json.specs.View.{view as data_of};
ghost use Rattle.delivery_tags.specs.Tags.{tag_text};
ghost use Rattle.envelope.specs.Entries.{entry_at};
ghost use Rattle.envelope.specs.Envelopes.{parts_in};
ghost use Rattle.envelope.specs.ShownEntry.{entry_view};
ghost use Rattle.envelope_trees.specs.Marks.{marked};
ghost use Rattle.command_blocks.specs.EnvelopeTexts.{way_in, way_kept};
ghost use Rattle.manner_texts.specs.Ways.{TellsKept, way_told};

use crate::way::MessageWay;
use crate::words::are_equal;
use envelope::{Envelope, EnvelopeFault, UnackedEntry, read_entry, redelivered};
use std::alloc::{AllocError, Global};
use wire_values::Bytes;

/// The message of an entry, as it returns.
#[derive(Drop)]
pub struct KeptMessage {
    /// Its envelope with both marks.
    pub text: Bytes,
    /// Where it returns.
    pub way: MessageWay,
}

/// The message of an entry, where it has the tag of this text. None where the bytes are no such entry.
///
/// # Errors
/// Want of memory.
pub fn read_kept(alloc: Global, entry: &[u8], tag: &[u8]) -> Result<Option<KeptMessage>, AllocError>
    ensures { IfOk result (TellsKept tag.now entry.now) }
{
    match read_entry(alloc, entry) {
        Ok(read) => kept(alloc, entry, tag, &read),
        Err(EnvelopeFault::Memory) => Err(AllocError),
        Err(_) => Ok(None),
    }
}

/// The same, by what was read.
fn kept(
    alloc: Global,
    entry: &[u8],
    tag: &[u8],
    read: &UnackedEntry,
) -> Result<Option<KeptMessage>, AllocError>
    requires { entry_at entry.now ≡ Ok (entry_view read.now) }
    ensures { IfOk result (TellsKept tag.now entry.now) }
{
    let envelope = redelivered(alloc, &read.envelope)?;
    kept_as(alloc, entry, tag, read, &envelope)
}

/// The same, by the envelope with both marks.
fn kept_as(
    alloc: Global,
    entry: &[u8],
    tag: &[u8],
    read: &UnackedEntry,
    envelope: &Envelope,
) -> Result<Option<KeptMessage>, AllocError>
    requires read { entry_at entry.now ≡ Ok (entry_view read.now) }
    requires marked { data_of envelope.now ≡ marked (entry_view read.now).tree }
    ensures { IfOk result (TellsKept tag.now entry.now) }
{
    let text = envelope.text();
    if !has_tag(envelope, tag) {
        return Ok(None);
    }
    Ok(Some(KeptMessage {
        text: Bytes::from_slice(alloc, text)?,
        way: way_of(alloc, read)?,
    }))
}

/// Where an entry's message returns. None where the bytes are no entry.
///
/// # Errors
/// Want of memory.
pub fn read_way(alloc: Global, entry: &[u8]) -> Result<Option<MessageWay>, AllocError>
    ensures { IfOk result (λ way. way_in entry.now ≡ option_map way_told way) }
{
    match read_entry(alloc, entry) {
        Ok(read) => way_found(alloc, entry, &read),
        Err(EnvelopeFault::Memory) => Err(AllocError),
        Err(_) => Ok(None),
    }
}

/// The same, by what was read.
fn way_found(
    alloc: Global,
    entry: &[u8],
    read: &UnackedEntry,
) -> Result<Option<MessageWay>, AllocError>
    requires { entry_at entry.now ≡ Ok (entry_view read.now) }
    ensures { IfOk result (λ way. way_in entry.now ≡ option_map way_told way) }
{
    Ok(Some(way_of(alloc, read)?))
}

/// Whether an envelope has the tag of this text.
fn has_tag(envelope: &Envelope, tag: &[u8]) -> bool
    ensures { result ≡ bytes_eq tag.now (tag_text (parts_in (data_of envelope.now)).tag) }
{
    are_equal(tag, envelope.tag().text().as_slice())
}

/// Where an entry's message returns.
fn way_of(alloc: Global, read: &UnackedEntry) -> Result<MessageWay, AllocError>
    ensures { IfOk result (λ way. way_told way ≡ way_kept (entry_view read.now)) }
{
    Ok(MessageWay {
        exchange: read.exchange.copy(alloc)?,
        routing_key: read.routing_key.copy(alloc)?,
        priority: read.envelope.priority(),
    })
}
