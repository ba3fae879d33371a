//! Messages that were popped.
ghost use Rattle.std.specs.Prelude.{◌≡◌, IfOk, Ok};
ghost use Rattle.serde_json.specs.View.{view as data_of};
ghost use Rattle.envelope.specs.Envelopes.{envelope_at};
ghost use Rattle.manner_texts.specs.Ways.{TellsPopped};

use envelope::{Envelope, EnvelopeFault, Tag, read, write_entry};
use std::alloc::{AllocError, Global};
use wire_values::Bytes;

/// The message of an envelope.
#[derive(Drop)]
pub struct PoppedMessage {
    /// Its tag.
    pub tag: Tag,
    /// The table's entry of it.
    pub entry: Bytes,
}

/// The message of an envelope. None where the bytes are none.
///
/// # Errors
/// Want of memory.
pub fn read_popped(alloc: Global, bytes: &[u8]) -> Result<Option<PoppedMessage>, AllocError>
    ensures { IfOk result (TellsPopped bytes.now) }
{
    match read(alloc, bytes) {
        Ok(envelope) => popped(alloc, bytes, &envelope),
        Err(EnvelopeFault::Memory) => Err(AllocError),
        Err(_) => Ok(None),
    }
}

/// The same, by the envelope.
fn popped(
    alloc: Global,
    bytes: &[u8],
    envelope: &Envelope,
) -> Result<Option<PoppedMessage>, AllocError>
    requires { envelope_at bytes.now ≡ Ok (data_of envelope.now) }
    ensures { IfOk result (TellsPopped bytes.now) }
{
    let entry = write_entry(alloc, envelope)?;
    Ok(Some(PoppedMessage {
        tag: envelope.tag(),
        entry,
    }))
}
