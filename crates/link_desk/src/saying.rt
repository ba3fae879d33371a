//! Sending a command.
ghost use Rattle.std.specs.Io.KnownBytes.{Appends, Keeps};
ghost use Rattle.std.specs.Prelude.{IfErr, IfOk, List, OnErr, OnOk, ℕ, map, ◌++◌, ◌≡◌};
ghost use Rattle.link_desk.specs.Hearings.{HasLinkCause};
ghost use Rattle.link_desk.specs.LinkDeeds.{IsSendFault, SendsPart, command_bytes};

use desks::DeskFault;
use net_links::{Link, NetFault};
use sessions::send_all;
use sqlite_items::Items;
use std::alloc::{AllocError, Global};
use wire_spelling::encode_onto;
use wire_values::{Value, Words};

/// The value that a client sends for a command: the array of its words, as bulk strings.
pub fn command_value(alloc: Global, words: &Words) -> Result<Value, AllocError>
    ensures { IfOk result (λ value. value ≡ Value.Array (map Value.Bulk words.now)) }
{
    let mut values = Items::new(alloc);
    for word in words.as_slice() {
        values.push(Value::Bulk(word.copy(alloc)?))?;
    }
    Ok(Value::Array(values))
}

/// The bytes of a command, in place of what was there.
fn command_into(alloc: Global, out: &mut Vec<u8>, words: &Words) -> Result<(), AllocError>
    ensures { OnOk result (out.new.items ≡ command_bytes words.now) }
{
    let command = command_value(alloc, words)?;
    out.clear();
    encode_onto(alloc, out, &command)
}

/// Sends a command whole, once. `Link` comes where the link failed, `Memory` where there is no memory; a front of the
/// command was sent then.
pub fn say<L: Link>(
    alloc: Global,
    link: &mut L,
    out: &mut Vec<u8>,
    words: &Words,
) -> Result<(), DeskFault>
    ensures sent { OnOk result (Appends (L.sent link.old) (L.sent link.new) (command_bytes words.now)) }
    ensures begun { OnErr result (SendsPart (L.sent link.old) (L.sent link.new) (command_bytes words.now)) }
    ensures kinds { IfErr result IsSendFault }
    ensures received { Keeps (L.received link.old) (L.received link.new) }
    ensures cause { HasLinkCause (L.faults link.old) (L.faults link.new) (L.ends link.old) (L.ends link.new) result }
{
    if command_into(alloc, out, words).is_err() {
        return Err(DeskFault::Memory);
    }
    match send_all(alloc, link, out.as_slice()) {
        Ok(()) => Ok(()),
        Err(NetFault::Failed) => Err(DeskFault::Link),
        Err(NetFault::Memory) => Err(DeskFault::Memory),
    }
}
