//! Sending all of some bytes.
ghost use Rattle.std.specs.Io.KnownBytes.{Keeps};
ghost use Rattle.std.specs.Prelude.{◌≡◌};
ghost use Rattle.net_links.specs.NetCauses.{HasNetCause};
ghost use Rattle.sessions.specs.Sendings.{SendsAll};

use net_links::{Link, NetFault};
use std::alloc::Global;

/// Sends all of some bytes. `Failed` comes where the link failed, `Memory` where it wants memory; a front was sent then.
pub fn send_all<L: Link>(alloc: Global, link: &mut L, bytes: &[u8]) -> Result<(), NetFault>
    ensures sent { SendsAll (L.sent link.old) (L.sent link.new) bytes.now result }
    ensures received { Keeps (L.received link.old) (L.received link.new) }
    ensures cause { HasNetCause (L.faults link.old) (L.faults link.new) result }
    ensures ends { L.ends link.new ≡ L.ends link.old }
    ensures gains { L.gains link.new ≡ L.gains link.old }
{
    let mut rest = bytes;
    'more: while !rest.is_empty() {
        match link.send(alloc, rest) {
            Ok(count) => rest = &rest[count..],
            Err(fault) => return Err(fault),
        }
    }
    Ok(())
}
