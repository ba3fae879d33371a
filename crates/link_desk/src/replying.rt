//! Receiving one reply.
ghost use Rattle.std.specs.Io.KnownBytes.{Keeps};
ghost use Rattle.std.specs.Prelude.{IfOk, List, [], ℕ, ◌≡◌};
ghost use Rattle.resp_wire.specs.Stands.{Stands};
ghost use Rattle.link_desk.specs.Hearings.{GathersReply, HasLinkCause, HasReply, KeepsPushed};
ghost use Rattle.link_desk.specs.PushedValues.{AreBefore, IsOneReply};

use crate::hearing::Hearing;
use crate::pushing::is_pushed;
use desks::DeskFault;
use net_links::Link;
use sqlite_items::Items;
use std::alloc::Global;
use store_model::Reply;
use wire_values::{Value, Values};

/// The most values that are pushed before one reply.
const PUSHED: usize = 1_024;

/// Receives one reply: the values that were pushed before it, and the first that isn't pushed. What came behind it is kept
/// for the next call.
///
/// `Link`, `Wire` and `Memory` come as a value's do; `Flood` where a value more was pushed than may be.
pub fn reply<L: Link>(
    alloc: Global,
    link: &mut L,
    hearing: &mut Hearing,
) -> Result<Reply, DeskFault>
    ensures one { IfOk result IsOneReply }
    ensures reply { (before : ℕ) (rest : List ℕ) → Stands hearing.old.decoder before rest
        → HasReply before rest (L.received link.old) (L.received link.new) hearing.new.decoder result }
    ensures sent { Keeps (L.sent link.old) (L.sent link.new) }
    ensures cause { HasLinkCause (L.faults link.old) (L.faults link.new) (L.ends link.old) (L.ends link.new) result }
{
    let mut pushed = Items::new(alloc);
    match gather(alloc, link, hearing, &mut pushed) {
        Ok(answer) => Ok(Reply { pushed, answer }),
        Err(fault) => Err(fault),
    }
}

/// Receives values until one isn't pushed, gives that one, and keeps those before it.
fn gather<L: Link>(
    alloc: Global,
    link: &mut L,
    hearing: &mut Hearing,
    pushed: &mut Values,
) -> Result<Value, DeskFault>
    requires none { pushed.old ≡ [] }
    ensures before { IfOk result (λ answer. AreBefore pushed.new answer) }
    ensures gathers { (before : ℕ) (rest : List ℕ) → Stands hearing.old.decoder before rest
        → GathersReply before rest (L.received link.old) (L.received link.new) hearing.new.decoder pushed.new result }
    ensures sent { Keeps (L.sent link.old) (L.sent link.new) }
    ensures cause { HasLinkCause (L.faults link.old) (L.faults link.new) (L.ends link.old) (L.ends link.new) result }
{
    'values: loop {
        let value = match hearing.next(alloc, link) {
            Ok(value) => value,
            Err(fault) => return Err(fault),
        };
        if !is_pushed(&value) {
            return Ok(value);
        }
        match keep(pushed, value) {
            Ok(()) => {}
            Err(fault) => return Err(fault),
        }
    }
}

/// Keeps a value that was pushed. `Flood` comes exactly where there are as many as may be, `Memory` where there is no
/// memory.
fn keep(pushed: &mut Values, value: Value) -> Result<(), DeskFault>
    ensures { KeepsPushed pushed.old pushed.new value result }
{
    if pushed.len() >= PUSHED {
        return Err(DeskFault::Flood);
    }
    match pushed.push(value) {
        Ok(()) => Ok(()),
        Err(_) => Err(DeskFault::Memory),
    }
}
