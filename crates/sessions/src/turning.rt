//! One turn of a session: what one receive gives is asked, and the answers are sent.
ghost use Rattle.std.specs.Io.KnownBytes.{Keeps};
ghost use Rattle.std.specs.Prelude.{IsOk, List, OnOk, [], false, length, ℕ, ◌++◌, ◌<◌, ◌≡◌, ◌≤◌};
ghost use Rattle.desks.specs.Faults.{IsOpen};
ghost use Rattle.resp_wire.specs.Stands.{Stands};
ghost use Rattle.net_links.specs.LinkViews.{LinkView, link_view};
ghost use Rattle.sessions.specs.Talkings.{HasFlushed, HasTakenPiece, HasTurned, InSession, IsEndWhy, StandsSomewhere, TalksAll};

use crate::Why;
use crate::sending::send_all;
use crate::talking::{Talking, answer_all};
use desks::Desk;
use net_links::{Clock, Link, NetFault};
use std::alloc::Global;

/// Receives once into the room, which isn't empty, asks all values that are whole then, and sends the answers, those of
/// one receive together.
pub(crate) fn turn<D: Desk, L: Link, C: Clock>(
    alloc: Global,
    desk: &mut D,
    link: &mut L,
    clock: &C,
    talking: &mut Talking,
    room: &mut [u8],
) -> Result<(), Why>
    requires near { D.remote ≡ false }
    requires open { IsOpen (D.fault desk.old) (D.stopped desk.old) }
    requires placed { StandsSomewhere talking.old.decoder }
    requires room { 1 ≤ length room.old }
    ensures open { OnOk result (IsOpen (D.fault desk.new) (D.stopped desk.new)) }
    ensures placed { OnOk result (StandsSomewhere talking.new.decoder) }
    ensures room { length room.new ≡ length room.old }
    ensures turned { (first : D) (start : LinkView) (n : ℕ)
        → InSession D.goes (C.gives clock.now) first desk.old start (link_view L.sent L.received L.faults L.ends L.gains link.old) talking.old n
        → HasTurned D.goes (C.gives clock.now) D.shared (D.fault desk.new) first desk.new start (link_view L.sent L.received L.faults L.ends L.gains link.new) talking.new n result }
{
    let Ok(count) = link.receive(room) else {
        return Err(Why::Link);
    };
    if count == 0 {
        return Err(ended(talking));
    }
    take(alloc, desk, link, clock, talking, &room[..count])
}

/// Why a session ends whose other side ended: between two values, or within one.
fn ended(talking: &Talking) -> Why
    ensures { (before : ℕ) (rest : List ℕ) → Stands talking.now.decoder before rest → IsEndWhy rest result }
{
    if talking.decoder.pending() == 0 {
        Why::Ended
    } else {
        Why::Link
    }
}

/// Asks all values that are whole with this piece, which isn't empty, and sends the answers.
fn take<D: Desk, L: Link, C: Clock>(
    alloc: Global,
    desk: &mut D,
    link: &mut L,
    clock: &C,
    talking: &mut Talking,
    piece: &[u8],
) -> Result<(), Why>
    requires near { D.remote ≡ false }
    requires open { IsOpen (D.fault desk.old) (D.stopped desk.old) }
    requires placed { StandsSomewhere talking.old.decoder }
    requires piece { 0 < length piece.now }
    ensures open { OnOk result (IsOpen (D.fault desk.new) (D.stopped desk.new)) }
    ensures placed { OnOk result (StandsSomewhere talking.new.decoder) }
    ensures received { Keeps (L.received link.old) (L.received link.new) }
    ensures later { L.faults link.old ≤ L.faults link.new }
    ensures ends { L.ends link.new ≡ L.ends link.old }
    ensures gains { L.gains link.new ≡ L.gains link.old }
    ensures taken { (first : D) (stream sent : List ℕ) → TalksAll D.goes (C.gives clock.now) first desk.old stream sent talking.old → talking.old.out.items ≡ []
        → HasTakenPiece D.goes (C.gives clock.now) D.shared (D.fault desk.new) first desk.new (stream ++ piece.now) sent (L.sent link.old) (L.sent link.new) (L.faults link.old) (L.faults link.new) talking.new result }
{
    match talking.decoder.feed(alloc, piece) {
        Ok(()) => {
            let answered = answer_all(alloc, desk, clock, talking);
            flush(alloc, link, &mut talking.out, answered)
        }
        Err(_) => Err(Why::Memory),
    }
}

/// Sends what is to be sent; a failing send takes the place of the answer.
fn flush<L: Link>(
    alloc: Global,
    link: &mut L,
    out: &mut Vec<u8>,
    answered: Result<(), Why>,
) -> Result<(), Why>
    ensures flushed { HasFlushed (L.sent link.old) (L.sent link.new) (L.faults link.old) (L.faults link.new) out.old.items out.new.items answered result }
    ensures was { OnOk result (IsOk answered) }
    ensures received { Keeps (L.received link.old) (L.received link.new) }
    ensures later { L.faults link.old ≤ L.faults link.new }
    ensures ends { L.ends link.new ≡ L.ends link.old }
    ensures gains { L.gains link.new ≡ L.gains link.old }
{
    match send_all(alloc, link, out.as_slice()) {
        Ok(()) => {
            out.clear();
            answered
        }
        Err(NetFault::Failed) => Err(Why::Link),
        Err(NetFault::Memory) => Err(Why::Memory),
    }
}
