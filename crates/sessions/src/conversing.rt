//! A session: what comes over one link is asked of a desk, and the answers go back over the link.
ghost use Rattle.std.specs.Prelude.{IfOk, [], false, length, vec_len, ◌≡◌, ◌≤◌};
ghost use Rattle.desks.specs.Faults.{IsOpen};
ghost use Rattle.resp_wire.specs.Stands.{Stands};
ghost use Rattle.net_links.specs.LinkViews.{link_view};
ghost use Rattle.sessions.specs.SessionEnds.{HasSession};

use crate::Why;
use crate::talking::Talking;
use crate::turning::turn;
use desks::Desk;
use net_links::{Clock, Link};
use std::alloc::{AllocError, Global};

/// How a session ended: why, and how many commands were asked, 2^64 - 1 for all numbers above.
#[derive(Clone, Copy, Drop)]
pub struct SessionEnd {
    pub why: Why,
    pub commands: u64,
}

/// How many bytes one receive asks for at most.
const PIECE: usize = 65_536;

/// Asks a desk each whole value that comes over a link, by its words, and sends back the replies in their order, the
/// pushed values of each before its answer. One turn is one receive; what one receive brings is answered together.
///
/// It ends as `Why` says: after so many turns, at the end of the link, or at the first value that can't be asked; nothing
/// after that value is asked. The desk isn't remote: no end says that another link failed.
pub fn session<D: Desk, L: Link, C: Clock>(
    alloc: Global,
    desk: &mut D,
    link: &mut L,
    clock: &C,
    turns: u64,
) -> SessionEnd
    requires near { D.remote ≡ false }
    requires open { IsOpen (D.fault desk.old) (D.stopped desk.old) }
    ensures session { HasSession D.goes (C.gives clock.now) D.shared (D.fault desk.new) desk.old desk.new
        (link_view L.sent L.received L.faults L.ends L.gains link.old) (link_view L.sent L.received L.faults L.ends L.gains link.new)
        turns result.commands result.why }
{
    match room(alloc) {
        Ok(mut room) => {
            let mut talking = Talking::new(alloc);
            let room = room.as_mut_slice();
            let why = converse(alloc, desk, link, clock, &mut talking, room, turns);
            SessionEnd {
                why,
                commands: talking.commands,
            }
        }
        Err(_) => SessionEnd {
            why: Why::Memory,
            commands: 0,
        },
    }
}

/// Room for what one receive brings, on the heap.
fn room(alloc: Global) -> Result<Vec<u8>, AllocError>
    ensures { IfOk result (λ room. 1 ≤ vec_len room) }
{
    vec![in alloc; 0; PIECE]
}

/// Makes turns until a session ends.
fn converse<D: Desk, L: Link, C: Clock>(
    alloc: Global,
    desk: &mut D,
    link: &mut L,
    clock: &C,
    talking: &mut Talking,
    room: &mut [u8],
    turns: u64,
) -> Why
    requires near { D.remote ≡ false }
    requires open { IsOpen (D.fault desk.old) (D.stopped desk.old) }
    requires stands { Stands talking.old.decoder 0 [] }
    requires out { talking.old.out.items ≡ [] }
    requires commands { talking.old.commands ≡ 0 }
    requires room { 1 ≤ length room.old }
    ensures session { HasSession D.goes (C.gives clock.now) D.shared (D.fault desk.new) desk.old desk.new
        (link_view L.sent L.received L.faults L.ends L.gains link.old) (link_view L.sent L.received L.faults L.ends L.gains link.new)
        turns talking.new.commands result }
{
    let mut taken = 0;
    'turns: while taken < turns {
        match turn(alloc, desk, link, clock, talking, room) {
            Ok(()) => taken += 1,
            Err(why) => return why,
        }
    }
    Why::Turns
}
