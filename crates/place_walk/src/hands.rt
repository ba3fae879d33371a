//! The messages in the hands of clients.
ghost use Rattle.std.specs.Prelude.{◌≡◌, IfOk};
ghost use Rattle.std.specs.BTreeMap.{IsOrdered};
ghost use Rattle.std.specs.FinMap.{entries};
ghost use Rattle.std.specs.Ordering.{nat_cmp};
ghost use Rattle.place_walk.specs.Seats.{hand_if, hands};

use crate::numbered::Numbered;
use crate::seat::ClientSeat;
use std::alloc::{AllocError, Global};
use std::collections::BTreeMap;
use wire_values::List;

impl Numbered<ClientSeat> {
    /// The messages in the hands of clients that are gone, or that aren't, with their connections, in order.
    pub fn hands(&self, alloc: Global, gone: bool) -> Result<List<(u128, u32)>, AllocError>
        ensures { IfOk result (λ held. held ≡ hands gone (entries self.now)) }
    {
        held_in(alloc, &self.kept, gone)
    }
}

/// The same, over the table that is kept.
fn held_in(
    alloc: Global,
    kept: &BTreeMap<u32, ClientSeat>,
    gone: bool,
) -> Result<List<(u128, u32)>, AllocError>
    ensures held { IfOk result (λ held. held ≡ hands gone kept.now.entries) }
    ensures ordered { IsOrdered nat_cmp kept.now }
{
    let mut held = List::new();
    for (conn, seat) in kept.iter() {
        if let Some(number) = hand_if(seat, gone) {
            held.push(alloc, (number, *conn))?;
        }
    }
    Ok(held)
}

/// The message in the hand of a client, where it is gone as asked.
fn hand_if(seat: &ClientSeat, gone: bool) -> Option<u128>
    ensures { result ≡ hand_if gone seat.now }
{
    if seat.stopped {
        if gone { seat.hand } else { None }
    } else {
        if gone { None } else { seat.hand }
    }
}
