//! Where an answer leads.
ghost use Rattle.std.specs.Prelude.{IfOk};
ghost use Rattle.client_spots.specs.Stands.{ask_of};
ghost use Rattle.client_answers.specs.Leads.{IsLed};

use crate::answer::{bindings, message};
use crate::entry::{entry, routes};
use crate::pass::{due, holder, lock, release};
use crate::tries::moved;
use crate::values::{are_two_integers, is_integer, is_no_error, is_status};
use client_spots::{Awaited, ClientSpot};
use std::alloc::{AllocError, Global};
use wire_values::Value;

/// Has a client take the answer to what it asked: true where it is listed, and the client then is where that leads.
///
/// Where an answer tells no more than that it is listed, the client already is at the next spot.
///
/// # Errors
/// Want of memory; a pass that is the last that can be counted counts as such.
pub fn told(
    spot: &mut ClientSpot,
    alloc: Global,
    awaited: Awaited,
    answer: &Value,
) -> Result<bool, AllocError>
    ensures { IfOk result (IsLed spot.old (ask_of awaited spot.old) answer.now spot.new) }
{
    match awaited {
        Awaited::Count => Ok(is_integer(answer)),
        Awaited::Consent => Ok(is_status(b"OK", answer)),
        Awaited::Queueing => Ok(is_status(b"QUEUED", answer)),
        Awaited::Counts => Ok(are_two_integers(answer)),
        Awaited::Anything => Ok(is_no_error(answer)),
        Awaited::Bindings => bindings(spot, alloc, answer),
        Awaited::Message => message(spot, alloc, answer),
        Awaited::Entry => entry(spot, alloc, answer),
        Awaited::Routes => routes(spot, alloc, answer),
        Awaited::Move => Ok(moved(spot, answer)),
        Awaited::Lock => lock(spot, answer),
        Awaited::Due => due(spot, alloc, answer),
        Awaited::Holder => holder(spot, alloc, answer),
        Awaited::Release => release(spot, answer),
    }
}
