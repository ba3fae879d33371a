//! Answers to the transaction of a return.
ghost use Rattle.std.specs.Prelude.{◌≡◌};
ghost use Rattle.manner_laws.specs.Cursor.{failed_spot, spot_if};
ghost use Rattle.manner_laws.specs.Spots.{Move, finished, gave_up};
ghost use Rattle.client_spots.specs.Stands.{job_of, spot_of};
ghost use Rattle.client_answers.specs.Leads.{IsAt, IsLed};

use crate::values::{are_integers, is_null_array};
use client_spots::{ClientSpot, Stand, Tried};
use wire_values::{Value, Words};

/// How many tries that fail may come before the last.
const LAST_TRY: u8 = 7;

/// A transaction that returns a message.
pub(crate) fn moved(spot: &mut ClientSpot, answer: &Value) -> bool
    ensures { IsLed spot.old (Move spot.old.drawn spot.old.passes (job_of spot.old) spot.old.tries) answer.now spot.new result }
{
    if is_null_array(answer) {
        return failed(spot);
    }
    if !are_integers(answer) {
        return false;
    }
    finish(spot);
    true
}

/// After a try that failed.
fn failed(spot: &mut ClientSpot) -> bool
    ensures leads { failed_spot spot.old.drawn spot.old.passes (job_of spot.old) spot.old.tries ≡ spot_if result (spot_of spot.new) }
    ensures seed { spot.new.seed ≡ spot.old.seed }
{
    if spot.tries < LAST_TRY {
        spot.tries += 1;
        spot.stand = Stand::Waiting;
        return true;
    }
    if spot.tries > LAST_TRY {
        return false;
    }
    give_up(spot);
    true
}

/// After the last try of a return.
pub fn finish(spot: &mut ClientSpot)
    ensures { IsAt spot.old (finished spot.old.drawn spot.old.passes (job_of spot.old)) spot.new }
{
    spot.stand = match spot.tried {
        Tried::Open => Stand::Free,
        Tried::Left => Stand::Free,
        Tried::Right => Stand::Free,
        Tried::OfPass => Stand::Turning,
    };
}

/// After eight tries that failed.
fn give_up(spot: &mut ClientSpot)
    ensures { IsAt spot.old (gave_up spot.old.drawn spot.old.passes (job_of spot.old)) spot.new }
{
    match spot.tried {
        Tried::Open => spot.stand = Stand::Free,
        Tried::Left => spot.stand = Stand::Free,
        Tried::Right => spot.stand = Stand::Free,
        Tried::OfPass => {
            spot.tags = Words::new();
            spot.stand = Stand::Turning;
        }
    }
}
