//! What a session keeps between its receives, and the asking of all values that are whole.
ghost use Rattle.std.specs.Prelude.{List, Ok, OnOk, [], false, length, true, ℕ, ◌<◌, ◌≡◌};
ghost use Rattle.desks.specs.Faults.{IsOpen};
ghost use Rattle.resp_wire.specs.Moves.{unread_of};
ghost use Rattle.resp_wire.specs.Stands.{Stands};
ghost use Rattle.wire_grammar.specs.Fits.{HasSpelling};
ghost use Rattle.sessions.specs.Askings.{HasAnsweredValue};
ghost use Rattle.sessions.specs.Talkings.{AnswersAll, AnswersNext, StandsSomewhere, Talks};

use crate::Why;
use crate::asking::answer;
use desks::Desk;
use net_links::Clock;
use resp_wire::{Decoder, WireFault};
use std::alloc::Global;
use wire_values::Value;

/// What a session keeps between its receives: the decoder of what came, the bytes that are to be sent, and how many
/// commands were asked, 2^64 - 1 for all numbers above.
#[derive(Drop)]
pub struct Talking {
    pub decoder: Decoder,
    pub out: Vec<u8>,
    pub commands: u64,
}

impl Talking {
    /// Nothing came yet; takes no memory.
    pub fn new(alloc: Global) -> Talking
        ensures stands { Stands result.decoder 0 [] }
        ensures out { result.out.items ≡ [] }
        ensures commands { result.commands ≡ 0 }
    {
        Talking {
            decoder: Decoder::new(alloc),
            out: Vec::new(alloc),
            commands: 0,
        }
    }
}

/// Asks what a value spells that isn't needed any more.
fn answer_value<D: Desk, C: Clock>(
    alloc: Global,
    desk: &mut D,
    clock: &C,
    value: Value,
    out: &mut Vec<u8>,
    commands: &mut u64,
) -> Result<(), Why>
    requires near { D.remote ≡ false }
    requires open { IsOpen (D.fault desk.old) (D.stopped desk.old) }
    requires spelled { HasSpelling value }
    ensures answered { HasAnsweredValue D.goes (C.gives clock.now) D.shared (D.fault desk.new) desk.old desk.new value out.old.items out.new.items commands.old commands.new result }
    ensures open { OnOk result (IsOpen (D.fault desk.new) (D.stopped desk.new)) }
{
    answer(alloc, desk, clock, &value, out, commands)
}

/// Asks the next value that is whole, and answers whether there was one; some bytes are left to be read.
fn answer_next<D: Desk, C: Clock>(
    alloc: Global,
    desk: &mut D,
    clock: &C,
    talking: &mut Talking,
) -> Result<bool, Why>
    requires near { D.remote ≡ false }
    requires open { IsOpen (D.fault desk.old) (D.stopped desk.old) }
    requires placed { StandsSomewhere talking.old.decoder }
    requires some { (before : ℕ) (rest : List ℕ) → Stands talking.old.decoder before rest → 0 < length rest }
    ensures less { result ≡ Ok true → unread_of talking.new.decoder < unread_of talking.old.decoder }
    ensures open { OnOk result (IsOpen (D.fault desk.new) (D.stopped desk.new)) }
    ensures placed { OnOk result (StandsSomewhere talking.new.decoder) }
    ensures answers { (first : D) (stream sent : List ℕ) → Talks D.goes (C.gives clock.now) first desk.old stream sent talking.old
        → AnswersNext D.goes (C.gives clock.now) D.shared (D.fault desk.new) first desk.new stream sent talking.new result }
{
    match talking.decoder.next(alloc) {
        Ok(Some(value)) => {
            let out = &mut talking.out;
            match answer_value(alloc, desk, clock, value, out, &mut talking.commands) {
                Ok(()) => Ok(true),
                Err(why) => Err(why),
            }
        }
        Ok(None) => Ok(false),
        Err(WireFault::Bad { kind, place }) => Err(Why::Wire { kind, place }),
        Err(WireFault::Memory) => Err(Why::Memory),
    }
}

/// Asks all values that are whole, one after the other, until one is no command, the desk refuses one, or memory is
/// wanting.
pub(crate) fn answer_all<D: Desk, C: Clock>(
    alloc: Global,
    desk: &mut D,
    clock: &C,
    talking: &mut Talking,
) -> Result<(), Why>
    requires near { D.remote ≡ false }
    requires open { IsOpen (D.fault desk.old) (D.stopped desk.old) }
    requires placed { StandsSomewhere talking.old.decoder }
    ensures open { OnOk result (IsOpen (D.fault desk.new) (D.stopped desk.new)) }
    ensures placed { OnOk result (StandsSomewhere talking.new.decoder) }
    ensures answers { (first : D) (stream sent : List ℕ) → Talks D.goes (C.gives clock.now) first desk.old stream sent talking.old
        → AnswersAll D.goes (C.gives clock.now) D.shared (D.fault desk.new) first desk.new stream sent talking.new result }
{
    'values: while talking.decoder.pending() > 0 {
        match answer_next(alloc, desk, clock, talking) {
            Ok(true) => {}
            Ok(false) => return Ok(()),
            Err(why) => return Err(why),
        }
    }
    Ok(())
}
