//! Asking a desk what was received, and writing down what it answers.
ghost use Rattle.std.specs.Prelude.{Bool, IfErr, IfOk, OnErr, OnOk, Some, [], false, ◌++◌, ◌<◌, ◌^◌, ◌∷◌, ◌≡◌};
ghost use Rattle.links.specs.Counts.{raised};
ghost use Rattle.desks.specs.Deeds.{DidAsk};
ghost use Rattle.desks.specs.Faults.{IsOpen};
ghost use Rattle.wire_grammar.specs.Fits.{HasSpelling, IsWithinLimits};
ghost use Rattle.sessions.specs.Askings.{HasAnsweredValue, HasAskedWords, IsDeskWhy, IsNearFault};
ghost use Rattle.sessions.specs.Talks.{reply_bytes, store_moment};

use crate::Why;
use crate::received::command_in;
use desks::{Desk, DeskFault};
use net_links::{Clock, raise};
use std::alloc::{AllocError, Global};
use store_model::Reply;
use wire_spelling::encode_onto;
use wire_values::{Value, Words};

/// The moment in seconds that a store is given at a moment in microseconds, held below 2^40.
pub fn store_moment(now: u64) -> u64
    ensures moment { result ≡ store_moment now }
    ensures small { result < 2 ^ 40 }
{
    (now / 1_000_000).min((1 << 40) - 1)
}

/// Asks what a value that was received spells, at the clock's moment, and appends the bytes of the reply: the values that
/// were pushed before it, and the answer. `commands` counts what was asked, 2^64 - 1 for all numbers above.
///
/// `NotWords` comes exactly where the value spells no command; nothing is asked then. `Full` and `Closed` come where the
/// desk answers so, `Memory` where there is no memory or the desk answers that. The desk isn't remote: faults of a link
/// would have no name here.
#[tactic(auto, using(crate::proofs::CommandsFit::fits))]
pub fn answer<D: Desk, C: Clock>(
    alloc: Global,
    desk: &mut D,
    clock: &C,
    value: &Value,
    out: &mut Vec<u8>,
    commands: &mut u64,
) -> Result<(), Why>
    requires near { D.remote ≡ false }
    requires open { IsOpen (D.fault desk.old) (D.stopped desk.old) }
    requires spelled { HasSpelling value.now }
    ensures answered { HasAnsweredValue D.goes (C.gives clock.now) D.shared (D.fault desk.new) desk.old desk.new value.now out.old.items out.new.items commands.old commands.new result }
    ensures open { OnOk result (IsOpen (D.fault desk.new) (D.stopped desk.new)) }
{
    match command_in(alloc, value) {
        Ok(Some(words)) => answer_words(alloc, desk, clock, &words, out, commands),
        Ok(None) => Err(Why::NotWords),
        Err(_) => Err(Why::Memory),
    }
}

/// Asks a command, and appends the bytes of the reply.
fn answer_words<D: Desk, C: Clock>(
    alloc: Global,
    desk: &mut D,
    clock: &C,
    words: &Words,
    out: &mut Vec<u8>,
    commands: &mut u64,
) -> Result<(), Why>
    requires near { D.remote ≡ false }
    requires open { IsOpen (D.fault desk.old) (D.stopped desk.old) }
    requires words { IsWithinLimits words.now }
    ensures answered { HasAskedWords D.goes (C.gives clock.now) D.shared (D.fault desk.new) desk.old desk.new words.now out.old.items out.new.items commands.old commands.new result }
    ensures open { OnOk result (IsOpen (D.fault desk.new) (D.stopped desk.new)) }
{
    let at = store_moment(clock.now());
    match asked(alloc, desk, at, words) {
        Ok(reply) => match counted(alloc, reply, out, commands) {
            Ok(()) => Ok(()),
            Err(_) => Err(Why::Memory),
        },
        Err(why) => Err(why),
    }
}

/// Counts a command that was asked, and appends the bytes of its reply. Without memory for all of them no bytes are left.
fn counted(
    alloc: Global,
    reply: Reply,
    out: &mut Vec<u8>,
    commands: &mut u64,
) -> Result<(), AllocError>
    ensures written { OnOk result (out.new.items ≡ out.old.items ++ reply_bytes reply) }
    ensures none { OnErr result (out.new.items ≡ []) }
    ensures count { commands.new ≡ raised commands.old }
{
    raise(commands);
    match reply_onto(alloc, out, &reply) {
        Ok(()) => Ok(()),
        Err(fault) => {
            out.clear();
            Err(fault)
        }
    }
}

/// Asks a command.
fn asked<D: Desk>(alloc: Global, desk: &mut D, at: u64, words: &Words) -> Result<Reply, Why>
    requires near { D.remote ≡ false }
    requires open { IsOpen (D.fault desk.old) (D.stopped desk.old) }
    requires moment { at < 2 ^ 40 }
    requires words { IsWithinLimits words.now }
    ensures ok { IfOk result (λ reply. D.goes desk.old (DidAsk at words.now reply ∷ []) desk.new) }
    ensures err { OnErr result (D.goes desk.old [] desk.new) }
    ensures open { OnOk result (IsOpen (D.fault desk.new) (D.stopped desk.new)) }
    ensures why { IfErr result (IsDeskWhy D.shared (D.fault desk.new)) }
{
    match desk.ask(alloc, at, words) {
        Ok(reply) => Ok(reply),
        Err(fault) => Err(why_of(fault)),
    }
}

/// Why a session ends where its desk, which was open and isn't remote, answered this.
fn why_of(fault: DeskFault) -> Why
    ensures { (shared : Bool) → IsNearFault shared fault → IsDeskWhy shared (Some fault) result }
{
    match fault {
        DeskFault::Full { entries, bytes } => Why::Full { entries, bytes },
        DeskFault::Closed => Why::Closed,
        DeskFault::Link
        | DeskFault::Wire { .. }
        | DeskFault::Flood
        | DeskFault::Ended
        | DeskFault::Memory => Why::Memory,
    }
}

/// Appends the bytes of a reply: the values that were pushed before it, and the answer.
pub fn reply_onto(alloc: Global, out: &mut Vec<u8>, reply: &Reply) -> Result<(), AllocError>
    ensures { OnOk result (out.new.items ≡ out.old.items ++ reply_bytes reply.now) }
{
    for value in reply.pushed.as_slice() {
        encode_onto(alloc, out, value)?;
    }
    encode_onto(alloc, out, &reply.answer)
}
