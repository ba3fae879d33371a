//! Asking a store all values that are whole.
ghost use Rattle.std.specs.Prelude.{List, Ok, OnErr, OnOk, [], false, length, true, ℕ, ◌++◌, ◌<◌, ◌≡◌, ◌⊎◌};
ghost use Rattle.desks.specs.Faults.{IsOpen};
ghost use Rattle.plain_desk.specs.declared.desk.PlainDesk.{PlainDesk as ThePlainDesk};
ghost use Rattle.resp_wire.specs.Moves.{unread_of};
ghost use Rattle.resp_wire.specs.Stands.{Stands};
ghost use Rattle.wire_grammar.specs.Fits.{HasSpelling};
ghost use Rattle.sessions.specs.Askings.{HasAnsweredValue};
ghost use Rattle.sessions.specs.Talkings.{AnswersAll, AnswersNext, StandsSomewhere, Talks, TalksAll};
ghost use Rattle.local_links.specs.LocalTalks.{KeepsReplies, IsBeginning, IsReadyAt, Serves, desk_goes, sent_at, stage_after};
ghost use Rattle.local_links.specs.declared.link_stage.LinkStage.TheVariants.{Spent};

use crate::{LinkStage, StillClock};
use plain_desk::PlainDesk;
use resp_wire::WireFault;
use sessions::{Talking, Why, answer};
use std::alloc::{AllocError, Global};
use wire_values::{Bytes, Value};

/// Asks what a value spells that isn't needed any more.
fn answer_value(
    alloc: Global,
    desk: &mut PlainDesk,
    value: Value,
    out: &mut Vec<u8>,
    commands: &mut u64,
) -> Result<(), Why>
    requires open { IsOpen desk.old.standing.fault desk.old.standing.stopped }
    requires spelled { HasSpelling value }
    ensures answered { HasAnsweredValue desk_goes IsBeginning false desk.new.standing.fault desk.old desk.new value out.old.items out.new.items commands.old commands.new result }
    ensures open { OnOk result (IsOpen desk.new.standing.fault desk.new.standing.stopped) }
{
    answer(alloc, desk, &StillClock, &value, out, commands)
}

/// Asks the next value that is whole, and answers whether there was one; some bytes are left to be read.
fn answer_next(alloc: Global, desk: &mut PlainDesk, talking: &mut Talking) -> Result<bool, Why>
    requires open { IsOpen desk.old.standing.fault desk.old.standing.stopped }
    requires placed { ∥ StandsSomewhere talking.old.decoder ∥₁ }
    requires some { (before : ℕ) (rest : List ℕ) → Stands talking.old.decoder before rest → 0 < length rest }
    ensures less { result ≡ Ok true → unread_of talking.new.decoder < unread_of talking.old.decoder }
    ensures open { OnOk result (IsOpen desk.new.standing.fault desk.new.standing.stopped) }
    ensures placed { OnOk result (∥ StandsSomewhere talking.new.decoder ∥₁) }
    ensures answers { (first : ThePlainDesk) (stream sent : List ℕ) → Talks desk_goes IsBeginning first desk.old stream sent talking.old
        → AnswersNext desk_goes IsBeginning false desk.new.standing.fault first desk.new stream sent talking.new result }
{
    match talking.decoder.next(alloc) {
        Ok(Some(value)) => {
            let out = &mut talking.out;
            match answer_value(alloc, desk, value, out, &mut talking.commands) {
                Ok(()) => Ok(true),
                Err(why) => Err(why),
            }
        }
        Ok(None) => Ok(false),
        Err(WireFault::Bad { kind, place }) => Err(Why::Wire { kind, place }),
        Err(WireFault::Memory) => Err(Why::Memory),
    }
}

/// Asks all values that are whole, one after the other, until one is no command, what follows is no RESP2, or memory is
/// wanting.
fn answer_all(alloc: Global, desk: &mut PlainDesk, talking: &mut Talking) -> Result<(), Why>
    requires open { IsOpen desk.old.standing.fault desk.old.standing.stopped }
    requires placed { ∥ StandsSomewhere talking.old.decoder ∥₁ }
    ensures open { OnOk result (IsOpen desk.new.standing.fault desk.new.standing.stopped) }
    ensures answers { (first : ThePlainDesk) (stream sent : List ℕ) → Talks desk_goes IsBeginning first desk.old stream sent talking.old
        → AnswersAll desk_goes IsBeginning false desk.new.standing.fault first desk.new stream sent talking.new result }
{
    'values: while talking.decoder.pending() > 0 {
        match answer_next(alloc, desk, talking) {
            Ok(true) => {}
            Ok(false) => return Ok(()),
            Err(why) => return Err(why),
        }
    }
    Ok(())
}

/// How far is asked after that.
fn stage_after(answered: Result<(), Why>) -> LinkStage
    ensures { result ≡ stage_after answered }
{
    match answered {
        Ok(()) => LinkStage::Asks,
        Err(Why::NotWords | Why::Wire { .. }) => LinkStage::Over,
        Err(Why::Ended | Why::Turns | Why::Link | Why::Full { .. } | Why::Closed | Why::Memory) =>
            LinkStage::Spent,
    }
}

/// Asks all values that are whole with this piece.
fn hear(alloc: Global, desk: &mut PlainDesk, talking: &mut Talking, piece: &[u8]) -> LinkStage
    requires open { IsOpen desk.old.standing.fault desk.old.standing.stopped }
    requires placed { ∥ StandsSomewhere talking.old.decoder ∥₁ }
    ensures served { (first : ThePlainDesk) (sent replies : List ℕ) → TalksAll desk_goes IsBeginning first desk.old sent replies talking.old
        → Serves first desk.new (sent_at result sent piece.now) replies talking.new result }
{
    match talking.decoder.feed(alloc, piece) {
        Ok(()) => {
            let answered = answer_all(alloc, desk, talking);
            stage_after(answered)
        }
        Err(_) => LinkStage::Spent,
    }
}

/// Takes a piece that was sent: where values are asked, asks all that are whole with it.
pub(crate) fn take(
    alloc: Global,
    desk: &mut PlainDesk,
    talking: &mut Talking,
    stage: LinkStage,
    piece: &[u8],
) -> LinkStage
    requires ready { IsReadyAt stage desk.old talking.old }
    ensures served { (first : ThePlainDesk) (sent replies : List ℕ) → Serves first desk.old sent replies talking.old stage
        → Serves first desk.new (sent_at result sent piece.now) replies talking.new result }
    ensures spent { stage ≡ Spent → result ≡ Spent }
{
    match stage {
        LinkStage::Asks => hear(alloc, desk, talking, piece),
        LinkStage::Over => LinkStage::Over,
        LinkStage::Spent => LinkStage::Spent,
    }
}

/// Puts bytes of replies behind the others, and a piece behind what was sent.
fn append(
    alloc: Global,
    out: &[u8],
    replies: &mut Bytes,
    sent: &mut Bytes,
    piece: &[u8],
) -> Result<(), AllocError>
    ensures ok { OnOk result ((replies.new ≡ replies.old ++ out.now) × (sent.new ≡ sent.old ++ piece.now)) }
    ensures err { OnErr result (((replies.new ≡ replies.old) ⊎ (replies.new ≡ replies.old ++ out.now)) × (sent.new ≡ sent.old)) }
{
    replies.extend(alloc, out)?;
    sent.extend(alloc, piece)
}

/// Puts the bytes of replies behind the others and the piece behind what was sent, unless memory was wanting before; and
/// empties `out`. Where memory is wanting now the piece wasn't sent.
pub(crate) fn keep(
    alloc: Global,
    stage: LinkStage,
    out: &mut Vec<u8>,
    replies: &mut Bytes,
    sent: &mut Bytes,
    piece: &[u8],
) -> LinkStage
    ensures emptied { out.new.items ≡ [] }
    ensures kept { KeepsReplies stage out.old.items replies.old replies.new sent.old sent.new piece.now result }
    ensures spent { stage ≡ Spent → result ≡ Spent }
{
    let after = keep_at(alloc, stage, out.as_slice(), replies, sent, piece);
    out.clear();
    after
}

/// The same, by how far is asked.
fn keep_at(
    alloc: Global,
    stage: LinkStage,
    out: &[u8],
    replies: &mut Bytes,
    sent: &mut Bytes,
    piece: &[u8],
) -> LinkStage
    ensures kept { KeepsReplies stage out.now replies.old replies.new sent.old sent.new piece.now result }
    ensures spent { stage ≡ Spent → result ≡ Spent }
{
    match stage {
        LinkStage::Asks | LinkStage::Over => {
            match append(alloc, out, replies, sent, piece) {
                Ok(()) => stage,
                Err(_) => LinkStage::Spent,
            }
        }
        LinkStage::Spent => LinkStage::Spent,
    }
}
