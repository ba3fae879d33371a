//! Answers to the commands of a pass.
ghost use Rattle.std.specs.Prelude.{◌≡◌, ◌∷◌, ◌++◌, [], IfOk, OnOk, suc};
ghost use Rattle.command_blocks.specs.EnvelopeTexts.{plain_setting};
ghost use Rattle.command_blocks.specs.PassBlocks.{tags_among};
ghost use Rattle.manner_laws.specs.Cursor.{holder_spot};
ghost use Rattle.manner_laws.specs.Spots.{Due, Free, Holder, Lock, Release};
ghost use Rattle.queue_keys.specs.Texts.{token};
ghost use Rattle.client_answers.specs.Leads.{IsAt, IsLed};

use crate::values::{are_equal, bulk_texts, is_array, is_null_array, is_null_bulk, is_status};
use block_words::bulk;
use client_spots::{ClientSpot, Stand};
use manner_texts::is_tag;
use passes::pass_token;
use std::alloc::{AllocError, Global};
use wire_values::{Bytes, Value, Words};

/// The mutex.
pub(crate) fn lock(spot: &mut ClientSpot, answer: &Value) -> Result<bool, AllocError>
    ensures { IfOk result (IsLed spot.old (Lock spot.old.drawn spot.old.passes) answer.now spot.new) }
{
    if is_null_bulk(answer) {
        end_pass(spot)?;
        return Ok(true);
    }
    if !is_status(b"OK", answer) {
        return Ok(false);
    }
    spot.stand = Stand::Locked;
    Ok(true)
}

/// After a pass. Want of memory where it was the last that can be counted.
fn end_pass(spot: &mut ClientSpot) -> Result<(), AllocError>
    ensures { OnOk result (IsAt spot.old (Free spot.old.drawn (suc spot.old.passes)) spot.new) }
{
    if spot.passes == u64::MAX {
        return Err(AllocError);
    }
    spot.passes += 1;
    spot.stand = Stand::Free;
    Ok(())
}

/// Members of the index.
pub(crate) fn due(spot: &mut ClientSpot, alloc: Global, answer: &Value) -> Result<bool, AllocError>
    ensures { IfOk result (IsLed spot.old (Due spot.old.drawn spot.old.passes) answer.now spot.new) }
{
    match bulk_texts(alloc, answer)? {
        Some(members) => {
            spot.tags = tags_among(alloc, members.as_slice())?;
            spot.stand = Stand::Turning;
            Ok(true)
        }
        None => Ok(false),
    }
}

/// Those of the texts that are tags.
fn tags_among(alloc: Global, texts: &[Bytes]) -> Result<Words, AllocError>
    ensures { IfOk result (λ tags. tags ≡ tags_among plain_setting texts.now) }
{
    let mut tags = Words::new();
    for text in texts {
        add_tag(alloc, &mut tags, text.as_slice())?;
    }
    Ok(tags)
}

/// Adds a text that is a tag.
fn add_tag(alloc: Global, tags: &mut Words, text: &[u8]) -> Result<(), AllocError>
    ensures { OnOk result (tags.new ≡ tags.old ++ tags_among plain_setting (text.now ∷ [])) }
{
    if is_tag(text) {
        tags.push(alloc, Bytes::from_slice(alloc, text)?)?;
    }
    Ok(())
}

/// The mutex's holder.
pub(crate) fn holder(
    spot: &mut ClientSpot,
    alloc: Global,
    answer: &Value,
) -> Result<bool, AllocError>
    ensures { IfOk result (IsLed spot.old (Holder spot.old.drawn spot.old.passes) answer.now spot.new) }
{
    if is_null_bulk(answer) {
        spot.stand = Stand::Foreign;
        return Ok(true);
    }
    match bulk(answer) {
        Some(text) => {
            held(spot, alloc, text)?;
            Ok(true)
        }
        None => Ok(false),
    }
}

/// After the mutex was found to hold this text.
fn held(spot: &mut ClientSpot, alloc: Global, text: &[u8]) -> Result<(), AllocError>
    ensures { OnOk result (IsAt spot.old (holder_spot spot.old.seed spot.old.drawn spot.old.passes text.now) spot.new) }
{
    let own = own_token(alloc, spot.seed, spot.passes)?;
    spot.stand = if are_equal(own.as_slice(), text) {
        Stand::Own
    } else {
        Stand::Foreign
    };
    Ok(())
}

/// The token of the pass after so many.
#[tactic(auto, using(crate::proofs::Texts::held_token))]
fn own_token(alloc: Global, seed: u64, passes: u64) -> Result<Bytes, AllocError>
    ensures { IfOk result (λ own. own ≡ token seed (suc passes)) }
{
    pass_token(alloc, seed, passes.saturating_add(1))
}

/// The transaction that lets go of the mutex.
pub(crate) fn release(spot: &mut ClientSpot, answer: &Value) -> Result<bool, AllocError>
    ensures { IfOk result (IsLed spot.old (Release spot.old.drawn spot.old.passes) answer.now spot.new) }
{
    if is_null_array(answer) {
        end_pass(spot)?;
        return Ok(true);
    }
    if !is_array(answer) {
        return Ok(false);
    }
    end_pass(spot)?;
    Ok(true)
}
