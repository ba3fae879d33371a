//! Answers to the look-ups of a return.
ghost use Rattle.std.specs.Prelude.{◌≡◌, IfOk, OnOk, Some};
ghost use Rattle.command_blocks.specs.EnvelopeTexts.{plain_setting};
ghost use Rattle.manner_laws.specs.Cursor.{entry_spot};
ghost use Rattle.manner_laws.specs.Spots.{Entry, Routes};
ghost use Rattle.manner_texts.specs.Ways.{TellsKept};
ghost use Rattle.client_spots.specs.Stands.{job_of};
ghost use Rattle.client_answers.specs.Leads.{IsAt, IsLed};

use crate::values::{bulk_texts, is_null_bulk};
use block_words::bulk;
use client_spots::{ClientSpot, Stand};
use manner_texts::{KeptMessage, read_kept, read_way};
use std::alloc::{AllocError, Global};
use wire_values::{Bytes, Value, Words};

/// An entry of the table, or none.
pub(crate) fn entry(
    spot: &mut ClientSpot,
    alloc: Global,
    answer: &Value,
) -> Result<bool, AllocError>
    ensures { IfOk result (IsLed spot.old (Entry spot.old.drawn spot.old.passes (job_of spot.old) spot.old.tries) answer.now spot.new) }
{
    if is_null_bulk(answer) {
        spot.stand = Stand::Leaving;
        return Ok(true);
    }
    match bulk(answer) {
        Some(text) => {
            read(spot, alloc, text)?;
            Ok(true)
        }
        None => Ok(false),
    }
}

/// After this entry was read.
fn read(spot: &mut ClientSpot, alloc: Global, text: &[u8]) -> Result<(), AllocError>
    ensures { OnOk result (IsAt spot.old (entry_spot plain_setting spot.old.drawn spot.old.passes (job_of spot.old) spot.old.tries text.now) spot.new) }
{
    match read_kept(alloc, text, spot.tag.as_slice())? {
        Some(message) => kept(spot, alloc, text, &message),
        None => {
            spot.stand = Stand::Leaving;
            Ok(())
        }
    }
}

/// After an entry was read that carries this message.
fn kept(
    spot: &mut ClientSpot,
    alloc: Global,
    text: &[u8],
    message: &KeptMessage,
) -> Result<(), AllocError>
    requires { TellsKept spot.old.tag text.now (Some message.now) }
    ensures { OnOk result (IsAt spot.old (entry_spot plain_setting spot.old.drawn spot.old.passes (job_of spot.old) spot.old.tries text.now) spot.new) }
{
    spot.envelope = message.text.copy(alloc)?;
    if message.way.exchange.is_empty() {
        spot.keys = message.way.keys(alloc, &[])?;
        spot.stand = Stand::Ready;
    } else {
        spot.exchange = message.way.exchange.copy(alloc)?;
        spot.entry = Bytes::from_slice(alloc, text)?;
        spot.stand = Stand::Asking;
    }
    Ok(())
}

/// The bindings of an entry's exchange.
pub(crate) fn routes(
    spot: &mut ClientSpot,
    alloc: Global,
    answer: &Value,
) -> Result<bool, AllocError>
    ensures { IfOk result (IsLed spot.old (Routes spot.old.drawn spot.old.passes (job_of spot.old) spot.old.tries spot.old.entry spot.old.envelope) answer.now spot.new) }
{
    match bulk_texts(alloc, answer)? {
        Some(members) => {
            spot.keys = keys_in(alloc, spot.entry.as_slice(), members.as_slice())?;
            spot.stand = Stand::Ready;
            Ok(true)
        }
        None => Ok(false),
    }
}

/// The keys to which an entry's message returns.
fn keys_in(alloc: Global, text: &[u8], members: &[Bytes]) -> Result<Words, AllocError>
    ensures { IfOk result (λ keys. keys ≡ plain_setting.keys_in text.now members.now) }
{
    match read_way(alloc, text)? {
        Some(way) => way.keys(alloc, members),
        None => Ok(Words::new()),
    }
}
