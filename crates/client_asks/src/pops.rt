//! Words of pops and of ends.
ghost use Rattle.std.specs.Prelude.{◌≡◌, ℕ, IfOk, is_some, true};
ghost use Rattle.envelope.specs.Bodies.{tag_of_bytes};
ghost use Rattle.manner_laws.specs.Spots.{End_begun, End_removed, Filled, Pop_begun, Pop_indexed, Popped};
ghost use Rattle.client_asks.specs.Asks.{IsAskedAt};

use crate::tagged::said_tag;
use client_spots::{Awaited, ClientSpot, Stand};
use manner_texts::{read_popped, says_four, says_one, says_three};
use std::alloc::{AllocError, Global};
use store_model::MOMENT_LIMIT;
use wire_values::Bytes;

/// After a message was popped.
pub fn ask_popped(spot: &mut ClientSpot, words: &[Bytes]) -> Option<Awaited>
    ensures { (at : ℕ) → IsAskedAt (Popped spot.old.drawn spot.old.passes spot.old.envelope spot.old.tag) spot.old at words.now spot.new result }
{
    if !says_one(words, b"MULTI") {
        return None;
    }
    spot.stand = Stand::PopBegun;
    Some(Awaited::Consent)
}

/// Where a pop's transaction begins.
pub fn ask_pop_begun(
    spot: &mut ClientSpot,
    alloc: Global,
    at: u64,
    words: &[Bytes],
) -> Result<Option<Awaited>, AllocError>
    ensures { IfOk result (IsAskedAt (Pop_begun spot.old.drawn spot.old.passes spot.old.envelope spot.old.tag) spot.old at words.now spot.new) }
{
    if at >= MOMENT_LIMIT {
        return Ok(None);
    }
    let moment = format!(in alloc; "{at}")?;
    if !says_four(
        words,
        b"ZADD",
        b"unacked_index",
        moment.as_bytes(),
        spot.tag.as_slice(),
    ) {
        return Ok(None);
    }
    spot.stand = Stand::PopIndexed;
    Ok(Some(Awaited::Queueing))
}

/// Where the index has the popped message.
pub fn ask_pop_indexed(
    spot: &mut ClientSpot,
    alloc: Global,
    words: &[Bytes],
) -> Result<Option<Awaited>, AllocError>
    requires { is_some (tag_of_bytes spot.old.envelope) ≡ true }
    ensures { (at : ℕ) → IfOk result (IsAskedAt (Pop_indexed spot.old.drawn spot.old.passes spot.old.envelope spot.old.tag) spot.old at words.now spot.new) }
{
    let Some(message) = read_popped(alloc, spot.envelope.as_slice())? else {
        return Ok(None);
    };
    if !says_four(
        words,
        b"HSET",
        b"unacked",
        spot.tag.as_slice(),
        message.entry.as_slice(),
    ) {
        return Ok(None);
    }
    spot.stand = Stand::Filled;
    Ok(Some(Awaited::Queueing))
}

/// Where an end's transaction begins.
pub fn ask_end_begun(
    spot: &mut ClientSpot,
    alloc: Global,
    words: &[Bytes],
) -> Result<Option<Awaited>, AllocError>
    ensures { (at : ℕ) → IfOk result (IsAskedAt (End_begun spot.old.drawn spot.old.passes) spot.old at words.now spot.new) }
{
    let Some(tag) = said_tag(words, b"ZREM", b"unacked_index") else {
        return Ok(None);
    };
    spot.tag = Bytes::from_slice(alloc, tag)?;
    spot.stand = Stand::EndRemoved;
    Ok(Some(Awaited::Queueing))
}

/// Where the index has the message no more.
pub fn ask_end_removed(spot: &mut ClientSpot, words: &[Bytes]) -> Option<Awaited>
    ensures { (at : ℕ) → IsAskedAt (End_removed spot.old.drawn spot.old.passes spot.old.tag) spot.old at words.now spot.new result }
{
    if !says_three(words, b"HDEL", b"unacked", spot.tag.as_slice()) {
        return None;
    }
    spot.stand = Stand::Filled;
    Some(Awaited::Queueing)
}

/// Where the transaction of a pop or an end is whole.
pub fn ask_filled(spot: &mut ClientSpot, words: &[Bytes]) -> Option<Awaited>
    ensures { (at : ℕ) → IsAskedAt (Filled spot.old.drawn spot.old.passes) spot.old at words.now spot.new result }
{
    if !says_one(words, b"EXEC") {
        return None;
    }
    spot.stand = Stand::Free;
    Some(Awaited::Counts)
}
