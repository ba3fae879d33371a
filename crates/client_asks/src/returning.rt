//! Words of returns.
ghost use Rattle.std.specs.Prelude.{◌≡◌, ℕ, List, IfOk};
ghost use Rattle.manner_laws.specs.Spots.{Asking, Leaving, Looking, Putting, Waiting, Watched, routed, sided};
ghost use Rattle.manner_laws.specs.Cursor.{side_for};
ghost use Rattle.command_blocks.specs.Calls.{push_word};
ghost use Rattle.client_spots.specs.Stands.{job_by, job_of, return_begun, return_removed};
ghost use Rattle.client_asks.specs.Asks.{IsAskedAt};

use crate::rest::rest_of;
use crate::tagged::said_tag;
use client_answers::finish;
use client_spots::{Awaited, ClientSpot, Stand, Tried};
use command_blocks::Side;
use lookups::binding_key;
use manner_texts::{is_command, says_one, says_three, says_two};
use std::alloc::{AllocError, Global};
use wire_values::Bytes;

/// Where a return that hasn't shown its tag watches the table.
pub fn ask_looking(
    spot: &mut ClientSpot,
    alloc: Global,
    words: &[Bytes],
) -> Result<Option<Awaited>, AllocError>
    ensures { (at : ℕ) → IfOk result (IsAskedAt (Looking spot.old.drawn spot.old.passes) spot.old at words.now spot.new) }
{
    let Some(tag) = said_tag(words, b"HGET", b"unacked") else {
        return Ok(None);
    };
    spot.tag = Bytes::from_slice(alloc, tag)?;
    spot.tried = Tried::Open;
    spot.tries = 0;
    Ok(Some(Awaited::Entry))
}

/// Before a try.
pub fn ask_waiting(spot: &mut ClientSpot, words: &[Bytes]) -> Option<Awaited>
    ensures { (at : ℕ) → IsAskedAt (Waiting spot.old.drawn spot.old.passes (job_of spot.old) spot.old.tries) spot.old at words.now spot.new result }
{
    if !says_two(words, b"WATCH", b"unacked") {
        return None;
    }
    spot.stand = Stand::Watched;
    Some(Awaited::Consent)
}

/// Where a try watches the table.
pub fn ask_watched(spot: &mut ClientSpot, words: &[Bytes]) -> Option<Awaited>
    ensures { (at : ℕ) → IsAskedAt (Watched spot.old.drawn spot.old.passes (job_of spot.old) spot.old.tries) spot.old at words.now spot.new result }
{
    if !says_three(words, b"HGET", b"unacked", spot.tag.as_slice()) {
        return None;
    }
    Some(Awaited::Entry)
}

/// Where a return leaves.
pub fn ask_leaving(spot: &mut ClientSpot, words: &[Bytes]) -> Option<Awaited>
    ensures { (at : ℕ) → IsAskedAt (Leaving spot.old.drawn spot.old.passes (job_of spot.old)) spot.old at words.now spot.new result }
{
    if !says_one(words, b"UNWATCH") {
        return None;
    }
    finish(spot);
    Some(Awaited::Consent)
}

/// Where a return asks for the bindings of its entry's exchange.
pub fn ask_asking(
    spot: &mut ClientSpot,
    alloc: Global,
    words: &[Bytes],
) -> Result<Option<Awaited>, AllocError>
    ensures { (at : ℕ) → IfOk result (IsAskedAt (Asking spot.old.drawn spot.old.passes (job_of spot.old) spot.old.tries spot.old.entry spot.old.envelope spot.old.exchange) spot.old at words.now spot.new) }
{
    let key = binding_key(alloc, spot.exchange.as_slice())?;
    if !says_two(words, b"SMEMBERS", key.as_slice()) {
        return Ok(None);
    }
    Ok(Some(Awaited::Routes))
}

/// Where a return knows its keys.
pub fn ask_ready(spot: &mut ClientSpot, words: &[Bytes]) -> Option<Awaited>
    ensures { (at : ℕ) → IsAskedAt (routed spot.old.drawn spot.old.passes (job_of spot.old) spot.old.tries spot.old.envelope spot.old.keys) spot.old at words.now spot.new result }
{
    match spot.keys.as_slice() {
        [] => ask_leaving(spot, words),
        [_, ..] => {
            if !says_one(words, b"MULTI") {
                return None;
            }
            spot.stand = Stand::Begun;
            Some(Awaited::Consent)
        }
    }
}

/// Where a return's transaction begins.
pub fn ask_begun(spot: &mut ClientSpot, words: &[Bytes]) -> Option<Awaited>
    ensures { (at : ℕ) → IsAskedAt (return_begun spot.old.drawn spot.old.passes (job_of spot.old) spot.old.tries spot.old.envelope spot.old.keys) spot.old at words.now spot.new result }
{
    match spot.keys.as_slice() {
        [] => ask_leaving(spot, words),
        [_, ..] => {
            if !says_three(words, b"ZREM", b"unacked_index", spot.tag.as_slice()) {
                return None;
            }
            spot.stand = Stand::Removed;
            Some(Awaited::Queueing)
        }
    }
}

/// Where the index has the message no more.
pub fn ask_removed(spot: &mut ClientSpot, words: &[Bytes]) -> Option<Awaited>
    ensures { (at : ℕ) → IsAskedAt (return_removed spot.old.drawn spot.old.passes (job_of spot.old) spot.old.tries spot.old.envelope spot.old.keys) spot.old at words.now spot.new result }
{
    match spot.keys.as_slice() {
        [] => ask_leaving(spot, words),
        [_, ..] => {
            if !says_three(words, b"HDEL", b"unacked", spot.tag.as_slice()) {
                return None;
            }
            spot.stand = Stand::Putting;
            Some(Awaited::Queueing)
        }
    }
}

/// Where the message is pushed to its keys, or was to all of them.
pub fn ask_putting(
    spot: &mut ClientSpot,
    alloc: Global,
    words: &[Bytes],
) -> Result<Option<Awaited>, AllocError>
    ensures { (at : ℕ) → IfOk result (IsAskedAt (Putting spot.old.drawn spot.old.passes (job_of spot.old) spot.old.tries spot.old.envelope spot.old.keys) spot.old at words.now spot.new) }
{
    let side = side_for(spot.tried, words);
    match spot.keys.as_slice() {
        [] => {
            if !says_one(words, b"EXEC") {
                return Ok(None);
            }
            Ok(Some(Awaited::Move))
        }
        [key, rest @ ..] => {
            if !says_three(
                words,
                push_word(side),
                key.as_slice(),
                spot.envelope.as_slice(),
            ) {
                return Ok(None);
            }
            spot.keys = rest_of(alloc, rest)?;
            spot.tried = sided(spot.tried, side);
            spot.stand = Stand::Putting;
            Ok(Some(Awaited::Queueing))
        }
    }
}

/// The side at which a return pushes, which the words show where it isn't known.
fn side_for(tried: Tried, words: &[Bytes]) -> Side
    ensures { (tag : List ℕ) (tags : List (List ℕ)) → result ≡ side_for (job_by tried tag tags) words.now }
{
    match tried {
        Tried::Open => {
            if is_command(b"LPUSH", words) {
                Side::Left
            } else {
                Side::Right
            }
        }
        Tried::Left => Side::Left,
        Tried::Right => Side::Right,
        Tried::OfPass => Side::Right,
    }
}

/// The command that pushes at a side.
fn push_word(side: Side) -> &'static [u8]
    ensures { result.now ≡ push_word side }
{
    match side {
        Side::Left => b"LPUSH",
        Side::Right => b"RPUSH",
    }
}

/// The same, once it has pushed at this side.
fn sided(tried: Tried, side: Side) -> Tried
    ensures { (tag : List ℕ) (tags : List (List ℕ)) → job_by result tag tags ≡ sided (job_by tried tag tags) side }
{
    match tried {
        Tried::Open => match side {
            Side::Left => Tried::Left,
            Side::Right => Tried::Right,
        },
        Tried::Left => Tried::Left,
        Tried::Right => Tried::Right,
        Tried::OfPass => Tried::OfPass,
    }
}
