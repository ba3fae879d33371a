//! Words of passes, once the index is read.
ghost use Rattle.std.specs.Prelude.{ℕ, IfOk};
ghost use Rattle.manner_laws.specs.Spots.{Release_begun, Release_deleted, Release_foreign, Release_own, Release_watched, Turning};
ghost use Rattle.client_asks.specs.Asks.{IsAskedAt};

use crate::rest::rest_of;
use client_spots::{Awaited, ClientSpot, Stand, Tried};
use manner_texts::{says_one, says_two};
use std::alloc::{AllocError, Global};
use wire_values::Bytes;

/// Where the tags are returned one after the other.
pub fn ask_turning(
    spot: &mut ClientSpot,
    alloc: Global,
    words: &[Bytes],
) -> Result<Option<Awaited>, AllocError>
    ensures { (at : ℕ) → IfOk result (IsAskedAt (Turning spot.old.drawn spot.old.passes spot.old.tags) spot.old at words.now spot.new) }
{
    match spot.tags.as_slice() {
        [] => {
            if !says_two(words, b"WATCH", b"unacked_mutex") {
                return Ok(None);
            }
            spot.stand = Stand::Releasing;
            Ok(Some(Awaited::Consent))
        }
        [tag, rest @ ..] => {
            if !says_two(words, b"WATCH", b"unacked") {
                return Ok(None);
            }
            spot.tag = tag.copy(alloc)?;
            spot.tags = rest_of(alloc, rest)?;
            spot.tried = Tried::OfPass;
            spot.tries = 0;
            spot.stand = Stand::Watched;
            Ok(Some(Awaited::Consent))
        }
    }
}

/// Where the mutex is watched.
pub fn ask_releasing(spot: &mut ClientSpot, words: &[Bytes]) -> Option<Awaited>
    ensures { (at : ℕ) → IsAskedAt (Release_watched spot.old.drawn spot.old.passes) spot.old at words.now spot.new result }
{
    if !says_two(words, b"GET", b"unacked_mutex") {
        return None;
    }
    Some(Awaited::Holder)
}

/// Where the mutex is the pass's own.
pub fn ask_own(spot: &mut ClientSpot, words: &[Bytes]) -> Option<Awaited>
    ensures { (at : ℕ) → IsAskedAt (Release_own spot.old.drawn spot.old.passes) spot.old at words.now spot.new result }
{
    if !says_one(words, b"MULTI") {
        return None;
    }
    spot.stand = Stand::ReleaseBegun;
    Some(Awaited::Consent)
}

/// Where the transaction begins that lets go of it.
pub fn ask_release_begun(spot: &mut ClientSpot, words: &[Bytes]) -> Option<Awaited>
    ensures { (at : ℕ) → IsAskedAt (Release_begun spot.old.drawn spot.old.passes) spot.old at words.now spot.new result }
{
    if !says_two(words, b"DEL", b"unacked_mutex") {
        return None;
    }
    spot.stand = Stand::ReleaseDeleted;
    Some(Awaited::Queueing)
}

/// Where it is whole.
pub fn ask_release_deleted(spot: &mut ClientSpot, words: &[Bytes]) -> Option<Awaited>
    ensures { (at : ℕ) → IsAskedAt (Release_deleted spot.old.drawn spot.old.passes) spot.old at words.now spot.new result }
{
    if !says_one(words, b"EXEC") {
        return None;
    }
    Some(Awaited::Release)
}

/// Where the mutex is another's. Want of memory where this was the last pass that can be counted.
pub fn ask_foreign(spot: &mut ClientSpot, words: &[Bytes]) -> Result<Option<Awaited>, AllocError>
    ensures { (at : ℕ) → IfOk result (IsAskedAt (Release_foreign spot.old.drawn spot.old.passes) spot.old at words.now spot.new) }
{
    if !says_one(words, b"UNWATCH") {
        return Ok(None);
    }
    if spot.passes == u64::MAX {
        return Err(AllocError);
    }
    spot.passes += 1;
    spot.stand = Stand::Free;
    Ok(Some(Awaited::Consent))
}
