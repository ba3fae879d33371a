//! The words of the commands of a return.
ghost use Rattle.std.specs.Prelude.{◌≡◌, ◌∷◌, [], ℕ, codes, drop, IfOk, Some};
ghost use Rattle.delivery_tags.specs.Tags.{tag_text};
ghost use Rattle.queue_keys.specs.Layouts.{plain};
ghost use Rattle.queue_keys.specs.QueueKeys.{binding_key};
ghost use Rattle.wire_grammar.specs.Fits.{IsWithinLimits};
ghost use Rattle.command_blocks.specs.Calls.{push_word};
ghost use Rattle.command_blocks.specs.Scripts.{Script, next_words};
ghost use Rattle.returns.specs.Spots.{point_left, pushed_words, spot_left};

use crate::carried::{Carried, Keys};
use crate::spot::{Aim, Point, Spot};
use block_words::{one_word, three_words, two_words};
use command_blocks::Side;
use lookups::binding_key;
use std::alloc::{AllocError, Global};
use wire_values::{Bytes, Words};

/// The command of a spot.
pub(crate) fn spot_words(alloc: Global, aim: Aim, spot: &Spot) -> Result<Words, AllocError>
    ensures words { IfOk result (λ words. (ended stuck : Script) (at : ℕ)
        → Some words ≡ next_words (spot_left ended stuck aim spot.now) at) }
    ensures limits { IfOk result (λ words. IsWithinLimits words) }
{
    match spot {
        Spot::Watch => watch_words(alloc),
        Spot::Read => read_words(alloc, aim),
        Spot::Ask(carried) => ask_words(alloc, carried),
        Spot::Take(carried, keys, point) => take_words(alloc, aim, carried, keys, *point),
        Spot::Leave(_) => leave_words(alloc),
    }
}

/// WATCH of the table.
fn watch_words(alloc: Global) -> Result<Words, AllocError>
    ensures words { IfOk result (λ words. words ≡ codes "WATCH" ∷ codes "unacked" ∷ []) }
    ensures limits { IfOk result (λ words. IsWithinLimits words) }
{
    two_words(alloc, b"WATCH", b"unacked")
}

/// HGET of the entry.
fn read_words(alloc: Global, aim: Aim) -> Result<Words, AllocError>
    ensures words { IfOk result (λ words. words
        ≡ codes "HGET" ∷ codes "unacked" ∷ tag_text aim.tag.0 ∷ []) }
    ensures limits { IfOk result (λ words. IsWithinLimits words) }
{
    three_words(alloc, b"HGET", b"unacked", aim.tag.text().as_slice())
}

/// UNWATCH.
fn leave_words(alloc: Global) -> Result<Words, AllocError>
    ensures words { IfOk result (λ words. words ≡ codes "UNWATCH" ∷ []) }
    ensures limits { IfOk result (λ words. IsWithinLimits words) }
{
    one_word(alloc, b"UNWATCH")
}

/// SMEMBERS of the bindings of the entry's exchange.
fn ask_words(alloc: Global, carried: &Carried) -> Result<Words, AllocError>
    ensures words { IfOk result (λ words. words
        ≡ codes "SMEMBERS" ∷ binding_key plain carried.now.exchange ∷ []) }
    ensures limits { IfOk result (λ words. IsWithinLimits words) }
{
    let key = binding_key(alloc, carried.exchange.as_slice())?;
    two_words(alloc, b"SMEMBERS", key.as_slice())
}

/// A command of the transaction.
fn take_words(
    alloc: Global,
    aim: Aim,
    carried: &Carried,
    keys: &Keys,
    point: Point,
) -> Result<Words, AllocError>
    ensures words { IfOk result (λ words. (ended stuck : Script) (at : ℕ) → Some words
        ≡ next_words (point_left ended stuck aim carried.now.text keys.now.words point) at) }
    ensures limits { IfOk result (λ words. IsWithinLimits words) }
{
    match point {
        Point::Begin => one_word(alloc, b"MULTI"),
        Point::Index => three_words(alloc, b"ZREM", b"unacked_index", aim.tag.text().as_slice()),
        Point::Table => three_words(alloc, b"HDEL", b"unacked", aim.tag.text().as_slice()),
        Point::After(count) => push_words(alloc, aim.side, carried, keys, count),
    }
}

/// The push after so many, or EXEC after all.
fn push_words(
    alloc: Global,
    side: Side,
    carried: &Carried,
    keys: &Keys,
    count: usize,
) -> Result<Words, AllocError>
    ensures words { IfOk result (λ words. words ≡ pushed_words side carried.now.text (drop count keys.now.words)) }
    ensures limits { IfOk result (λ words. IsWithinLimits words) }
{
    pushed_words(
        alloc,
        side,
        carried.text.as_slice(),
        keys.words.as_slice(),
        count,
    )
}

/// The push of a text after so many of the keys, or EXEC after all.
fn pushed_words(
    alloc: Global,
    side: Side,
    text: &[u8],
    keys: &[Bytes],
    count: usize,
) -> Result<Words, AllocError>
    ensures { IfOk result (λ words. words ≡ pushed_words side text.now (drop count keys.now)) }
{
    match keys.get(count) {
        Some(key) => three_words(alloc, side_word(side), key.as_slice(), text),
        None => one_word(alloc, b"EXEC"),
    }
}

/// The name of the command that pushes at a side of a list.
fn side_word(side: Side) -> &'static [u8]
    ensures { result.now ≡ push_word side }
{
    match side {
        Side::Left => b"LPUSH",
        Side::Right => b"RPUSH",
    }
}
