//! The words of the commands of a pass.
ghost use Rattle.std.specs.Prelude.{◌≡◌, ◌∷◌, ◌++◌, [], ℕ, IfOk, OnOk, Some, string_bytes};
ghost use Rattle.queue_keys.specs.Texts.{difference};
ghost use Rattle.wire_grammar.specs.Fits.{IsWithinLimits};
ghost use Rattle.command_blocks.specs.EnvelopeTexts.{plain_setting};
ghost use Rattle.command_blocks.specs.PassBlocks.{due_words, lock_words};
ghost use Rattle.command_blocks.specs.Scripts.{next_words};
ghost use Rattle.passes.specs.Releases.{range_of, release_left};

use crate::release::Release;
use crate::terms::Terms;
use block_words::{one_word, three_words, two_words};
use std::alloc::{AllocError, Global};
use wire_values::{Bytes, Words};

/// SET of the mutex, where nobody has it, for 300 seconds.
pub(crate) fn lock_words(alloc: Global, terms: &Terms) -> Result<Words, AllocError>
    ensures words { IfOk result (λ words. words ≡ lock_words plain_setting terms.now.token) }
    ensures limits { IfOk result (λ words. IsWithinLimits words) }
{
    let words = three_words(alloc, b"SET", b"unacked_mutex", terms.token.as_slice())?;
    with_three(alloc, words, b"NX", b"EX", b"300")
}

/// ZREVRANGEBYSCORE of the index: of the tags that were taken at least the visibility timeout before this moment the
/// ten youngest.
pub(crate) fn due_words(alloc: Global, terms: &Terms, at: u64) -> Result<Words, AllocError>
    ensures words { IfOk result (λ words. words ≡ due_words plain_setting at terms.now.visibility) }
    ensures limits { IfOk result (λ words. IsWithinLimits words) }
{
    let bound = difference_text(alloc, at, u64::from(terms.visibility))?;
    range_words(alloc, bound.as_bytes())
}

/// ZREVRANGEBYSCORE of the index up to this score.
fn range_words(alloc: Global, bound: &[u8]) -> Result<Words, AllocError>
    ensures { IfOk result (λ words. words ≡ range_of bound.now) }
{
    let words = three_words(alloc, b"ZREVRANGEBYSCORE", b"unacked_index", bound)?;
    let mut words = with_three(alloc, words, b"0", b"LIMIT", b"0")?;
    words.push(alloc, Bytes::from_slice(alloc, b"10")?)?;
    Ok(words)
}

/// Three more words.
fn with_three(
    alloc: Global,
    words: Words,
    first: &[u8],
    second: &[u8],
    third: &[u8],
) -> Result<Words, AllocError>
    ensures { IfOk result (λ all. all ≡ words ++ first.now ∷ second.now ∷ third.now ∷ []) }
{
    let mut words = words;
    add(alloc, &mut words, first)?;
    add(alloc, &mut words, second)?;
    add(alloc, &mut words, third)?;
    Ok(words)
}

/// Adds a copy of a word.
fn add(alloc: Global, words: &mut Words, word: &[u8]) -> Result<(), AllocError>
    ensures { OnOk result (words.new ≡ words.old ++ word.now ∷ []) }
{
    words.push(alloc, Bytes::from_slice(alloc, word)?)?;
    Ok(())
}

/// The text of a number less another, in decimal with a sign where it is negative.
fn difference_text(alloc: Global, from: u64, less: u64) -> Result<String, AllocError>
    ensures { IfOk result (λ text. string_bytes text ≡ difference from less) }
{
    if less <= from {
        let above = from - less;
        format!(in alloc; "{above}")
    } else {
        let below = less - from;
        format!(in alloc; "-{below}")
    }
}

/// A command of a release.
pub(crate) fn release_words(
    alloc: Global,
    terms: &Terms,
    release: Release,
) -> Result<Words, AllocError>
    ensures words { IfOk result (λ words. (at : ℕ)
        → Some words ≡ next_words (release_left terms.now.token release) at) }
    ensures limits { IfOk result (λ words. IsWithinLimits words) }
{
    match release {
        Release::Watch => two_words(alloc, b"WATCH", b"unacked_mutex"),
        Release::Read => two_words(alloc, b"GET", b"unacked_mutex"),
        Release::Begin => one_word(alloc, b"MULTI"),
        Release::Remove => two_words(alloc, b"DEL", b"unacked_mutex"),
        Release::Run => one_word(alloc, b"EXEC"),
        Release::Leave => one_word(alloc, b"UNWATCH"),
    }
}
