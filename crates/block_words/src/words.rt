//! The words of commands.
ghost use Rattle.std.specs.Prelude.{◌≡◌, [], ◌∷◌, ◌++◌, IfOk, OnOk};

use std::alloc::{AllocError, Global};
use wire_values::{Bytes, Words};

/// A command of one word.
///
/// # Errors
/// Want of memory.
pub fn one_word(alloc: Global, name: &[u8]) -> Result<Words, AllocError>
    ensures { IfOk result (λ words. words ≡ name.now ∷ []) }
{
    let mut words = Words::new();
    add(alloc, &mut words, name)?;
    Ok(words)
}

/// A command of two words.
///
/// # Errors
/// Want of memory.
pub fn two_words(alloc: Global, name: &[u8], key: &[u8]) -> Result<Words, AllocError>
    ensures { IfOk result (λ words. words ≡ name.now ∷ key.now ∷ []) }
{
    let mut words = one_word(alloc, name)?;
    add(alloc, &mut words, key)?;
    Ok(words)
}

/// A command of three words.
///
/// # Errors
/// Want of memory.
pub fn three_words(alloc: Global, name: &[u8], key: &[u8], last: &[u8]) -> Result<Words, AllocError>
    ensures { IfOk result (λ words. words ≡ name.now ∷ key.now ∷ last.now ∷ []) }
{
    let mut words = two_words(alloc, name, key)?;
    add(alloc, &mut words, last)?;
    Ok(words)
}

/// Adds a copy of a word.
fn add(alloc: Global, words: &mut Words, word: &[u8]) -> Result<(), AllocError>
    ensures { OnOk result (words.new ≡ words.old ++ word.now ∷ []) }
{
    words.push(alloc, Bytes::from_slice(alloc, word)?)?;
    Ok(())
}
