//! Words of a schedule's lines.
ghost use Rattle.std.specs.Prelude.{◌≡◌, ◌∷◌, ◌^◌, ◌-◌, IfOk, None, Some, if◌then◌else◌, map};
ghost use Rattle.std.specs.List.{join_with_byte, list_all};
ghost use Rattle.line_text.specs.Numbers.{number_in};
ghost use Rattle.line_text.specs.Words.{is_word};
ghost use Rattle.schedule_model.specs.Lines.{client_in, dashed_in, name_in, queues_in, seed_in};

use line_text::{is_word, number_in};
use std::alloc::{AllocError, Global};
use wire_values::{Bytes, List, Words};

/// The number of a client, from 1 to 4,096.
pub fn client_in(word: &str) -> Option<u32>
    ensures { result ≡ client_in word.now }
{
    let number = number_in(1, 4096, word)?;
    Some(number as u32)
}

/// The seed of a client, from 1 to 2^62.
pub fn seed_in(word: &str) -> Option<u64>
    ensures { result ≡ seed_in word.now }
{
    number_in(1, 1 << 62, word)
}

/// A priority of 0 to 255.
pub fn priority_in(word: &str) -> Option<u8>
    ensures { result ≡ number_in 0 255 word.now }
{
    let number = number_in(0, 255, word)?;
    Some(number as u8)
}

/// A visibility timeout of 0 to 4,294,967,295 seconds.
pub fn visibility_in(word: &str) -> Option<u32>
    ensures { result ≡ number_in 0 (2 ^ 32 - 1) word.now }
{
    let number = number_in(0, u32::MAX as u64, word)?;
    Some(number as u32)
}

/// A word that is a name.
pub fn name_in(alloc: Global, word: &str) -> Result<Option<Bytes>, AllocError>
    ensures { IfOk result (λ found. found ≡ name_in word.now) }
{
    if is_word(word.as_bytes()) {
        Ok(Some(Bytes::from_slice(alloc, word.as_bytes())?))
    } else {
        Ok(None)
    }
}

/// A word that is a name, where a dash stands for the empty one.
pub fn dashed_in(alloc: Global, word: &str) -> Result<Option<Bytes>, AllocError>
    ensures { IfOk result (λ found. found ≡ dashed_in word.now) }
{
    if word == "-" {
        Ok(Some(Bytes::new()))
    } else {
        name_in(alloc, word)
    }
}

/// Words that are names of queues, from 1 to 1,023.
pub fn queues_in(alloc: Global, words: &[&str]) -> Result<Option<Words>, AllocError>
    ensures { IfOk result (λ found. found ≡ queues_in (map (λ word. word.now) words.now)) }
{
    let names = copied(alloc, words)?;
    if are_queues(names.as_slice()) {
        Ok(Some(names))
    } else {
        Ok(None)
    }
}

/// Whether these are names, from 1 to 1,023.
fn are_queues(names: &[Bytes]) -> bool
    ensures { queues_in names.now ≡ (if result then Some names.now else None) }
{
    !names.is_empty() && names.len() <= 1023 && are_words(names)
}

/// Whether each of these can be a name.
fn are_words(names: &[Bytes]) -> bool
    ensures { result ≡ list_all is_word names.now }
{
    names.iter().all(|name| is_word(name.as_slice()))
}

/// The words as byte strings.
fn copied(alloc: Global, words: &[&str]) -> Result<Words, AllocError>
    ensures { IfOk result (λ made. made ≡ map (λ word. word.now) words.now) }
{
    let mut copies = List::new();
    for word in words {
        copies.push(alloc, Bytes::from_slice(alloc, word.as_bytes())?)?;
    }
    Ok(copies)
}

/// Words with a space between them.
pub fn joined(alloc: Global, words: &[&str]) -> Result<Bytes, AllocError>
    ensures { IfOk result (λ text. text
        ≡ join_with_byte 32 (map (λ word. word.now) words.now)) }
{
    match words {
        [] => Ok(Bytes::new()),
        [first, rest @ ..] => joined_with(alloc, first, rest),
    }
}

/// A first word and the others, with a space between them.
fn joined_with(alloc: Global, first: &str, rest: &[&str]) -> Result<Bytes, AllocError>
    ensures { IfOk result (λ text. text
        ≡ join_with_byte 32 (first.now ∷ map (λ word. word.now) rest.now)) }
{
    let mut text = Bytes::from_slice(alloc, first.as_bytes())?;
    for word in rest {
        text.push(alloc, b' ')?;
        text.extend(alloc, word.as_bytes())?;
    }
    Ok(text)
}
