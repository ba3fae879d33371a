//! Byte strings as the words of rows spell them.
use line_text::number_in;
use std::alloc::{AllocError, Global};
use wire_values::Bytes;

/// The byte string that a word spells: so many letters as `x{1025}`, a quoted form, else the word itself.
pub fn spelled(alloc: Global, word: &str) -> Result<Bytes, AllocError> {
    match letters_in(word) {
        Some((letter, count)) => repeated(alloc, letter, count),
        None => unquoted(alloc, word.trim_matches('"')),
    }
}

/// The letter and the count of a word as `x{1025}`.
fn letters_in(word: &str) -> Option<(&str, u64)> {
    let (letter, rest) = word.split_once('{')?;
    let (count, _) = rest.split_once('}')?;
    Some((letter, number_in(1, 2_000_000, count)?))
}

/// So many of a letter.
fn repeated(alloc: Global, letter: &str, count: u64) -> Result<Bytes, AllocError> {
    let mut bytes = Bytes::new();
    for _ in 0..count {
        bytes.extend(alloc, letter.as_bytes())?;
    }
    Ok(bytes)
}

/// The bytes of a text in which `\x` stands before the two digits of a byte.
fn unquoted(alloc: Global, text: &str) -> Result<Bytes, AllocError> {
    let mut bytes = Bytes::new();
    for (number, part) in text.split("\\x").enumerate() {
        if number == 0 {
            bytes.extend(alloc, part.as_bytes())?;
        } else {
            push_part(alloc, &mut bytes, part)?;
        }
    }
    Ok(bytes)
}

/// Appends a byte that two digits spell, and what stands after them.
fn push_part(alloc: Global, bytes: &mut Bytes, part: &str) -> Result<(), AllocError> {
    let Some((digits, rest)) = part.split_at_checked(2) else {
        return bytes.extend(alloc, part.as_bytes());
    };
    bytes.push(alloc, u8::from_str_radix(digits, 16).unwrap_or(b'?'))?;
    bytes.extend(alloc, rest.as_bytes())
}
