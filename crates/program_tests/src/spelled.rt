//! Schedules as rows spell them.
use line_text::number_in;
use std::alloc::{AllocError, Global};

/// The bytes of a text in which `\n` is a line feed, `\r` a carriage return, `\xff` a byte by its two digits, and
/// `\(256:q)` so many letters.
pub fn spelled(alloc: Global, text: &str) -> Result<Vec<u8>, AllocError> {
    let mut out = Vec::new(alloc);
    for (number, part) in text.split('\\').enumerate() {
        if number == 0 {
            out.extend_from_slice(part.as_bytes())?;
        } else {
            push_escaped(alloc, &mut out, part)?;
        }
    }
    Ok(out)
}

/// Appends what stands after a backslash.
fn push_escaped(alloc: Global, out: &mut Vec<u8>, part: &str) -> Result<(), AllocError> {
    match part.split_at_checked(1) {
        Some(("n", rest)) => push_byte(out, b'\n', rest),
        Some(("r", rest)) => push_byte(out, b'\r', rest),
        Some(("x", rest)) => push_digits(out, rest),
        Some(("(", rest)) => push_letters(alloc, out, rest),
        _ => Ok(out.extend_from_slice(b"no escape")?),
    }
}

/// Appends a byte, and what stands after it.
fn push_byte(out: &mut Vec<u8>, byte: u8, rest: &str) -> Result<(), AllocError> {
    out.push(byte)?;
    Ok(out.extend_from_slice(rest.as_bytes())?)
}

/// Appends a byte that two digits spell, and what stands after them.
fn push_digits(out: &mut Vec<u8>, part: &str) -> Result<(), AllocError> {
    match part.split_at_checked(2) {
        Some((digits, rest)) => push_byte(
            out,
            u8::from_str_radix(digits, 16).unwrap_or(b'?'),
            rest,
        ),
        None => Ok(out.extend_from_slice(b"no digits")?),
    }
}

/// Appends so many letters, and what stands after them.
fn push_letters(alloc: Global, out: &mut Vec<u8>, part: &str) -> Result<(), AllocError> {
    let Some((count, letter, rest)) = letters_in(part) else {
        return Ok(out.extend_from_slice(b"no letters")?);
    };
    let letters = vec![in alloc; letter; count]?;
    out.extend_from_slice(letters.as_slice())?;
    Ok(out.extend_from_slice(rest.as_bytes())?)
}

/// The count, the letter and the rest of `256:q)` and a rest.
fn letters_in(part: &str) -> Option<(usize, u8, &str)> {
    let (inner, rest) = part.split_once(')')?;
    let (count, letter) = inner.split_once(':')?;
    let count = number_in(0, 2_000_000, count)?;
    Some((count as usize, *letter.as_bytes().first()?, rest))
}
