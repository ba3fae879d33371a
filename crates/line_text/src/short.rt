//! The short form of words and values, as a report has them.
//!
//! Each call appends to a vector. Where memory ends amid a text, a part of it may have been appended.
ghost use Rattle.std.specs.Prelude.{◌≡◌, ◌++◌, List, OnOk, IfOk, ℕ};
ghost use Rattle.std.specs.List.{list_all};
ghost use Rattle.line_text.specs.Short.{is_bare, is_plain, shaped, short_value, short_word, short_words, star, tag_short};
ghost use Rattle.line_text.specs.declared.short.Shape.{Shape as Shaped};

use crate::form::{Form, quoted, value_text, words_text};
use std::alloc::{AllocError, Global};
use wire_values::{Bytes, Value};

/// What bytes spell.
#[derive(Clone, Copy, Debug, PartialEq, Eq, Drop)]
pub enum Shape {
    /// An envelope with this tag; whether it is marked as redelivered.
    Envelope {
        seed: u64,
        counter: u64,
        marked: bool,
    },
    /// An entry of the unacked table, likewise.
    Entry {
        seed: u64,
        counter: u64,
        marked: bool,
    },
    /// A tag's text.
    Tag {
        seed: u64,
        counter: u64,
    },
    /// None of these.
    Other,
}

/// What tells a report which bytes spell an envelope, an entry or a tag.
pub trait Legend {
    ghost shape: { Self → List ℕ → Shaped };

    /// What the bytes spell.
    fn shape(&self, alloc: Global, bytes: &[u8]) -> Result<Shape, AllocError>
        ensures { IfOk result (λ found. found ≡ shape self.now bytes.now) };
}

/// Appends the short form of a word: `env(7:1)` or `entry(7:1)`, with a star after it where marked,
/// `tag(7:1)`, the bare word where it has 1 to 255 bytes, all of them letters, digits or `_ . : / -`,
/// and else the quoted form.
pub fn short_word<L: Legend>(
    alloc: Global,
    legend: &L,
    out: &mut Vec<u8>,
    word: &[u8],
) -> Result<(), AllocError>
    ensures { OnOk result
        (out.new.items ≡ out.old.items ++ short_word (L.shape legend.now) word.now) }
{
    let shape = legend.shape(alloc, word)?;
    shaped(alloc, out, shape, word)
}

/// Appends words in short form, each followed by a space.
pub fn short_words<L: Legend>(
    alloc: Global,
    legend: &L,
    out: &mut Vec<u8>,
    words: &[Bytes],
) -> Result<(), AllocError>
    ensures { OnOk result
        (out.new.items ≡ out.old.items ++ short_words (L.shape legend.now) words.now) }
{
    words_text(alloc, &ShortForm { legend }, out, words)
}

/// Appends the short form of a value: its value form with short forms in place of quoted ones.
pub fn short_value<L: Legend>(
    alloc: Global,
    legend: &L,
    out: &mut Vec<u8>,
    value: &Value,
) -> Result<(), AllocError>
    ensures { OnOk result
        (out.new.items ≡ out.old.items ++ short_value (L.shape legend.now) value.now) }
{
    value_text(alloc, &ShortForm { legend }, out, value)
}

/// The short form under a legend.
#[derive(Drop)]
struct ShortForm<'a, L> {
    legend: &'a L,
}

impl<L: Legend> Form for ShortForm<'_, L> {
    ghost use Rattle.line_text.specs.Short.{short_word};

    ghost form = { λ short. short_word (L.shape short.legend.now) };

    fn write(&self, alloc: Global, out: &mut Vec<u8>, bytes: &[u8]) -> Result<(), AllocError> {
        short_word(alloc, self.legend, out, bytes)
    }
}

fn shaped(alloc: Global, out: &mut Vec<u8>, shape: Shape, word: &[u8]) -> Result<(), AllocError>
    ensures { OnOk result (out.new.items ≡ out.old.items ++ shaped shape word.now) }
{
    match shape {
        Shape::Envelope {
            seed,
            counter,
            marked,
        } => {
            out.extend_from_slice(b"env(")?;
            tag_short(alloc, out, seed, counter)?;
            out.push(b')')?;
            star(out, marked)
        }
        Shape::Entry {
            seed,
            counter,
            marked,
        } => {
            out.extend_from_slice(b"entry(")?;
            tag_short(alloc, out, seed, counter)?;
            out.push(b')')?;
            star(out, marked)
        }
        Shape::Tag { seed, counter } => {
            out.extend_from_slice(b"tag(")?;
            tag_short(alloc, out, seed, counter)?;
            out.push(b')')?;
            Ok(())
        }
        Shape::Other if is_bare(word) => {
            out.extend_from_slice(word)?;
            Ok(())
        }
        Shape::Other => quoted(out, word),
    }
}

fn star(out: &mut Vec<u8>, marked: bool) -> Result<(), AllocError>
    ensures { OnOk result (out.new.items ≡ out.old.items ++ star marked) }
{
    if marked {
        out.push(b'*')?;
    }
    Ok(())
}

/// Appends a tag's short spelling, as `7:1`.
pub fn tag_short(
    alloc: Global,
    out: &mut Vec<u8>,
    seed: u64,
    counter: u64,
) -> Result<(), AllocError>
    ensures { OnOk result (out.new.items ≡ out.old.items ++ tag_short seed counter) }
{
    let text = format!(in alloc; "{seed}:{counter}")?;
    out.extend_from_slice(text.as_bytes())?;
    Ok(())
}

fn is_bare(word: &[u8]) -> bool
    ensures { result ≡ is_bare word.now }
{
    1 <= word.len() && word.len() <= 255 && are_plain(word)
}

fn are_plain(word: &[u8]) -> bool
    ensures { result ≡ list_all is_plain word.now }
{
    word.iter().all(|b| is_plain(*b))
}

fn is_plain(b: u8) -> bool
    ensures { result ≡ is_plain b }
{
    b'a' <= b && b <= b'z' || b'A' <= b && b <= b'Z' || b'-' <= b && b <= b':' || b == b'_'
}
