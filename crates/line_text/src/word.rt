//! Words of a line.
ghost use Rattle.std.specs.Prelude.{◌≡◌, IfOk, map};
ghost use Rattle.std.specs.List.{list_all};
ghost use Rattle.std.specs.Option.{option_copied};
ghost use Rattle.line_text.specs.Words.{is_visible, is_word, rest_after, words_of};

use std::alloc::{AllocError, Global};

/// The words of a line, parted by one space each: two spaces in a row part an empty word.
pub fn words<'a>(alloc: Global, line: &'a str) -> Result<Vec<&'a str>, AllocError>
    ensures { IfOk result (λ found. map (λ word. word.now) found.items ≡ words_of line.now) }
{
    line.split(' ').collect(alloc)
}

/// The line after its first `count` words and the space after them, as it stands; None where it has no
/// more words.
///
/// An argument that may hold spaces, as JSON, is the rest of its line.
pub fn rest_after(count: usize, line: &str) -> Option<&str>
    ensures { option_copied result ≡ rest_after count line.now }
{
    let mut rest = line;
    for step in 0..count {
        let (_, after) = rest.split_once(' ')?;
        rest = after;
    }
    Some(rest)
}

/// Whether these bytes can be a word that names something: one byte or more, each from `!` to `~`.
pub fn is_word(bytes: &[u8]) -> bool
    ensures { result ≡ is_word bytes.now }
{
    1 <= bytes.len() && are_visible(bytes)
}

fn are_visible(bytes: &[u8]) -> bool
    ensures { result ≡ list_all is_visible bytes.now }
{
    bytes.iter().all(|b| is_visible(*b))
}

fn is_visible(byte: u8) -> bool
    ensures { result ≡ is_visible byte }
{
    b'!' <= byte && byte <= b'~'
}
