//! Lines of a text.
ghost use Rattle.std.specs.Prelude.{◌≡◌, ◌+◌, ◌^◌, ◌<◌, ◌≤◌, ◌∷◌, ◌==◌, MatchResult, None, Some, count_by, length, position, take};
ghost use Rattle.line_text.specs.Lines.{line_number_at, lines_of, text_fault};

use crate::reason::Reason;

/// The greatest length of a line in bytes, without its line feed.
pub const LINE_LIMIT: usize = 65_536;

/// The same for a line of a record, which holds whole envelopes in quotes.
pub const RECORD_LINE_LIMIT: usize = 8_388_608;

/// The greatest length of an input in bytes.
pub const INPUT_LIMIT: usize = 67_108_864;

/// The lines of a text with their numbers from 1, first to last; each without its line feed.
///
/// Going over all of them looks at each byte of the text once.
#[derive(Drop)]
pub struct Lines<'a> {
    rest: &'a [u8],
    number: u64,
    ghost counts: { number + length rest.now < 2 ^ 64 },
}

impl<'a> Lines<'a> {
    ghost use Rattle.line_text.specs.Lines.{numbered};
    ghost use Rattle.line_text.specs.LinesLeft.{lines_left};

    /// All lines of a text.
    pub fn new(text: &'a [u8]) -> Self
        ensures { lines_left result ≡ numbered 1 (lines_of text.now) }
    {
        Lines {
            rest: text,
            number: 1,
        }
    }
}

impl<'a> Iterator for Lines<'a> {
    ghost use Rattle.std.specs.Iterator.{YieldsFirstBy, item_count};
    ghost use Rattle.line_text.specs.LinesLeft.{lines_left};

    type Item = (u64, &'a [u8]);

    ghost next_gives = { YieldsFirstBy (λ line. (line.0, line.1.now)) lines_left };

    ghost remaining = { item_count lines_left };

    fn next(&mut self) -> Option<(u64, &'a [u8])> {
        if self.rest.is_empty() {
            return None;
        }
        let number = self.number;
        let (line, rest) = first_line(self.rest);
        self.rest = rest;
        self.number = number + 1;
        Some((number, line))
    }
}

/// The first line of a text and what stands after its line feed.
fn first_line(text: &[u8]) -> (&[u8], &[u8])
    requires { 0 < length text.now }
    ensures lines { lines_of text.now ≡ result.0.now ∷ lines_of result.1.now }
    ensures shorter { length result.1.now < length text.now }
{
    match line_feed(text) {
        Some(end) => (&text[..end], &text[end + 1..]),
        None => (text, &[]),
    }
}

/// Where the first line feed stands.
fn line_feed(text: &[u8]) -> Option<usize>
    ensures { result ≡ position (λ b. b == 10) text.now }
{
    text.iter().position(|b| *b == b'\n')
}

/// The number of the line in which the byte at this index stands, from 1; a line feed stands in the
/// line that it ends.
///
/// Of an input that is too long, and was read up to one byte past its limit, the bad line is the one at
/// the index that is the limit.
pub fn line_number_at(text: &[u8], index: usize) -> u64
    requires { index ≤ length text.now }
    ensures { result ≡ line_number_at text.now index }
{
    let feeds = line_feeds(&text[..index]);
    feeds as u64 + 1
}

/// How many line feeds there are.
fn line_feeds(text: &[u8]) -> usize
    ensures { result ≡ count_by (λ b. b == 10) text.now }
{
    text.iter().filter(|b| **b == b'\n').count()
}

/// A line as text: `Long` where it has more bytes than the limit, else `Text` where it isn't UTF-8.
pub fn line_text(limit: usize, line: &[u8]) -> Result<&str, Reason>
    ensures { MatchResult result
        (λ text. (text_fault limit line.now ≡ None) × (text.now ≡ line.now))
        (λ reason. text_fault limit line.now ≡ Some reason) }
{
    if line.len() > limit {
        return Err(Reason::Long);
    }
    match std::str::from_utf8(line) {
        Ok(text) => Ok(text),
        Err(_) => Err(Reason::Text),
    }
}
