//! Numbers of a line.
ghost use Rattle.std.specs.Prelude.{◌≡◌};
ghost use Rattle.std.specs.Char.{is_ascii_digit};
ghost use Rattle.std.specs.List.{list_all};
ghost use Rattle.line_text.specs.Numbers.{is_number, moment_in, number_in, tag_in};
ghost use Rattle.numerals.specs.Integers.{integer_of};

use numerals::integer;
use store_model::MOMENT_LIMIT;

/// The number that a word spells, if it is within the bounds: decimal digits with no sign and no zero before others.
pub fn number_in(low: u64, high: u64, word: &str) -> Option<u64>
    ensures { result ≡ number_in low high word.now }
{
    if !is_number(word.as_bytes()) {
        return None;
    }
    let value = word.parse::<u64>().ok()?;
    if low <= value && value <= high {
        Some(value)
    } else {
        None
    }
}

/// The moment that a number spells; each from 2^40 on, of however many digits, counts as 2^40.
pub fn moment_in(word: &str) -> Option<u64>
    ensures { result ≡ moment_in word.now }
{
    if !is_number(word.as_bytes()) {
        return None;
    }
    match word.parse::<u64>() {
        Ok(value) => Some(Ord::min(value, MOMENT_LIMIT)),
        Err(_) => Some(MOMENT_LIMIT),
    }
}

/// The integer of 64 bits that a word spells: a number, or a minus and a number above 0.
pub fn integer_in(word: &str) -> Option<i64>
    ensures { result ≡ integer_of word.now }
{
    integer(word.as_bytes())
}

/// The seed and the counter that a tag's short spelling has, as `7:1`: two numbers of 64 bits with a colon between.
pub fn tag_in(word: &str) -> Option<(u64, u64)>
    ensures { result ≡ tag_in word.now }
{
    let (seed, counter) = word.split_once(':')?;
    let seed = number_in(0, u64::MAX, seed)?;
    let counter = number_in(0, u64::MAX, counter)?;
    Some((seed, counter))
}

/// Whether these are digits, with no zero before others.
fn is_number(word: &[u8]) -> bool
    ensures { result ≡ is_number word.now }
{
    match word {
        [] => false,
        [first, ..] => are_digits(word) && (word.len() == 1 || *first > b'0'),
    }
}

fn are_digits(bytes: &[u8]) -> bool
    ensures { result ≡ list_all is_ascii_digit bytes.now }
{
    bytes.iter().all(|b| b.is_ascii_digit())
}
