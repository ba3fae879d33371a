//! Integers in their one spelling.
ghost use Rattle.numerals.specs.Integers.{digits_onto, from_zero, integer_of, magnitude_of, natural_of, negative_integer, plain_integer};
ghost use Rattle.std.specs.Prelude.{◌≡◌};

// The bound of an integer without a sign.
const BOUND: u64 = 9_223_372_036_854_775_808;

// The number that the digits spell, if it is below 2^64.
fn digits(bytes: &[u8]) -> Option<u64>
    ensures { result ≡ digits_onto 0 bytes.now }
{
    let mut number: u64 = 0;
    for byte in bytes {
        if *byte < 48 || *byte > 57 {
            return None;
        }
        let Some(tens) = number.checked_mul(10) else {
            return None;
        };
        let Some(next) = tens.checked_add(u64::from(*byte - 48)) else {
            return None;
        };
        number = next;
    }
    Some(number)
}

// The number that digits without a leading zero spell.
fn magnitude(bytes: &[u8]) -> Option<u64>
    ensures { result ≡ magnitude_of bytes.now }
{
    match bytes {
        [] => None,
        [_] => digits(bytes),
        [first, _, ..] => {
            if *first == 48 {
                return None;
            }
            digits(bytes)
        }
    }
}

fn plain(magnitude: Option<u64>) -> Option<i64>
    ensures { result ≡ plain_integer magnitude }
{
    let Some(number) = magnitude else {
        return None;
    };
    if number < BOUND {
        return Some(number as i64);
    }
    None
}

fn negative(magnitude: Option<u64>) -> Option<i64>
    ensures { result ≡ negative_integer magnitude }
{
    let Some(number) = magnitude else {
        return None;
    };
    if number == 0 || number - 1 >= BOUND {
        return None;
    }
    let less = (number - 1) as i64;
    Some(-1 - less)
}

/// The integer of 64 bits that the word spells in decimal, without a plus sign, a leading zero or `-0`,
/// as RESP2 writes integers.
pub fn integer(word: &[u8]) -> Option<i64>
    ensures { result ≡ integer_of word.now }
{
    match word {
        [] => None,
        [first, rest @ ..] => {
            if *first == 45 {
                return negative(magnitude(rest));
            }
            plain(magnitude(word))
        }
    }
}

/// The integer from 0 that the word spells.
pub fn natural(word: &[u8]) -> Option<u64>
    ensures { result ≡ natural_of word.now }
{
    not_below_zero(integer(word))
}

fn not_below_zero(number: Option<i64>) -> Option<u64>
    ensures { result ≡ from_zero number }
{
    let Some(number) = number else {
        return None;
    };
    if number < 0 {
        return None;
    }
    Some(number as u64)
}
