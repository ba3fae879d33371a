//! Reading the text of a moment.
ghost use Rattle.std.specs.Prelude.{◌≡◌, ◌<◌, ◌≤◌, IfSome, length, not, position, slice_index_or};
ghost use Rattle.moments.specs.MomentTexts.{digit_count, fraction_micros, fraction_tail, front_civil, has_marks, is_digit, offset_minutes, signed_minutes, tail_of, two_at, two_digits, zone_minutes};
ghost use Rattle.moments.specs.Shown.{IsOffset, IsSpellable, IsTail};

use crate::civil::CivilTime;

/// What follows the seconds of a moment's text.
#[derive(Clone, Copy)]
pub(crate) struct AfterSeconds {
    /// The microseconds of the fraction.
    pub(crate) micros: u32,
    /// The minutes of the offset from UTC.
    pub(crate) offset: i16,
}

/// The byte at a place of a text, or another one past its end.
fn byte_or(text: &[u8], at: usize, other: u8) -> u8
    ensures { result ≡ slice_index_or text.now at other }
{
    match text.get(at) {
        Some(byte) => *byte,
        None => other,
    }
}

/// Whether a byte is a digit.
fn is_digit(byte: u8) -> bool
    ensures { result ≡ is_digit byte }
{
    48 <= byte && byte <= 57
}

/// The number that two digits spell.
fn two_digits(tens: u8, ones: u8) -> Option<u8>
    ensures value { result ≡ two_digits tens ones }
    ensures small { IfSome result (λ n. n < 100) }
{
    if is_digit(tens) && is_digit(ones) {
        Some((tens - 48) * 10 + (ones - 48))
    } else {
        None
    }
}

/// The number that the digits of a text at a place and after it spell, as if another byte stood past its end.
fn two_at(other: u8, at: usize, text: &[u8]) -> Option<u8>
    requires { at < 1000 }
    ensures value { result ≡ two_at other at text.now }
    ensures small { IfSome result (λ n. n < 100) }
{
    two_digits(byte_or(text, at, other), byte_or(text, at + 1, other))
}

/// Whether dashes, the T and colons stand where they must.
fn has_marks(text: &[u8]) -> bool
    ensures { result ≡ has_marks text.now }
{
    byte_or(text, 4, 0) == b'-'
        && byte_or(text, 7, 0) == b'-'
        && byte_or(text, 10, 0) == b'T'
        && byte_or(text, 13, 0) == b':'
        && byte_or(text, 16, 0) == b':'
}

/// What `YYYY-MM-DDThh:mm:ss` spells, at the start of a text.
#[tactic(auto, unfolding(crate::specs::MomentTexts::front_civil))]
pub(crate) fn front(text: &[u8]) -> Option<CivilTime>
    ensures value { result ≡ front_civil text.now }
    ensures short { IfSome result IsSpellable }
{
    let century = two_at(0, 0, text)?;
    let year = two_at(0, 2, text)?;
    let month = two_at(0, 5, text)?;
    let day = two_at(0, 8, text)?;
    let hour = two_at(0, 11, text)?;
    let minute = two_at(0, 14, text)?;
    let second = two_at(0, 17, text)?;
    if !has_marks(text) {
        return None;
    }
    Some(CivilTime {
        year: century as u16 * 100 + year as u16,
        month,
        day,
        hour,
        minute,
        second,
        micros: 0,
    })
}

/// The microseconds of the digits of a fraction, as if zeros followed.
#[tactic(auto, unfolding(crate::specs::MomentTexts::fraction_micros))]
fn fraction_micros(digits: &[u8]) -> Option<u32>
    ensures value { result ≡ fraction_micros digits.now }
    ensures small { IfSome result (λ n. n < 1000000) }
{
    let high = two_at(48, 0, digits)?;
    let middle = two_at(48, 2, digits)?;
    let low = two_at(48, 4, digits)?;
    Some((high as u32 * 100 + middle as u32) * 100 + low as u32)
}

/// The minutes of an offset with its sign.
fn signed_minutes(sign: u8, minutes: u16) -> Option<i16>
    requires { minutes < 1440 }
    ensures value { result ≡ signed_minutes sign minutes }
    ensures small { IfSome result IsOffset }
{
    if sign == b'+' {
        Some(minutes as i16)
    } else if sign == b'-' {
        Some(-(minutes as i16))
    } else {
        None
    }
}

/// The minutes of `+hh:mm` or `-hh:mm`.
#[tactic(auto, unfolding(crate::specs::MomentTexts::offset_minutes))]
fn offset_minutes(text: &[u8]) -> Option<i16>
    ensures value { result ≡ offset_minutes text.now }
    ensures small { IfSome result IsOffset }
{
    let hours = two_at(0, 1, text)?;
    let minutes = two_at(0, 4, text)?;
    if text.len() == 6 && byte_or(text, 3, 0) == b':' && hours <= 23 && minutes <= 59 {
        signed_minutes(byte_or(text, 0, 0), hours as u16 * 60 + minutes as u16)
    } else {
        None
    }
}

/// The minutes of what ends a text: nothing, `Z` or an offset.
fn zone_minutes(text: &[u8]) -> Option<i16>
    ensures value { result ≡ zone_minutes text.now }
    ensures small { IfSome result IsOffset }
{
    if text.len() == 0 || (text.len() == 1 && byte_or(text, 0, 0) == b'Z') {
        return Some(0);
    }
    offset_minutes(text)
}

/// The place of the first byte that is no digit.
fn first_other(text: &[u8]) -> Option<usize>
    ensures value { result ≡ position (λ b. not (is_digit b)) text.now }
    ensures within { IfSome result (λ at. at < length text.now) }
{
    text.iter().position(|b| !is_digit(*b))
}

/// How many digits a text begins with.
fn digit_count(text: &[u8]) -> usize
    ensures value { result ≡ digit_count text.now }
    ensures within { result ≤ length text.now }
{
    match first_other(text) {
        Some(at) => at,
        None => text.len(),
    }
}

/// 1 to 6 digits of a fraction, and what ends the text.
#[tactic(auto, unfolding(crate::specs::MomentTexts::fraction_tail))]
fn fraction_tail(text: &[u8]) -> Option<AfterSeconds>
    ensures value { result ≡ fraction_tail text.now }
    ensures small { IfSome result IsTail }
{
    let count = digit_count(text);
    if count < 1 || count > 6 {
        return None;
    }
    let micros = fraction_micros(&text[..count])?;
    let offset = zone_minutes(&text[count..])?;
    Some(AfterSeconds { micros, offset })
}

/// Nothing or a dot and a fraction, and what ends the text.
pub(crate) fn tail(text: &[u8]) -> Option<AfterSeconds>
    ensures value { result ≡ tail_of text.now }
    ensures small { IfSome result IsTail }
{
    if byte_or(text, 0, 0) == b'.' {
        return fraction_tail(&text[1..]);
    }
    let offset = zone_minutes(text)?;
    Some(AfterSeconds { micros: 0, offset })
}
