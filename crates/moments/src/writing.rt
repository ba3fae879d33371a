//! Writing the text of a moment.
ghost use Rattle.std.specs.Prelude.{◌≡◌, ◌+◌, ◌%◌, ◌<◌, IfOk};
ghost use Rattle.moments.specs.MomentTexts.{civil_text, fraction_text, front_text, two_text};

use crate::civil::CivilTime;
use std::alloc::{AllocError, Global};
use wire_values::Bytes;

/// The last digit of a number.
fn digit(number: u32) -> u8
    ensures { result ≡ 48 + number % 10 }
{
    48 + (number % 10) as u8
}

/// `YYYY-MM-DDThh:mm:ss`.
fn front_text(shown: &CivilTime) -> [u8; 19]
    ensures { result ≡ front_text shown.now }
{
    let year = shown.year as u32;
    let month = shown.month as u32;
    let day = shown.day as u32;
    let hour = shown.hour as u32;
    let minute = shown.minute as u32;
    let second = shown.second as u32;
    [
        digit(year / 100 / 10),
        digit(year / 100),
        digit(year / 10),
        digit(year),
        b'-',
        digit(month / 10),
        digit(month),
        b'-',
        digit(day / 10),
        digit(day),
        b'T',
        digit(hour / 10),
        digit(hour),
        b':',
        digit(minute / 10),
        digit(minute),
        b':',
        digit(second / 10),
        digit(second),
    ]
}

/// A dot and six digits.
fn fraction_text(micros: u32) -> [u8; 7]
    requires { 0 < micros }
    ensures { result ≡ fraction_text micros }
{
    [
        b'.',
        digit(micros / 10000 / 10),
        digit(micros / 10000),
        digit(micros / 100 / 10),
        digit(micros / 100),
        digit(micros / 10),
        digit(micros),
    ]
}

/// The text of what calendar and clock show in UTC.
pub(crate) fn civil_text(alloc: Global, shown: &CivilTime) -> Result<Bytes, AllocError>
    ensures { IfOk result (λ b. b ≡ civil_text shown.now) }
{
    let mut out = Bytes::from_slice(alloc, &front_text(shown))?;
    if shown.micros != 0 {
        out.extend(alloc, &fraction_text(shown.micros))?;
    }
    out.extend(alloc, b"+00:00")?;
    Ok(out)
}
