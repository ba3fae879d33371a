//! Moments of tasks.
ghost use Rattle.std.specs.Prelude.{◌≡◌, ◌-ℤ◌, ◌*ℤ◌, pos, IfOk, IsUtf8, Some, true, drop, option_map};
ghost use Rattle.moments.specs.CivilTimes.{is_within_years};
ghost use Rattle.moments.specs.Shown.{IsOffset};
ghost use Rattle.moments.specs.MomentTexts.{if_within, moment_of, moment_text};

use crate::civil::{CivilTime, civil_at, micros_to};
use crate::reading::{front, tail};
use crate::writing::civil_text;
use std::alloc::{AllocError, Global};
use wire_values::Bytes;

/// A moment of a task: microseconds since 1970-01-01T00:00:00 in UTC, negative before.
#[derive(Clone, Copy, Debug, PartialEq, Eq)]
pub struct Moment(pub i64);

impl Moment {
    /// The moment that a text spells: `YYYY-MM-DDThh:mm:ss`, then nothing or a dot and 1 to 6 digits, then `Z`,
    /// `+hh:mm`, `-hh:mm` or nothing, which is UTC. None where the text is of another form, the date or the time isn't
    /// real, an offset has 24 hours or 60 minutes, or the moment lies outside the years 1 to 9999 of UTC.
    #[tactic(auto, unfolding(crate::specs::MomentTexts::moment_of))]
    pub fn read(text: &[u8]) -> Option<Moment>
        ensures { option_map (λ m. m.0) result ≡ moment_of text.now }
    {
        let shown = front(text)?;
        let end = tail(after_front(text))?;
        let at = micros_to(CivilTime {
            micros: end.micros,
            ..shown
        })?;
        at_offset(at, end.offset)
    }

    /// Whether the moment lies in the years 1 to 9999 of UTC, so that it can be written.
    pub fn is_within_years(self) -> bool
        ensures { result ≡ is_within_years self.0 }
    {
        -62_135_596_800_000_000 <= self.0 && self.0 <= 253_402_300_799_999_999
    }

    /// The text of the moment in UTC: `YYYY-MM-DDThh:mm:ss`, a dot and six digits where the fraction isn't 0, and
    /// `+00:00`; 25 or 32 bytes, which are UTF-8.
    pub fn write(self, alloc: Global) -> Result<Bytes, AllocError>
        requires { is_within_years self.0 ≡ true }
        ensures text { IfOk result (λ b. b ≡ moment_text self.0) }
        // The text is read as this moment.
        ensures back { IfOk result (λ b. moment_of b ≡ Some self.0) }
        ensures utf8 { IfOk result (λ b. IsUtf8 b) }
    {
        civil_text(alloc, &civil_at(self.0))
    }
}

/// What follows the first 19 bytes of a text.
fn after_front(text: &[u8]) -> &[u8]
    ensures { result.now ≡ drop 19 text.now }
{
    match text.get(19..) {
        Some(rest) => rest,
        None => &[],
    }
}

/// The moment at which a clock at an offset of so many minutes shows so many microseconds, if it lies in the years 1
/// to 9999.
fn at_offset(shown: i64, offset: i16) -> Option<Moment>
    requires { IsOffset offset }
    ensures { option_map (λ m. m.0) result ≡ if_within (shown -ℤ offset *ℤ pos 60000000) }
{
    let moment = Moment(shown.checked_sub(offset as i64 * 60_000_000)?);
    if moment.is_within_years() {
        Some(moment)
    } else {
        None
    }
}
