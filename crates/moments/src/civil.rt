//! What calendar and clock show at a moment, by the kit's calendar.
ghost use Rattle.std.specs.Prelude.{◌≡◌, ◌≤◌, ◌*ℤ◌, ◌≤ℤ◌, ◌%◌, ◌↔◌, ℤ, pos, true, IfSome, IsSome};
ghost use Rattle.jiff_core.specs.DateTime.{civil_nanos};
ghost use Rattle.moments.specs.CivilTimes.{civil_at, civil_micros, is_civil, is_within_years, real_micros};
ghost use Rattle.moments.specs.Shown.{IsSpellable, Shows};

use jiff::SignedDuration;
use jiff::civil::{DateTime, datetime};

/// A date and a time of day, to the microsecond.
#[derive(Clone, Copy)]
pub(crate) struct CivilTime {
    pub(crate) year: u16,
    pub(crate) month: u8,
    pub(crate) day: u8,
    pub(crate) hour: u8,
    pub(crate) minute: u8,
    pub(crate) second: u8,
    pub(crate) micros: u32,
}

/// The microseconds from 1970 to a date and time of the years 1 to 9999. None where the calendar has no such date, or
/// the clock no such time.
pub(crate) fn micros_to(shown: CivilTime) -> Option<i64>
    requires { IsSpellable shown }
    ensures { result ≡ real_micros shown }
{
    if shown.year == 0 {
        return None;
    }
    let found = datetime_of(shown)?;
    Some(micros_since(found))
}

/// The kit's datetime of a date and time.
fn datetime_of(shown: CivilTime) -> Option<DateTime>
    requires short { IsSpellable shown }
    requires year { 1 ≤ shown.year }
    ensures some { IsSome result ↔ (is_civil shown ≡ true) }
    ensures value { IfSome result (Shows shown) }
{
    let made = DateTime::new(
        shown.year as i16,
        shown.month as i8,
        shown.day as i8,
        shown.hour as i8,
        shown.minute as i8,
        shown.second as i8,
        (shown.micros * 1000) as i32,
    );
    made.ok()
}

/// The first moment of 1970.
fn epoch() -> DateTime
    ensures { civil_nanos result ≡ pos 0 }
{
    datetime(1970, 1, 1, 0, 0, 0, 0)
}

/// The microseconds from 1970 to a datetime of whole microseconds.
fn micros_since(found: DateTime) -> i64
    requires { (z : ℤ) × (civil_nanos found ≡ z *ℤ pos 1000) }
    ensures { (z : ℤ) → civil_nanos found ≡ z *ℤ pos 1000 → result ≡ z }
{
    found.duration_since(epoch()).as_micros() as i64
}

/// What calendar and clock show in UTC at a moment of the years 1 to 9999.
pub(crate) fn civil_at(moment: i64) -> CivilTime
    requires { is_within_years moment ≡ true }
    ensures value { result ≡ civil_at moment }
    ensures civil { is_civil result ≡ true }
    ensures back { civil_micros result ≡ moment }
{
    civil_of(datetime_at(moment))
}

/// The kit's datetime at a moment.
fn datetime_at(moment: i64) -> DateTime
    requires { is_within_years moment ≡ true }
    ensures { civil_nanos result ≡ moment *ℤ pos 1000 }
{
    match epoch().checked_add(SignedDuration::from_micros(moment)) {
        Ok(found) => found,
        Err(_) => unreachable!(),
    }
}

/// The date and time that a datetime of the kit shows, in whole microseconds.
fn civil_of(found: DateTime) -> CivilTime
    requires year { pos 1 ≤ℤ found.date.year }
    requires whole { found.time.subsec_nanosecond % 1000 ≡ 0 }
    ensures shows { Shows result found }
    ensures civil { is_civil result ≡ true }
{
    let plain = found.to_plain();
    CivilTime {
        year: plain.date.year as u16,
        month: plain.date.month,
        day: plain.date.day,
        hour: plain.time.hour,
        minute: plain.time.minute,
        second: plain.time.second,
        micros: plain.time.subsec_nanosecond / 1000,
    }
}
