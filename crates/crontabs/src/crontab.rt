//! A crontab.
ghost use Rattle.std.specs.Prelude.{◌≡◌, ◌+◌, ◌*◌, ◌/◌, ◌<◌, ◌≤◌, ◌↔◌, IfOk, IsTrue};
ghost use Rattle.crontabs.specs.Months.{month_start};

use crate::calendar::{month_length, month_on, month_start};
use crate::dates::Dates;
use crate::fields::crontab_in;
use crate::numbers::has;
use crate::times::Times;
use std::alloc::{AllocError, Global};

/// The minutes of an entry: all five fields have the minute.
#[derive(Drop)]
pub struct Crontab {
    /// Minutes and hours.
    pub times: Times,
    /// Days, months and weekdays.
    pub dates: Dates,
}

/// The last minute of the year 9999, counted from 1970.
pub(crate) const LAST_MINUTE: u64 = 4_223_371_679;

impl Crontab {
    ghost use Rattle.crontabs.specs.Crontabs.{IsCronDue};
    ghost use Rattle.crontabs.specs.FieldTexts.{crontab_in};
    ghost use Rattle.crontabs.specs.Found.{HasMinuteIn, HasMinuteOn, SomeDay, SomeMinute};

    /// The crontab that five fields spell, in the order minute, hour, day of month, month, weekday. A field is a list with
    /// commas of `*`, `*/n`, `a`, `a-b` and `a-b/n`, with `a` at most `b`, in 0 to 59, 0 to 23, 1 to 31, 1 to 12 and 0 to 6;
    /// `*/n` and `a-b/n` are the numbers from the first of the range on in steps of `n`, at least 1. None where a field is
    /// out of this form.
    pub fn read(
        alloc: Global,
        minute: &str,
        hour: &str,
        day: &str,
        month: &str,
        weekday: &str,
    ) -> Result<Option<Crontab>, AllocError>
        ensures { IfOk result (λ found. found ≡ crontab_in minute.now hour.now day.now month.now weekday.now) }
    {
        crontab_in(alloc, minute, hour, day, month, weekday)
    }

    /// Whether the crontab is due: a minute of UTC that it matches began after `last`, and at or before `now`, both in
    /// seconds since 1970. The calendar ends with the year 9999. Takes no memory.
    ///
    /// Months that don't match are passed over as a whole.
    pub fn is_due(&self, last: u64, now: u64) -> bool
        ensures { IsTrue result ↔ IsCronDue self.now last now }
    {
        let first = last / 60 + 1;
        let latest = Ord::min(now / 60, LAST_MINUTE);
        first <= latest && self.some_between(first, latest)
    }

    /// Whether a minute between these matches, counted from 1970.
    fn some_between(&self, first: u64, latest: u64) -> bool
        requires order { first ≤ latest }
        requires end { latest ≤ 4223371679 }
        ensures { IsTrue result ↔ SomeMinute self.now first latest }
    {
        for month in month_on(first / 1440)..month_on(latest / 1440) + 1 {
            if self.matches_in_month(month, first, latest) {
                return true;
            }
        }
        false
    }

    /// Whether a minute of a month does, counted from January of year 0.
    fn matches_in_month(&self, month: u64, first: u64, latest: u64) -> bool
        requires low { 23640 ≤ month }
        requires high { month < 120000 }
        requires begun { month_start month ≤ latest / 1440 }
        requires end { latest ≤ 4223371679 }
        ensures { IsTrue result ↔ HasMinuteIn self.now first latest month }
    {
        if !has(self.dates.months.as_slice(), month % 12 + 1) {
            return false;
        }
        self.some_in_month(month_start(month), month_length(month), first, latest)
    }

    /// Whether a minute of a month does, which begins on this day and has so many.
    fn some_in_month(&self, base: u64, length: u64, first: u64, latest: u64) -> bool
        requires base { base ≤ latest / 1440 }
        requires end { latest ≤ 4223371679 }
        requires length { length ≤ 31 }
        ensures { IsTrue result ↔ SomeDay self.now base length first latest }
    {
        let low = (first / 1440).saturating_sub(base);
        let end = Ord::min(length, latest / 1440 + 1 - base);
        for place in low..end {
            if self.matches_on_day(base, place, first, latest) {
                return true;
            }
        }
        false
    }

    /// Whether a minute of a day of a month does.
    fn matches_on_day(&self, base: u64, place: u64, first: u64, latest: u64) -> bool
        requires day { (base + place) * 1440 ≤ latest }
        requires end { latest ≤ 4223371679 }
        ensures { IsTrue result ↔ HasMinuteOn self.now base first latest place }
    {
        if !self.dates.has_day(base, place) {
            return false;
        }
        let midnight = (base + place) * 1440;
        let low = first.saturating_sub(midnight);
        let high = Ord::min(1439, latest - midnight);
        self.times.some_between(low, high)
    }
}
