//! Dates.
ghost use Rattle.std.specs.Prelude.{◌≡◌, ◌<◌, ◌^◌, ◌↔◌, IsTrue};

use crate::numbers::has;
use crate::stepped_range::SteppedRange;
use wire_values::List;

/// The fields of a crontab that tell a date.
#[derive(Drop)]
pub struct Dates {
    /// The days of a month, from 1 to 31.
    pub days: List<SteppedRange>,
    /// The months of a year, from 1 to 12.
    pub months: List<SteppedRange>,
    /// The days of a week, from 0 to 6; 0 is Sunday.
    pub weekdays: List<SteppedRange>,
}

impl Dates {
    ghost use Rattle.crontabs.specs.Found.{HasDay};

    /// Whether the day at a place of a month, from 0, is one of them. The month begins on a day counted from 1 January
    /// 1970.
    pub(crate) fn has_day(&self, base: u64, place: u64) -> bool
        requires base { base < 2 ^ 32 }
        requires place { place < 2 ^ 32 }
        ensures { IsTrue result ↔ HasDay self.now base place }
    {
        // 1 January 1970 was a Thursday.
        has(self.days.as_slice(), place + 1)
            && has(self.weekdays.as_slice(), (base + place + 4) % 7)
    }
}
