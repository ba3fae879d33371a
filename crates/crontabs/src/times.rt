//! Times of day.
ghost use Rattle.std.specs.Prelude.{◌*◌, ◌<◌, ◌≤◌, ◌↔◌, IsTrue};

use crate::numbers::{has, has_between};
use crate::stepped_range::SteppedRange;
use wire_values::List;

/// The fields of a crontab that tell a time of day.
#[derive(Drop)]
pub struct Times {
    /// The minutes of an hour, from 0 to 59.
    pub minutes: List<SteppedRange>,
    /// The hours of a day, from 0 to 23.
    pub hours: List<SteppedRange>,
}

impl Times {
    ghost use Rattle.crontabs.specs.Found.{HasTimeIn, SomeTime};

    /// Whether there is a minute between these of a day, counted from midnight.
    pub(crate) fn some_between(&self, low: u64, high: u64) -> bool
        requires { high < 1440 }
        ensures { IsTrue result ↔ SomeTime self.now low high }
    {
        for hour in low / 60..high / 60 + 1 {
            if self.has_in_hour(hour, low, high) {
                return true;
            }
        }
        false
    }

    /// Whether there is a minute of an hour between these of a day.
    fn has_in_hour(&self, hour: u64, low: u64, high: u64) -> bool
        requires hour { hour * 60 ≤ high }
        requires high { high < 1440 }
        ensures { IsTrue result ↔ HasTimeIn self.now low high hour }
    {
        if !has(self.hours.as_slice(), hour) {
            return false;
        }
        let from = low.saturating_sub(hour * 60);
        let to = Ord::min(59, high - hour * 60);
        has_between(self.minutes.as_slice(), from, to)
    }
}
