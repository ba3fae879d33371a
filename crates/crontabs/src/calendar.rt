//! Days and months by the kit's calendar.
ghost use Rattle.std.specs.Prelude.{◌≡◌, ◌+◌, ◌<◌, ◌≤◌};
ghost use Rattle.crontabs.specs.Months.{month_length, month_start};

use jiff_core::civil::{Date, days_in_month};

/// The days from the first that the kit's calendar has to 1 January 1970.
const FIRST_DAY: u32 = 4_371_587;

/// The month in which a day lies, of the years 1970 to 9999. Days are counted from 1 January 1970, months from January of
/// year 0.
pub(crate) fn month_on(day: u64) -> u64
    requires { day ≤ 2932896 }
    ensures low { 23640 ≤ result }
    ensures high { result < 120000 }
    ensures since { month_start result ≤ day }
    ensures within { day < month_start result + month_length result }
{
    let date = Date::from_days_since_min(day as u32 + FIRST_DAY);
    date.year as u64 * 12 + date.month as u64 - 1
}

/// The day on which a month of the years 1970 to 9999 begins.
pub(crate) fn month_start(month: u64) -> u64
    requires low { 23640 ≤ month }
    requires high { month < 120000 }
    ensures value { result ≡ month_start month }
    ensures bound { result ≤ 2932896 }
{
    let date = Date::constrain((month / 12) as i16, (month % 12) as u8 + 1, 1);
    (date.days_since_min() - FIRST_DAY) as u64
}

/// How many days a month of the years 1970 to 9999 has.
pub(crate) fn month_length(month: u64) -> u64
    requires { month < 120000 }
    ensures value { result ≡ month_length month }
    ensures bound { result ≤ 31 }
{
    days_in_month((month / 12) as i16, (month % 12) as u8 + 1) as u64
}
