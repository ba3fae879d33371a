//! Crontab entries: at which minutes of UTC a periodic task comes due (Celery manual, "Crontab schedules").
//!
//! A minute matches where all five fields have it: also where both a day and a weekday are given.
#![tactic(auto)]

mod calendar;
mod crontab;
mod dates;
mod fields;
mod numbers;
mod parts;
mod stepped_range;
mod times;

pub use crontab::Crontab;
pub use dates::Dates;
pub use stepped_range::SteppedRange;
pub use times::Times;
