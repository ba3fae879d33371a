//! The fields of a crontab, as they are spelled.
ghost use Rattle.std.specs.Prelude.{◌≡◌, ◌==◌, IfOk, map};
ghost use Rattle.std.specs.List.{slice_split};
ghost use Rattle.crontabs.specs.FieldTexts.{crontab_in, dates_in, field_in, field_parts, times_in};

use crate::crontab::Crontab;
use crate::dates::Dates;
use crate::parts::field_part;
use crate::stepped_range::SteppedRange;
use crate::times::Times;
use std::alloc::{AllocError, Global};
use wire_values::List;

/// The crontab that five fields spell.
pub(crate) fn crontab_in(
    alloc: Global,
    minute: &str,
    hour: &str,
    day: &str,
    month: &str,
    weekday: &str,
) -> Result<Option<Crontab>, AllocError>
    ensures { IfOk result (λ found. found ≡ crontab_in minute.now hour.now day.now month.now weekday.now) }
{
    let Some(times) = times_in(alloc, minute, hour)? else {
        return Ok(None);
    };
    let Some(dates) = dates_in(alloc, day, month, weekday)? else {
        return Ok(None);
    };
    Ok(Some(Crontab { times, dates }))
}

/// Minutes and hours.
fn times_in(alloc: Global, minute: &str, hour: &str) -> Result<Option<Times>, AllocError>
    ensures { IfOk result (λ found. found ≡ times_in minute.now hour.now) }
{
    let Some(minutes) = field_in(alloc, 0, 59, minute)? else {
        return Ok(None);
    };
    let Some(hours) = field_in(alloc, 0, 23, hour)? else {
        return Ok(None);
    };
    Ok(Some(Times { minutes, hours }))
}

/// Days, months and weekdays.
fn dates_in(
    alloc: Global,
    day: &str,
    month: &str,
    weekday: &str,
) -> Result<Option<Dates>, AllocError>
    ensures { IfOk result (λ found. found ≡ dates_in day.now month.now weekday.now) }
{
    let Some(days) = field_in(alloc, 1, 31, day)? else {
        return Ok(None);
    };
    let Some(months) = field_in(alloc, 1, 12, month)? else {
        return Ok(None);
    };
    let Some(weekdays) = field_in(alloc, 0, 6, weekday)? else {
        return Ok(None);
    };
    Ok(Some(Dates {
        days,
        months,
        weekdays,
    }))
}

/// A field whose numbers lie between these: parts with commas between them.
#[tactic(auto, unfolding(crate::specs::FieldTexts::field_in))]
fn field_in(
    alloc: Global,
    low: u64,
    high: u64,
    word: &str,
) -> Result<Option<List<SteppedRange>>, AllocError>
    ensures { IfOk result (λ found. found ≡ field_in low high word.now) }
{
    let parts = parts(alloc, word)?;
    field_parts(alloc, low, high, parts.as_slice())
}

/// The parts of a field.
fn parts<'a>(alloc: Global, word: &'a str) -> Result<Vec<&'a str>, AllocError>
    ensures { IfOk result (λ found. map (λ part. part.now) found.items ≡ slice_split (λ b. b == 44) word.now) }
{
    word.split(',').collect(alloc)
}

/// What parts spell.
fn field_parts(
    alloc: Global,
    low: u64,
    high: u64,
    parts: &[&str],
) -> Result<Option<List<SteppedRange>>, AllocError>
    ensures { IfOk result (λ found. found ≡ field_parts low high (map (λ part. part.now) parts.now)) }
{
    let mut found = List::new();
    for part in parts {
        match field_part(low, high, part) {
            Some(steps) => found.push(alloc, steps)?,
            None => return Ok(None),
        }
    }
    Ok(Some(found))
}
