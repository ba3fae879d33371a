//! Crontabs, spans of seconds, and whether a matching minute began in them.
use crontabs::Crontab;
use std::alloc::{AllocError, Global};
use std::test::Fail;

/// Rows of five fields parted by blanks, the last moment, the present one, and whether the crontab is due. Each moment is
/// in seconds since 1970; the comments tell the first minute that matches.
fn rows() -> &'static [(&'static str, u64, u64, bool)] {
    &[
        // 2024-05-01 12:15:00
        ("*/15 * * * *", 1714564800, 1714565699, false),
        ("*/15 * * * *", 1714564800, 1714565700, true),
        ("*/15 * * * *", 1714565700, 1714566599, false),
        ("*/15 * * * *", 1714565700, 1714567620, true),
        // the first minute of all isn't after the moment at which it began
        ("* * * * *", 0, 59, false),
        ("* * * * *", 0, 60, true),
        ("* * * * *", 59, 60, true),
        ("* * * * *", 60, 60, false),
        // steps go from the first of a range: 1970-01-01 00:05, 00:12, 00:19
        ("5-59/7 * * * *", 0, 299, false),
        ("5-59/7 * * * *", 0, 300, true),
        ("5-59/7 * * * *", 300, 719, false),
        ("5-59/7 * * * *", 300, 720, true),
        // a list: 1970-01-01 03:00
        ("0 9,3 * * *", 0, 10799, false),
        ("0 9,3 * * *", 0, 10800, true),
        // Sunday is 0: 1970-01-04 00:00
        ("0 0 * * 0", 0, 259199, false),
        ("0 0 * * 0", 0, 259200, true),
        // day and weekday both match: Friday, 1970-02-13 00:00
        ("0 0 13 * 5", 0, 3715199, false),
        ("0 0 13 * 5", 0, 3715200, true),
        // 29 February: 1972-02-29 12:00, and 2104 after 2096
        ("0 12 29 2 *", 0, 68212799, false),
        ("0 12 29 2 *", 0, 68212800, true),
        ("0 0 29 2 *", 3981312000, 4233686399, false),
        ("0 0 29 2 *", 3981312000, 4233686400, true),
        // no February has a 30th
        ("* * 30 2 *", 0, 253402300799, false),
        // the end of the year 9999: 23:59 is the last minute
        ("59 23 31 12 *", 253402300739, 253402300740, true),
        ("* * * * *", 253402300740, 18446744073709551615, false),
        ("* * * * *", 253402300739, 18446744073709551615, true),
        (
            "* * * * *",
            18446744073709551615,
            18446744073709551615,
            false,
        ),
    ]
}

/// The crontab that five words spell.
fn crontab(alloc: Global, fields: &str) -> Result<Option<Crontab>, AllocError> {
    let words: Vec<&str> = fields.split(' ').collect(alloc)?;
    match words.as_slice() {
        [minute, hour, day, month, weekday] => {
            Crontab::read(alloc, minute, hour, day, month, weekday)
        }
        [] | [_] | [_, _] | [_, _, _] | [_, _, _, _] | [_, _, _, _, _, _, ..] => Ok(None),
    }
}

#[test]
fn crontabs_are_due_as_listed(rt: HostRuntime) -> Result<(), Fail> {
    for (fields, last, now, is_due) in rows() {
        let read = crontab(rt.alloc(), fields)?.ok_or("no crontab")?;
        assert!(rt;
            read.is_due(*last, *now) == *is_due,
            "{fields} {last} {now}"
        );
    }
    Ok(())
}
