//! The five fields of a crontab, and whether they spell one.
use crontabs::Crontab;
use std::test::Fail;

/// Rows of minute, hour, day, month and weekday, and whether they are a crontab.
fn rows() -> &'static [(
    &'static str,
    &'static str,
    &'static str,
    &'static str,
    &'static str,
    bool,
)] {
    &[
        ("*", "*", "*", "*", "*", true),
        ("0,15,30-45/5", "*/2", "1-31", "1,12", "0-6/3", true),
        ("*/99999999999999999999999", "*", "*", "*", "*", true),
        ("59", "23", "31", "12", "6", true),
        ("60", "*", "*", "*", "*", false),
        ("*", "24", "*", "*", "*", false),
        ("*", "*", "0", "*", "*", false),
        ("*", "*", "32", "*", "*", false),
        ("*", "*", "*", "0", "*", false),
        ("*", "*", "*", "13", "*", false),
        ("*", "*", "*", "*", "7", false),
        ("5-3", "*", "*", "*", "*", false),
        ("*/0", "*", "*", "*", "*", false),
        ("5/2", "*", "*", "*", "*", false),
        ("05", "*", "*", "*", "*", false),
        ("1,", "*", "*", "*", "*", false),
        ("", "*", "*", "*", "*", false),
        ("1-2-3", "*", "*", "*", "*", false),
        ("*/2/2", "*", "*", "*", "*", false),
        ("-1", "*", "*", "*", "*", false),
        ("*-5", "*", "*", "*", "*", false),
        ("*", "*", "*", "*", "sun", false),
    ]
}

#[test]
fn fields_are_read_as_listed(rt: HostRuntime) -> Result<(), Fail> {
    for (minute, hour, day, month, weekday, is_one) in rows() {
        let read = Crontab::read(rt.alloc(), minute, hour, day, month, weekday)?;
        assert!(rt;
            read.is_some() == *is_one,
            "{minute} {hour} {day} {month} {weekday}"
        );
    }
    Ok(())
}
