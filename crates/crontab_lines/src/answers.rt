//! What is answered to a line.
use crontabs::Crontab;
use std::alloc::{AllocError, Global};

/// The answer to a line of the last moment, the present one, and the five fields: `due`, `idle`, or `bad` where the
/// fields are no crontab; and `syntax` to any other line.
pub(crate) fn answer(alloc: Global, line: &str) -> Result<&'static str, AllocError> {
    let words: Vec<&str> = line.split(' ').collect(alloc)?;
    match words.as_slice() {
        [last, now, fields @ ..] => match (last.parse::<u64>(), now.parse::<u64>()) {
            (Ok(last), Ok(now)) => span(alloc, last, now, fields),
            _ => Ok("syntax"),
        },
        [] | [_] => Ok("syntax"),
    }
}

/// Whether the crontab of these fields is due.
fn span(alloc: Global, last: u64, now: u64, fields: &[&str]) -> Result<&'static str, AllocError> {
    match fields {
        [minute, hour, day, month, weekday] => {
            let read = Crontab::read(alloc, minute, hour, day, month, weekday)?;
            Ok(told(read, last, now))
        }
        [] | [_] | [_, _] | [_, _, _] | [_, _, _, _] | [_, _, _, _, _, _, ..] => Ok("syntax"),
    }
}

/// The answer of what was read.
fn told(read: Option<Crontab>, last: u64, now: u64) -> &'static str {
    match read {
        Some(crontab) => if crontab.is_due(last, now) {
            "due"
        } else {
            "idle"
        },
        None => "bad",
    }
}
