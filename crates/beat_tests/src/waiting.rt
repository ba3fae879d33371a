//! Timers, and what comes due.
use eta_timers::Timers;
use moments::Moment;
use std::test::Fail;

/// Timers that are added: numbers and moments.
fn added() -> &'static [(u64, i64)] {
    &[(1, 50), (3, 40), (2, 40)]
}

/// Rows of a moment and the number that is due, asked one after the other of those timers.
fn rows() -> &'static [(i64, Option<u64>)] {
    &[
        (39, None),
        (40, Some(2)),
        (40, Some(3)),
        (40, None),
        (50, Some(1)),
        (50, None),
    ]
}

#[test]
fn timers_come_due_as_listed(rt: HostRuntime) -> Result<(), Fail> {
    let mut timers = Timers::new(rt.alloc());
    for (number, at) in added() {
        assert!(rt; !timers.has(*number), "a new number");
        timers.add(*number, Moment(*at))?;
    }
    assert!(rt; timers.due_count(Moment(49)) == 2, "two are due");
    for (now, number) in rows() {
        assert!(rt; timers.due(Moment(*now)) == *number, "at {now}");
    }
    assert!(rt; timers.is_empty(), "all were due");
    Ok(())
}

#[test]
fn a_timer_that_is_removed_never_comes_due(rt: HostRuntime) -> Result<(), Fail> {
    let mut timers = Timers::new(rt.alloc());
    for (number, at) in added() {
        assert!(rt; !timers.has(*number), "a new number");
        timers.add(*number, Moment(*at))?;
    }
    assert!(rt; timers.remove(2), "2 was there");
    assert!(rt; !timers.remove(2), "2 is gone");
    assert!(rt; timers.due(Moment(60)) == Some(3), "the least moment");
    assert!(rt; timers.len() == 1, "one is left");
    Ok(())
}
