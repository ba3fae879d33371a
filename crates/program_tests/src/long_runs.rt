//! Long runs of `replay`, whose schedules are built here: many messages of one client, long arguments, and a history that
//! is full. A run that gave up early would end otherwise.
use crate::played::end_of;
use crate::rows::stops;
use links::{MemorySink, MemorySource};
use std::alloc::{AllocError, Global};
use std::process::Abort;
use std::test::Fail;
use top_call::{Ended, run};
use wire_values::Bytes;

/// A text, and then some lines so many times.
fn repeated(alloc: Global, head: &str, lines: &str, times: usize) -> Result<String, AllocError> {
    let mut text = String::from_str(alloc, head)?;
    for _ in 0..times {
        text.push_str(lines)?;
    }
    Ok(text)
}

/// Asserts how a run over a schedule ends, and with which text the report ends.
fn expect_last<R: Abort>(
    rt: &R,
    alloc: Global,
    schedule: &str,
    end: Ended,
    last: &str,
) -> Result<(), AllocError> {
    let bytes = Bytes::from_slice(alloc, schedule.as_bytes())?;
    let mut src = MemorySource::new(bytes, 65_536, Vec::new(alloc));
    let mut out = MemorySink::new(alloc, 10_000_000, 65_536, Vec::new(alloc))?;
    let found = run(alloc, &["replay"], &mut src, &mut out);
    assert!(rt; out.taken().ends_with(last.as_bytes()), "not {last}");
    assert_eq!(rt; found, end);
    Ok(())
}

#[test]
fn a_client_publishes_some_thousand_messages(rt: HostRuntime) -> Result<(), Fail> {
    let head = "celery-schedule 1\nclient 1 seed 7\n";
    let lines = "begin 1 publish - celery 0 tasks.add [ 2, 3 ]\nrun 1\n";
    let schedule = repeated(rt.alloc(), head, lines, 5_000)?;
    let last = "total list 5000 unacked 0 hand 0 ended 0 lost 0 copies 0\n";
    Ok(expect_last(&rt, rt.alloc(), schedule.as_str(), end_of(0, 0), last)?)
}

#[test]
fn arguments_of_sixty_thousand_bytes_are_published(rt: HostRuntime) -> Result<(), Fail> {
    let head = "celery-schedule 1\nclient 1 seed 7\nbegin 1 publish - celery 0 tasks.sum [ 17";
    let mut schedule = repeated(rt.alloc(), head, ", 17", 15_000)?;
    schedule.push_str(" ]\nrun 1\n")?;
    let last = "total list 1 unacked 0 hand 0 ended 0 lost 0 copies 0\n";
    Ok(expect_last(&rt, rt.alloc(), schedule.as_str(), end_of(0, 0), last)?)
}

/// Asserts of a row where the message is after the stop, and that the client is gone.
fn expect_stopped<R: Abort>(rt: &R, alloc: Global, row: stops::Row) -> Result<(), AllocError> {
    let (block, steps, places) = row;
    let head =
        "celery-schedule 1\nclient 1 seed 7\nclient 2 seed 8\nbegin 1 publish - celery 0 tasks.add []\nrun 1\n";
    let begun = format!(in alloc; "{head}{block}")?;
    let mut schedule = repeated(alloc, begun.as_str(), "step 2\n", steps)?;
    schedule.push_str("stop 2\n")?;
    let last = format!(in alloc; "- 2 STOP\n{places}")?;
    expect_last(rt, alloc, schedule.as_str(), end_of(0, 0), last.as_str())
}

#[test]
fn a_client_stops_after_each_command(rt: HostRuntime) -> Result<(), Fail> {
    for row in stops::pops() {
        expect_stopped(&rt, rt.alloc(), row)?;
    }
    for row in stops::acknowledgements() {
        expect_stopped(&rt, rt.alloc(), row)?;
    }
    for row in stops::passes() {
        expect_stopped(&rt, rt.alloc(), row)?;
    }
    Ok(())
}

#[test]
fn a_client_stops_at_an_answer_that_is_not_listed(rt: HostRuntime) -> Result<(), Fail> {
    let mut schedule = String::from_str(rt.alloc(), "celery-schedule 1\nclient 1 seed 7\n")?;
    // A set holds 1,024 members.
    for number in 0..1_025 {
        let lines = format!(in rt.alloc(); "begin 1 declare news - hot q{number}\nrun 1\n")?;
        schedule.push_str(lines.as_str())?;
    }
    schedule.push_str("begin 1 ack 7:1\n")?;
    let last = "bad line 2053: stopped\n";
    Ok(expect_last(&rt, rt.alloc(), schedule.as_str(), end_of(3, 2_053), last)?)
}

#[test]
fn a_full_history_is_told_with_its_numbers(rt: HostRuntime) -> Result<(), Fail> {
    let head = "celery-schedule 1\nclient 1 seed 7\n";
    let lines = "begin 1 pop q\nrun 1\n";
    let schedule = repeated(rt.alloc(), head, lines, 1_000_001)?;
    let last = "history full 1000000 83000000\n";
    Ok(expect_last(&rt, rt.alloc(), schedule.as_str(), end_of(9, 0), last)?)
}
