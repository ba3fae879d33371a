//! The rows, run by the top call.
use crate::rows::{bad_lines, limits, overdue, reports, returned};
use crate::spelled::spelled;
use line_text::number_in;
use links::{MemorySink, MemorySource};
use std::alloc::{AllocError, Global};
use std::process::Abort;
use std::test::Fail;
use top_call::{Ended, run};
use wire_values::Bytes;

/// A call that isn't made, so that no call fails.
pub const NEVER: u64 = u64::MAX;

/// An end of a run that leaves no messages.
pub fn end_of(status: u8, place: u64) -> Ended {
    Ended {
        status,
        place,
        left: 0,
    }
}

/// A sink that takes pieces of one byte, and fails at the call of this number.
pub fn sink(alloc: Global, failing: u64) -> Result<MemorySink, AllocError> {
    MemorySink::new(alloc, 20_000, 1, vec![in alloc; failing]?)
}

/// A run of `replay` over a schedule in pieces of 7 bytes, of which the read of this number fails, into this sink.
pub fn replayed(
    alloc: Global,
    schedule: &[u8],
    failing: u64,
    out: &mut MemorySink,
) -> Result<Ended, AllocError> {
    let bytes = Bytes::from_slice(alloc, schedule)?;
    let mut src = MemorySource::new(bytes, 7, vec![in alloc; failing]?);
    Ok(run(alloc, &["replay"], &mut src, out))
}

/// Asserts how the run of a schedule ends, and what is written; a `*` is any text.
pub fn expect<R: Abort>(
    rt: &R,
    alloc: Global,
    schedule: &[u8],
    end: Ended,
    want: &[u8],
) -> Result<(), AllocError> {
    let mut out = sink(alloc, NEVER)?;
    let found = replayed(alloc, schedule, NEVER, &mut out)?;
    let written = str::from_utf8(out.taken()).unwrap_or("no text");
    if want != b"*\n".as_slice() {
        assert_eq!(rt; written, str::from_utf8(want).unwrap_or("no text"));
    }
    assert_eq!(rt; found, end, "{written}");
    Ok(())
}

/// Asserts that a row's lines, after this front, end a run by a bad line of the row's number and reason.
fn expect_bad<R: Abort>(rt: &R, alloc: Global, front: &str, row: &str) -> Result<(), AllocError> {
    let (head, lines) = row.split_once(" | ").expect(rt, "a row");
    let (line, reason) = head.split_once(' ').expect(rt, "a line and a reason");
    let number = number_in(1, 10, line).expect(rt, "a line");
    let text = format!(in alloc; "{front}{lines}")?;
    let schedule = spelled(alloc, text.as_str())?;
    let want = format!(in alloc; "bad line {line}: {reason}\n")?;
    expect(
        rt,
        alloc,
        schedule.as_slice(),
        end_of(3, number),
        want.as_bytes(),
    )
}

/// Asserts it of each row.
fn expect_each<R: Abort>(rt: &R, alloc: Global, front: &str, rows: &str) -> Result<(), AllocError> {
    for row in rows.split('\n') {
        if !row.is_empty() && !row.starts_with('#') {
            expect_bad(rt, alloc, front, row)?;
        }
    }
    Ok(())
}

#[test]
fn a_bad_line_has_its_reason(rt: HostRuntime) -> Result<(), Fail> {
    let header = "celery-schedule 1\\n";
    expect_each(&rt, rt.alloc(), "", bad_lines::headers())?;
    Ok(expect_each(&rt, rt.alloc(), header, bad_lines::after_a_header())?)
}

/// Asserts a row's status, place and text.
fn expect_row<R: Abort>(rt: &R, alloc: Global, row: &str) -> Result<(), AllocError> {
    let (head, rest) = row.split_once(" | ").expect(rt, "a row");
    let (text, schedule) = rest.split_once(" | ").expect(rt, "a text and a schedule");
    let (status, place) = head.split_once(' ').expect(rt, "a status and a place");
    let status = number_in(0, 255, status).expect(rt, "a status") as u8;
    let place = number_in(0, 10, place).expect(rt, "a place");
    let schedule = spelled(alloc, schedule)?;
    let want = wanted(alloc, text)?;
    expect(
        rt,
        alloc,
        schedule.as_slice(),
        end_of(status, place),
        want.as_bytes(),
    )
}

/// The text that a row's word stands for.
fn wanted(alloc: Global, text: &str) -> Result<String, AllocError> {
    match text {
        "report" => String::from_str(alloc, reports::published()),
        "nothing" => String::from_str(alloc, reports::nothing()),
        _ => format!(in alloc; "{text}\n"),
    }
}

#[test]
fn a_schedule_at_the_limits_ends_so(rt: HostRuntime) -> Result<(), Fail> {
    for row in limits::at_limits().split('\n') {
        if !row.is_empty() && !row.starts_with('#') {
            expect_row(&rt, rt.alloc(), row)?;
        }
    }
    Ok(())
}

/// Asserts that a schedule has this report.
fn expect_report<R: Abort>(
    rt: &R,
    alloc: Global,
    schedule: &str,
    report: &str,
) -> Result<(), AllocError> {
    expect(
        rt,
        alloc,
        schedule.as_bytes(),
        end_of(0, 0),
        report.as_bytes(),
    )
}

/// Asserts that the schedule of each row, which stands after its remark, has the report after it.
fn expect_reports<R: Abort>(rt: &R, alloc: Global, rows: &str) -> Result<(), AllocError> {
    for row in rows.split("\n# ") {
        if !row.is_empty() {
            let (_, row) = row.split_once('\n').expect(rt, "a remark");
            let (schedule, lines) = row.split_once("celery-report 1\n").expect(rt, "a report");
            let report = format!(in alloc; "celery-report 1\n{lines}\n")?;
            expect_report(rt, alloc, schedule, report.as_str())?;
        }
    }
    Ok(())
}

#[test]
fn a_schedule_has_its_report(rt: HostRuntime) -> Result<(), Fail> {
    for (schedule, report) in reports::shared() {
        expect_report(&rt, rt.alloc(), schedule, report)?;
    }
    expect_reports(&rt, rt.alloc(), reports::reports())?;
    expect_reports(&rt, rt.alloc(), returned::returns())?;
    Ok(expect_reports(&rt, rt.alloc(), overdue::passes())?)
}
