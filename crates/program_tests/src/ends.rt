//! The other ends of the top call: bad words, reads and writes that fail, and where a message is after each step.
use crate::played::{NEVER, end_of, expect, replayed, sink};
use crate::rows::reports::{ended, one_message, published, recorded};
use links::{MemorySource, Sink, Source};
use std::alloc::{AllocError, Global};
use std::process::Abort;
use std::test::Fail;
use top_call::{out_of_memory, run};
use wire_values::Bytes;

/// Asserts which of the words is the first bad one.
fn expect_bad_word<R: Abort>(
    rt: &R,
    alloc: Global,
    words: &[&str],
    place: u64,
    want: &[u8],
) -> Result<(), AllocError> {
    let mut src = MemorySource::new(Bytes::new(), 1, Vec::new(alloc));
    let mut out = sink(alloc, NEVER)?;
    let end = run(alloc, words, &mut src, &mut out);
    assert!(rt; end == end_of(2, place));
    assert!(rt; out.taken() == want);
    Ok(())
}

#[test]
fn a_bad_word_is_named_by_its_place(rt: HostRuntime) -> Result<(), Fail> {
    expect_bad_word(&rt, rt.alloc(), &[], 0, b"bad word 0\n")?;
    expect_bad_word(&rt, rt.alloc(), &["check"], 0, b"bad word 0\n")?;
    for (words, place) in bad_words() {
        let want = format!(in rt.alloc(); "bad word {place}\n")?;
        expect_bad_word(&rt, rt.alloc(), words, place, want.as_bytes())?;
    }
    Ok(())
}

/// Words of which one is bad, with its place.
fn bad_words() -> [(&'static [&'static str], u64); 22] {
    [
        (&["replay", ""], 1),
        (&["replay", "--"], 1),
        (&["replay", "--make"], 2),
        (&["replay", "--make", ""], 2),
        (&["replay", "--make", "0"], 2),
        (&["replay", "--make", "03"], 2),
        (&["replay", "--make", "+3"], 2),
        (&["replay", "--make", "50001"], 2),
        (&["replay", "--make", "18446744073709551617"], 2),
        (&["replay", "--make", "3", "3"], 3),
        (&["replay", "--make", "x", "3"], 2),
        (&["replay", "--make", "3", "--record"], 3),
        (&["replay", "--record", "--make", "3"], 2),
        (&["replay", "--make=3"], 1),
        (&["replay", "--Record"], 1),
        (&["replay", "--records"], 1),
        (&["replay", "--record="], 1),
        (&["replay", "--record", "--record"], 2),
        (&["replay", "--record", "replay"], 2),
        (&["replay", "replay", "--record"], 1),
        (&["--record", "replay"], 0),
        (&["show", "--record"], 1),
    ]
}

/// Asserts which text a run over the schedule of one message writes whose words ask for its record.
fn expect_record<R: Abort>(rt: &R, alloc: Global, want: &str) -> Result<(), AllocError> {
    let schedule = Bytes::from_slice(alloc, one_message().as_bytes())?;
    let mut src = MemorySource::new(schedule, 7, vec![in alloc; NEVER]?);
    let mut out = sink(alloc, NEVER)?;
    let end = run(alloc, &["replay", "--record"], &mut src, &mut out);
    assert!(rt; end == end_of(0, 0));
    assert!(rt; out.taken() == want.as_bytes());
    Ok(())
}

/// Asserts which text a run with these words writes that reads nothing.
fn expect_made<R: Abort>(
    rt: &R,
    alloc: Global,
    words: &[&str],
    want: &str,
) -> Result<(), AllocError> {
    let mut src = MemorySource::new(Bytes::new(), 1, vec![in alloc; 0]?);
    let mut out = sink(alloc, NEVER)?;
    let end = run(alloc, words, &mut src, &mut out);
    assert!(rt; end == end_of(0, 0), "{want}");
    assert!(rt; out.taken() == want.as_bytes(), "{want}");
    Ok(())
}

#[test]
fn a_made_schedule_is_run(rt: HostRuntime) -> Result<(), Fail> {
    for (count, want) in made_runs() {
        expect_made(&rt, rt.alloc(), &["replay", "--make", count], want)?;
    }
    Ok(())
}

/// How many messages are made, and what is written of their schedule.
fn made_runs() -> [(&'static str, &'static str); 4] {
    [
        (
            "1",
            "made 1 entries 17\ntotal list 0 unacked 0 hand 0 ended 1 lost 0 copies 0\n",
        ),
        (
            "3",
            "made 3 entries 37\ntotal list 0 unacked 0 hand 0 ended 3 lost 0 copies 0\n",
        ),
        (
            "10",
            "made 10 entries 110\ntotal list 1 unacked 0 hand 0 ended 9 lost 0 copies 0\n",
        ),
        (
            "120",
            "made 120 entries 1229\ntotal list 10 unacked 2 hand 0 ended 108 lost 0 copies 0\n",
        ),
    ]
}

#[test]
fn a_record_is_written_where_it_is_asked_for(rt: HostRuntime) -> Result<(), Fail> {
    Ok(expect_record(&rt, rt.alloc(), recorded())?)
}

/// Asserts how a run ends of which the read of this number fails.
fn expect_read_fault<R: Abort>(rt: &R, alloc: Global, failing: u64) -> Result<(), AllocError> {
    let mut out = sink(alloc, NEVER)?;
    let end = replayed(alloc, one_message().as_bytes(), failing, &mut out)?;
    assert!(rt; end == end_of(4, 0), "failing read {failing}");
    assert!(rt; out.taken() == b"read fault\n".as_slice());
    Ok(())
}

#[test]
fn a_source_that_fails_gives_a_read_fault(rt: HostRuntime) -> Result<(), Fail> {
    for failing in [0, 1, 8] {
        expect_read_fault(&rt, rt.alloc(), failing)?;
    }
    Ok(())
}

/// Asserts which front of the report a sink took whose write of this number fails.
fn expect_front<R: Abort>(rt: &R, alloc: Global, failing: usize) -> Result<(), AllocError> {
    let mut out = sink(alloc, failing as u64)?;
    let end = replayed(alloc, one_message().as_bytes(), NEVER, &mut out)?;
    assert!(rt; end == end_of(5, 0), "failing write {failing}");
    let front = published().as_bytes().get(..failing).expect(rt, "a front");
    assert!(rt; out.taken() == front, "failing write {failing}");
    Ok(())
}

#[test]
fn a_sink_that_fails_took_a_front(rt: HostRuntime) -> Result<(), Fail> {
    for failing in 0..published().len() {
        expect_front(&rt, rt.alloc(), failing)?;
    }
    Ok(())
}

#[test]
fn want_of_memory_has_its_text(rt: HostRuntime) -> Result<(), Fail> {
    let mut out = sink(rt.alloc(), NEVER)?;
    let end = out_of_memory(&mut out);
    assert!(rt; end == end_of(11, 0));
    assert!(rt; out.taken() == b"out of memory\n".as_slice());
    Ok(())
}

/// The place of the one message, and the totals, after so many steps of its pop and then of its end.
fn place_after(steps: usize) -> &'static str {
    match steps {
        0 => "place 7:1 list celery 0\ntotal list 1 unacked 0 hand 0 ended 0 lost 0 copies 0\n",
        1..=4 => "place 7:1 hand 2\ntotal list 0 unacked 0 hand 1 ended 0 lost 0 copies 0\n",
        5..=8 => "place 7:1 unacked\ntotal list 0 unacked 1 hand 0 ended 0 lost 0 copies 0\n",
        _ => "place 7:1 ended\ntotal list 0 unacked 0 hand 0 ended 1 lost 0 copies 0\n",
    }
}

/// The lines of a message that is published, and of so many steps of its pop and then of its end.
fn schedule_of(alloc: Global, steps: usize) -> Result<String, AllocError> {
    let mut schedule = String::from_str(alloc, one_message())?;
    schedule.push_str("client 2 seed 8\nbegin 2 pop celery\n")?;
    for step in 1..=steps {
        if step == 6 {
            schedule.push_str("begin 2 ack 7:1\n")?;
        }
        schedule.push_str("step 2\n")?;
    }
    Ok(schedule)
}

/// The report of so many steps: its head, the publication and the steps, and the place.
fn report_of(alloc: Global, steps: usize) -> Result<String, AllocError> {
    let mut report = String::new(alloc);
    for line in ended().split_inclusive('\n').take(steps.wrapping_add(2)) {
        report.push_str(line)?;
    }
    report.push_str(place_after(steps))?;
    Ok(report)
}

/// Asserts the report after so many steps.
fn expect_after<R: Abort>(rt: &R, alloc: Global, steps: usize) -> Result<(), AllocError> {
    let schedule = schedule_of(alloc, steps)?;
    let report = report_of(alloc, steps)?;
    expect(
        rt,
        alloc,
        schedule.as_bytes(),
        end_of(0, 0),
        report.as_bytes(),
    )
}

#[test]
fn a_message_has_its_place_after_each_step(rt: HostRuntime) -> Result<(), Fail> {
    for steps in 0..10usize {
        expect_after(&rt, rt.alloc(), steps)?;
    }
    Ok(())
}
