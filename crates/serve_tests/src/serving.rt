//! Runs of `serve`.
ghost use Rattle.std.specs.Prelude.{IfOk};
ghost use Rattle.net_links.specs.MemoryForms.{IsUnusedLink};

use crate::rows::{
    Incoming, Row, bad_words, refused, rows_of_nets, rows_of_sessions, rows_of_sinks,
};
use links::{MemorySink, MemorySource};
use net_links::{MemoryLink, MemoryNet, StepClock};
use std::alloc::{AllocError, Global};
use std::process::Abort;
use std::test::Fail;
use waiting_call::run_wait;
use wire_values::Bytes;

fn link(alloc: Global, incoming: &Incoming) -> Result<MemoryLink, AllocError>
    ensures { IfOk result IsUnusedLink }
{
    let (bytes, failing) = incoming;
    let fails = vec![in alloc; *failing]?;
    Ok(MemoryLink::new(Bytes::from_slice(alloc, bytes)?, 14, fails))
}

fn net(alloc: Global, row: &Row) -> Result<MemoryNet, AllocError> {
    let [first, second] = &row.links;
    let links = vec![in alloc; link(alloc, first)?, link(alloc, second)?]?;
    Ok(MemoryNet::new(links, vec![in alloc; row.net_fails]?))
}

fn sink(alloc: Global, row: &Row) -> Result<MemorySink, AllocError> {
    MemorySink::new(alloc, 10_000, 9, vec![in alloc; row.sink_fails]?)
}

/// The words of a row; no text is no word.
fn words_of(alloc: Global, line: &'static str) -> Result<Vec<&'static str>, AllocError> {
    let mut words = Vec::new(alloc);
    if line.is_empty() {
        return Ok(words);
    }
    for word in line.split(' ') {
        words.push(word)?;
    }
    Ok(words)
}

/// What each link sent that a net closed.
fn closed(alloc: Global, net: &MemoryNet) -> Result<Vec<u8>, AllocError> {
    let mut out = Vec::new(alloc);
    for at in 0..net.closed_count() {
        out.extend_from_slice(net.sent_by(at))?;
        out.extend_from_slice(b"|")?;
    }
    Ok(out)
}

/// Asserts how a run ends, what it writes, and what its links send.
fn expect_run<R: Abort>(rt: &R, alloc: Global, row: &Row) -> Result<(), AllocError> {
    let mut src = MemorySource::new(Bytes::new(), 1, Vec::new(alloc));
    let mut out = sink(alloc, row)?;
    let mut net = net(alloc, row)?;
    let clock = StepClock::new(5_000_000, 1_000_000);
    let words = words_of(alloc, row.words)?;
    let end = run_wait(
        alloc,
        words.as_slice(),
        &mut src,
        &mut out,
        &mut net,
        &clock,
    );
    let sent = closed(alloc, &net)?;
    let words = row.words;
    assert!(rt; out.taken() == row.text.as_bytes(), "text: {words}");
    assert!(rt; sent.as_slice() == row.sent.as_bytes(), "sent: {words}");
    assert!(rt;
        end.status == row.status && end.place == row.place && end.left == 0,
        "status: {words}"
    );
    Ok(())
}

/// Asserts which of the words is the first bad one.
fn expect_bad_word<R: Abort>(
    rt: &R,
    alloc: Global,
    words: &'static str,
    place: u64,
) -> Result<(), AllocError> {
    let text = match place {
        0 => "bad word 0\n",
        1 => "bad word 1\n",
        2 => "bad word 2\n",
        3 => "bad word 3\n",
        4 => "bad word 4\n",
        5 => "bad word 5\n",
        _ => "bad word 6\n",
    };
    expect_run(rt, alloc, &refused(words, place, text))
}

#[test]
fn connections_are_served_and_told(rt: HostRuntime) -> Result<(), Fail> {
    for row in &rows_of_nets() {
        expect_run(&rt, rt.alloc(), row)?;
    }
    for row in &rows_of_sessions() {
        expect_run(&rt, rt.alloc(), row)?;
    }
    for row in &rows_of_sinks() {
        expect_run(&rt, rt.alloc(), row)?;
    }
    Ok(())
}

#[test]
fn a_bad_word_of_serve_is_named_by_its_place(rt: HostRuntime) -> Result<(), Fail> {
    for (words, place) in &bad_words() {
        expect_bad_word(&rt, rt.alloc(), words, *place)?;
    }
    Ok(())
}
