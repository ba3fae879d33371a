//! A decoder's answers call by call, and the writing of what it gave.
use crate::compared::same;
use resp_wire::{Decoder, WireFault};
use std::alloc::{AllocError, Global};
use std::process::Abort;
use std::test::Fail;
use wire_spelling::{encode, fits};
use wire_values::Value;

/// What is fed to one decoder, call after call: the piece, then what `next` answers, and then the bytes that are pending.
fn calls() -> &'static [(&'static str, &'static str, u64)] {
    &[
        ("", "none", 0),
        ("*2\r\n:1", "none", 6),
        ("", "none", 6),
        ("\r\n+a\r\n$3", "*2\r\n:1\r\n+a\r\n", 2),
        ("\r\nabc\r\n-e\r\n", "$3\r\nabc\r\n", 4),
        ("", "-e\r\n", 0),
        ("", "none", 0),
        (":1\r\nx+", ":1\r\n", 2),
        ("", "BadKind at 29", 2),
        (":2\r\n", "BadKind at 29", 6),
        ("", "BadKind at 29", 6),
    ]
}

/// Values of each form, as they are written.
fn spellings() -> &'static [&'static str] {
    &[
        "+OK\r\n",
        "-ERR no such key\r\n",
        ":-9223372036854775808\r\n",
        "$0\r\n\r\n",
        "$5\r\na\r\nbc\r\n",
        "$-1\r\n",
        "*0\r\n",
        "*-1\r\n",
        "*2\r\n*2\r\n:0\r\n*1\r\n*-1\r\n$1\r\nk\r\n",
    ]
}

/// The spelling of a value that fits.
fn written(alloc: Global, value: &Value) -> Result<String, AllocError> {
    if !fits(value) {
        return String::from_str(alloc, "a value that doesn't fit");
    }
    let bytes = encode(alloc, value)?;
    String::from_str(alloc, str::from_utf8(bytes.as_slice()).unwrap_or("no text"))
}

/// What `next` answers, as a row has it.
fn next_text(alloc: Global, decoder: &mut Decoder) -> Result<String, AllocError> {
    match decoder.next(alloc) {
        Ok(Some(value)) => written(alloc, &value),
        Ok(None) => String::from_str(alloc, "none"),
        Err(WireFault::Bad { kind, place }) => format!(in alloc; "{kind:?} at {place}"),
        Err(WireFault::Memory) => String::from_str(alloc, "memory"),
    }
}

/// Asserts what comes of a piece.
fn expect_next<R: Abort>(
    rt: &R,
    alloc: Global,
    decoder: &mut Decoder,
    row: (&str, &str, u64),
) -> Result<(), AllocError> {
    let (piece, want, pending) = row;
    decoder.feed(alloc, piece.as_bytes())?;
    let found = next_text(alloc, decoder)?;
    same(rt, want, found.as_str(), want);
    same(rt, want, decoder.pending(), pending);
    Ok(())
}

#[test]
fn a_decoder_answers_call_by_call(rt: HostRuntime) -> Result<(), Fail> {
    let mut decoder = Decoder::new(rt.alloc());
    for row in calls() {
        expect_next(&rt, rt.alloc(), &mut decoder, *row)?;
    }
    Ok(())
}

#[test]
fn what_is_read_is_written_again(rt: HostRuntime) -> Result<(), Fail> {
    for spelling in spellings() {
        let mut decoder = Decoder::new(rt.alloc());
        expect_next(&rt, rt.alloc(), &mut decoder, (spelling, spelling, 0))?;
    }
    Ok(())
}
