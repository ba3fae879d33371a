//! Whole reads and whole writes over the forms in memory.
use crate::compared::same;
use links::{MemorySink, MemorySource, ReadEnd, read_to_end, write_all};
use std::alloc::{AllocError, Global};
use std::process::Abort;
use std::test::Fail;
use wire_values::Bytes;

/// The end of a read of five bytes, in pieces of two, of which the call of this number fails.
fn read_end(alloc: Global, limit: u64, failing: u64) -> Result<&'static str, AllocError> {
    let bytes = Bytes::from_slice(alloc, b"a\nb\nc")?;
    let mut src = MemorySource::new(bytes, 2, vec![in alloc; failing]?);
    let end = read_to_end(alloc, &mut src, limit);
    Ok(end_text(&end))
}

/// The word of such an end.
fn end_text(end: &Result<Bytes, ReadEnd>) -> &'static str {
    match end {
        Ok(bytes) if bytes.as_slice() == b"a\nb\nc".as_slice() => "all",
        Err(ReadEnd::Long(bytes)) if bytes.len() == 5 => "long",
        Err(ReadEnd::Fault) => "fault",
        _ => "another end",
    }
}

#[test]
fn reads_in_pieces_up_to_the_limit(rt: HostRuntime) -> Result<(), Fail> {
    for (limit, failing, want) in [
        (5, 9, "all"),
        (u64::MAX, 9, "all"),
        (4, 9, "long"),
        (5, 0, "fault"),
    ] {
        same(&rt, want, read_end(rt.alloc(), limit, failing)?, want);
    }
    Ok(())
}

/// Asserts which front of five bytes a sink of this room takes in pieces of two, of which the call of this number fails.
fn expect_taken<R: Abort>(
    rt: &R,
    alloc: Global,
    room: u64,
    failing: u64,
    want: &str,
) -> Result<(), AllocError> {
    let mut out = MemorySink::new(alloc, room, 2, vec![in alloc; failing]?)?;
    let is_whole = write_all(&mut out, b"abcde").is_ok();
    same(rt, want, is_whole, want.len() == 5);
    same(rt, want, out.taken(), want.as_bytes());
    Ok(())
}

#[test]
fn writes_until_a_write_fails(rt: HostRuntime) -> Result<(), Fail> {
    for (room, failing, want) in [(9, 9, "abcde"), (9, 1, "ab"), (3, 9, "abc")] {
        expect_taken(&rt, rt.alloc(), room, failing, want)?;
    }
    Ok(())
}
