//! `show` by rows: its text, its status and its place, in pieces of any size, and the ends that rows can't spell.
use crate::played::{NEVER, end_of};
use crate::rows::streams;
use crate::spelled::spelled;
use line_text::number_in;
use links::{MemorySink, MemorySource};
use std::alloc::{AllocError, Global};
use std::process::Abort;
use std::test::Fail;
use top_call::{Ended, run};
use wire_values::Bytes;

/// The spelling of the array of `GET` and `k`.
const WORDS: &[u8] = b"*2\r\n$3\r\nGET\r\n$1\r\nk\r\n";

/// An array in three others, with a value of each other form.
const NESTED: &[u8] = b"*1\r\n*1\r\n*1\r\n*5\r\n+a\r\n-b\r\n:-12\r\n$0\r\n\r\n$-1\r\n";

/// The limit of a stream.
const LIMIT: usize = 67_108_864;

/// A run of `show` over a stream in pieces, of which the read of this number fails, into this sink.
fn shown(
    alloc: Global,
    stream: &[u8],
    piece: u64,
    failing: u64,
    out: &mut MemorySink,
) -> Result<Ended, AllocError> {
    let bytes = Bytes::from_slice(alloc, stream)?;
    let mut src = MemorySource::new(bytes, piece.max(1), vec![in alloc; failing]?);
    Ok(run(alloc, &["show"], &mut src, out))
}

/// A sink with room for so many bytes, which fails at the call of this number.
fn sink_of(alloc: Global, room: u64, piece: u64, failing: u64) -> Result<MemorySink, AllocError> {
    MemorySink::new(alloc, room, piece.max(1), vec![in alloc; failing]?)
}

/// Asserts how the showing of a stream in pieces ends, and what is written.
fn expect_shown<R: Abort>(
    rt: &R,
    alloc: Global,
    stream: &[u8],
    piece: u64,
    end: Ended,
    want: &[u8],
) -> Result<(), AllocError> {
    let mut out = sink_of(alloc, want.len() as u64 + 1_000, 1_000, NEVER)?;
    let found = shown(alloc, stream, piece, NEVER, &mut out)?;
    let written = str::from_utf8(out.taken()).unwrap_or("no text");
    assert_eq!(rt; written, str::from_utf8(want).unwrap_or("no row"));
    assert_eq!(rt; found, end, "{written} in pieces of {piece}");
    Ok(())
}

/// Asserts a row in pieces of some sizes.
fn expect_row<R: Abort>(
    rt: &R,
    alloc: Global,
    row: &str,
    pieces: &[u64],
) -> Result<(), AllocError> {
    let (head, rest) = row.split_once(" | ").expect(rt, "a row");
    let (text, stream) = rest.split_once(" | ").expect(rt, "a text and a stream");
    let (status, place) = head.split_once(' ').expect(rt, "a status and a place");
    let status = number_in(0, 255, status).expect(rt, "a status") as u8;
    let place = number_in(0, LIMIT as u64, place).expect(rt, "a place");
    let stream = spelled(alloc, stream)?;
    let want = spelled(alloc, text)?;
    for piece in pieces {
        expect_shown(
            rt,
            alloc,
            stream.as_slice(),
            *piece,
            end_of(status, place),
            want.as_slice(),
        )?;
    }
    Ok(())
}

/// Asserts each row.
fn expect_rows<R: Abort>(
    rt: &R,
    alloc: Global,
    rows: &str,
    pieces: &[u64],
) -> Result<(), AllocError> {
    for row in rows.split('\n') {
        if !row.is_empty() && !row.starts_with('#') {
            expect_row(rt, alloc, row, pieces)?;
        }
    }
    Ok(())
}

#[test]
fn a_stream_is_shown_in_any_pieces(rt: HostRuntime) -> Result<(), Fail> {
    let pieces = [1, 2, 3, 4, 5, 7, 11, 64, 1_000_000];
    Ok(expect_rows(&rt, rt.alloc(), streams::in_any_pieces(), &pieces)?)
}

#[test]
fn a_text_ends_at_its_limit(rt: HostRuntime) -> Result<(), Fail> {
    Ok(expect_rows(&rt, rt.alloc(), streams::long_texts(), &[1, 4_096])?)
}

#[test]
fn a_value_past_its_limit_is_a_fault(rt: HostRuntime) -> Result<(), Fail> {
    Ok(expect_rows(&rt, rt.alloc(), streams::long_values(), &[4_096, 65_536])?)
}

#[test]
fn a_value_passes_its_limit_in_each_state(rt: HostRuntime) -> Result<(), Fail> {
    Ok(expect_rows(&rt, rt.alloc(), streams::in_large_pieces(), &[65_536])?)
}

/// Asserts what a front of a value's spelling is, and the whole of it in pieces of the front's length.
fn expect_cut<R: Abort>(
    rt: &R,
    alloc: Global,
    value: &[u8],
    cut: usize,
    want: &[u8],
) -> Result<(), AllocError> {
    let (front, _) = value.split_at_checked(cut).expect(rt, "a front");
    if cut == 0 {
        expect_shown(rt, alloc, front, 1, end_of(0, 0), b"")?;
    } else {
        expect_shown(rt, alloc, front, 5, end_of(3, 0), b"unfinished at 0\n")?;
    }
    expect_shown(rt, alloc, value, cut as u64, end_of(0, 0), want)
}

#[test]
fn a_value_is_cut_at_every_byte(rt: HostRuntime) -> Result<(), Fail> {
    for (value, want) in [
        (WORDS, b"*[$\"GET\", $\"k\"]\n".as_slice()),
        (
            NESTED,
            b"*[*[*[*[+\"a\", -\"b\", :-12, $\"\", $-]]]]\n".as_slice(),
        ),
    ] {
        for cut in 0..value.len() {
            expect_cut(&rt, rt.alloc(), value, cut, want)?;
        }
    }
    Ok(())
}

/// Asserts how a stream ends of 10,000 integers and these bytes, and which text follows their lines.
fn expect_after_many<R: Abort>(
    rt: &R,
    alloc: Global,
    more: &[u8],
    place: u64,
    text: &[u8],
) -> Result<(), AllocError> {
    let mut stream = Vec::new(alloc);
    let mut want = Vec::new(alloc);
    for _ in 0..10_000 {
        stream.extend_from_slice(b":1\r\n")?;
        want.extend_from_slice(b":1\n")?;
    }
    stream.extend_from_slice(more)?;
    want.extend_from_slice(text)?;
    let end = end_of(3, place);
    expect_shown(rt, alloc, stream.as_slice(), 4_096, end, want.as_slice())
}

#[test]
fn a_place_is_counted_from_the_beginning_of_the_stream(rt: HostRuntime) -> Result<(), Fail> {
    let deep = b"*1\r\n*1\r\n*1\r\n*1\r\n*1\r\n".as_slice();
    for (more, place, text) in [
        (
            b"x".as_slice(),
            40_000,
            b"fault BadKind at 40000\n".as_slice(),
        ),
        (b":01", 40_002, b"fault BadInteger at 40002\n"),
        (b"+a\n", 40_002, b"fault NoCrLf at 40002\n"),
        (b"$1\r\nab", 40_005, b"fault NoCrLf at 40005\n"),
        (b"$1048577", 40_007, b"fault TooLong at 40007\n"),
        (deep, 40_016, b"fault TooDeep at 40016\n"),
        (b"*2\r\n:1\r\n", 40_000, b"unfinished at 40000\n"),
    ] {
        expect_after_many(&rt, rt.alloc(), more, place, text)?;
    }
    Ok(())
}

/// Asserts what a sink took whose write of this number fails; each write takes one byte.
fn expect_cut_short<R: Abort>(rt: &R, alloc: Global, failing: usize) -> Result<(), AllocError> {
    let text = b"+\"OK\"\n:7\nfault BadKind at 9\n".as_slice();
    let mut out = sink_of(alloc, 100, 1, failing as u64)?;
    let end = shown(alloc, b"+OK\r\n:7\r\nx", 6, NEVER, &mut out)?;
    let (front, _) = text.split_at_checked(failing).expect(rt, "a front");
    assert!(rt; end == end_of(5, 0), "failing write {failing}");
    assert!(rt; out.taken() == front, "failing write {failing}");
    Ok(())
}

#[test]
fn a_sink_that_fails_in_a_showing_took_a_front(rt: HostRuntime) -> Result<(), Fail> {
    for failing in 0..28usize {
        expect_cut_short(&rt, rt.alloc(), failing)?;
    }
    Ok(())
}

/// Asserts what is written where the read of this number fails.
fn expect_read_cut<R: Abort>(
    rt: &R,
    alloc: Global,
    failing: u64,
    want: &[u8],
) -> Result<(), AllocError> {
    let mut out = sink_of(alloc, 100, 100, NEVER)?;
    let end = shown(alloc, b"+OK\r\n:7\r\n", 5, failing, &mut out)?;
    assert!(rt; end == end_of(4, 0), "failing read {failing}");
    assert!(rt; out.taken() == want, "failing read {failing}");
    Ok(())
}

#[test]
fn a_source_that_fails_in_a_showing_cuts_it(rt: HostRuntime) -> Result<(), Fail> {
    expect_read_cut(&rt, rt.alloc(), 0, b"read fault\n")?;
    expect_read_cut(&rt, rt.alloc(), 1, b"+\"OK\"\nread fault\n")?;
    expect_read_cut(&rt, rt.alloc(), 2, b"+\"OK\"\n:7\nread fault\n")?;
    Ok(())
}

/// Appends the spelling of a bulk string of so many bytes, with this in place of its last end of a line.
fn push_bulk(
    alloc: Global,
    stream: &mut Vec<u8>,
    length: usize,
    end: &[u8],
) -> Result<(), AllocError> {
    let head = format!(in alloc; "${length}\r\n")?;
    let content = vec![in alloc; b'q'; length]?;
    stream.extend_from_slice(head.as_bytes())?;
    stream.extend_from_slice(content.as_slice())?;
    Ok(stream.extend_from_slice(end)?)
}

/// So many bulk strings of which each is spelled by 1,048,576 bytes.
fn bulks(alloc: Global, count: usize) -> Result<Vec<u8>, AllocError> {
    let mut stream = Vec::new(alloc);
    for _ in 0..count {
        push_bulk(alloc, &mut stream, 1_048_564, b"\r\n")?;
    }
    Ok(stream)
}

/// Asserts how a stream ends that begins with so many such bulk strings, and which text follows their lines.
fn expect_after_bulks<R: Abort>(
    rt: &R,
    alloc: Global,
    count: usize,
    stream: &[u8],
    end: Ended,
    text: &[u8],
) -> Result<(), AllocError> {
    let mut out = sink_of(alloc, 68_000_000, 1_000_000, NEVER)?;
    let found = shown(alloc, stream, 65_536, NEVER, &mut out)?;
    assert_eq!(rt; found, end);
    let (lines, rest) = out
        .taken()
        .split_at_checked(count.wrapping_mul(1_048_568))
        .expect(rt, "the lines");
    assert!(rt; lines.ends_with(b"q\"\n"));
    assert!(rt; rest == text);
    Ok(())
}

/// Asserts how 64 MiB of bulk strings end with these bytes after them, and which text follows their lines.
fn expect_full<R: Abort>(
    rt: &R,
    alloc: Global,
    more: &[u8],
    end: Ended,
    text: &[u8],
) -> Result<(), AllocError> {
    let mut stream = bulks(alloc, 64)?;
    stream.extend_from_slice(more)?;
    expect_after_bulks(rt, alloc, 64, stream.as_slice(), end, text)
}

#[test]
fn a_stream_ends_at_its_limit(rt: HostRuntime) -> Result<(), Fail> {
    let long = b"long at 67108864\n".as_slice();
    let end = end_of(3, LIMIT as u64);
    expect_full(&rt, rt.alloc(), b"", end_of(0, 0), b"")?;
    expect_full(&rt, rt.alloc(), b"+", end, long)?;
    Ok(expect_full(&rt, rt.alloc(), b"x", end, long)?)
}

/// Asserts how 63 such bulk strings end with one of this length and these bytes after its content.
fn expect_last<R: Abort>(
    rt: &R,
    alloc: Global,
    length: usize,
    after: &[u8],
    place: u64,
    text: &[u8],
) -> Result<(), AllocError> {
    let mut stream = bulks(alloc, 63)?;
    push_bulk(alloc, &mut stream, length, after)?;
    expect_after_bulks(rt, alloc, 63, stream.as_slice(), end_of(3, place), text)
}

#[test]
fn the_last_byte_of_a_stream_is_wrong(rt: HostRuntime) -> Result<(), Fail> {
    let text = b"fault NoCrLf at 67108863\n".as_slice();
    for after in [b"\rx".as_slice(), b"\rx+"] {
        expect_last(&rt, rt.alloc(), 1_048_564, after, 67_108_863, text)?;
    }
    Ok(())
}

#[test]
fn a_value_is_cut_at_the_limit_of_its_stream(rt: HostRuntime) -> Result<(), Fail> {
    for (after, place, text) in [
        (
            b"\r\n".as_slice(),
            LIMIT as u64,
            b"long at 67108864\n".as_slice(),
        ),
        (b"\r", 66_060_288, b"unfinished at 66060288\n"),
    ] {
        expect_last(&rt, rt.alloc(), 1_048_565, after, place, text)?;
    }
    Ok(())
}
