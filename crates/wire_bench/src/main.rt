//! Decodes the stream on standard input in pieces of as many bytes as the first word says, and counts its values, so that
//! the cost of that can be measured from outside.
#![tactic(auto)]

use anyhow::{Context, Result, anyhow};
use links::{StdSource, read_to_end};
use resp_wire::Decoder;
use std::alloc::Global;
use std::env;

/// The most bytes of a stream.
const MAX_BYTES: u64 = 1 << 28;

/// How many values are whole, where nothing is wrong.
fn drained(alloc: Global, decoder: &mut Decoder) -> Option<u64> {
    let mut count = 0u64;
    'values: loop {
        match decoder.next(alloc) {
            Ok(Some(_)) => count = count.saturating_add(1),
            Ok(None) => return Some(count),
            Err(_) => return None,
        }
    }
}

/// How many values a stream in pieces has, where nothing is wrong.
fn decoded(alloc: Global, decoder: &mut Decoder, stream: &[u8], piece: usize) -> Option<u64> {
    let mut count = 0u64;
    for part in stream.chunks(piece.max(1)) {
        decoder.feed(alloc, part).ok()?;
        count = count.saturating_add(drained(alloc, decoder)?);
    }
    Some(count)
}

fn main(rt: HostRuntime) -> Result<()> {
    let alloc = rt.alloc();
    let word = env::args(&rt)?.nth(1).context("how many bytes a piece?")?;
    let piece = word.as_str().parse::<usize>().context("a number of bytes")?;
    let mut src = StdSource::new(rt.stdin());
    let Ok(bytes) = read_to_end(alloc, &mut src, MAX_BYTES) else {
        return Err(anyhow!("no whole input"));
    };
    let mut decoder = Decoder::new(alloc);
    let Some(count) = decoded(alloc, &mut decoder, bytes.as_slice(), piece) else {
        return Err(anyhow!("no stream of values"));
    };
    println!(rt; "{count} values in pieces of {piece} bytes")?;
    Ok(())
}
