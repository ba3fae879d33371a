//! Reads the envelope on standard input, then reads and writes it again as often as the first word says, so that the
//! cost of that can be measured from outside.
#![tactic(auto)]

use anyhow::{Context, Result, anyhow};
use envelope::{EnvelopeFault, read, write};
use links::{StdSource, read_to_end};
use std::alloc::Global;
use std::env;

/// The most bytes of an envelope.
const MAX_BYTES: u64 = 1_040_000;

/// The bytes of what is written, after so many rounds of reading and writing.
fn written(alloc: Global, bytes: &[u8], rounds: u64) -> Result<usize, EnvelopeFault> {
    let mut length = 0;
    for _ in 0..rounds {
        let e = read(alloc, bytes)?;
        length = write(alloc, &e)?.len();
    }
    Ok(length)
}

fn main(rt: HostRuntime) -> Result<()> {
    let alloc = rt.alloc();
    let word = env::args(&rt)?.nth(1).context("how many rounds?")?;
    let rounds = word.as_str().parse::<u64>().context("a number of rounds")?;
    let mut src = StdSource::new(rt.stdin());
    let Ok(bytes) = read_to_end(alloc, &mut src, MAX_BYTES) else {
        return Err(anyhow!("no whole input"));
    };
    let Ok(length) = written(alloc, bytes.as_slice(), rounds) else {
        return Err(anyhow!("no envelope"));
    };
    let given = bytes.len();
    println!(rt; "{rounds} rounds, {given} bytes read and {length} written in each")?;
    Ok(())
}
