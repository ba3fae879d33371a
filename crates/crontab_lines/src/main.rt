//! Answers each line of standard input with a line: whether a crontab is due between two moments. It is there to be
//! compared with Python's calendar from outside.
#![tactic(auto)]

mod answers;

use answers::answer;
use anyhow::{Result, anyhow};
use links::{StdSource, read_to_end};

/// The most bytes of the input.
const MAX_BYTES: u64 = 67_108_864;

fn main(rt: HostRuntime) -> Result<()> {
    let alloc = rt.alloc();
    let mut src = StdSource::new(rt.stdin());
    let Ok(bytes) = read_to_end(alloc, &mut src, MAX_BYTES) else {
        return Err(anyhow!("no whole input"));
    };
    let Ok(text) = str::from_utf8(bytes.as_slice()) else {
        return Err(anyhow!("no text"));
    };
    for line in text.lines() {
        let told = answer(alloc, line)?;
        println!(rt; "{told}")?;
    }
    Ok(())
}
