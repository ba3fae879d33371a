//! Runs of `publish`.
ghost use Rattle.std.specs.Prelude.{IfOk};
ghost use Rattle.net_links.specs.MemoryForms.{IsUnusedLink};

use links::{MemorySink, MemorySource};
use net_links::{MemoryLink, MemoryNet, Net, StepClock};
use std::alloc::{AllocError, Global};
use waiting_call::run_wait;
use wire_values::Bytes;

/// No call has this number.
pub const NEVER: u64 = 1_000_000;

/// How a client of seed 7 ends that publishes a script over a net: `<status> at <place>: `, and then what was written.
pub fn over<N: Net>(alloc: Global, net: &mut N, script: &str) -> Result<Vec<u8>, AllocError> {
    let text = Bytes::from_slice(alloc, script.as_bytes())?;
    let mut src = MemorySource::new(text, 9, Vec::new(alloc));
    let mut sink = MemorySink::new(alloc, 10_000, 9, Vec::new(alloc))?;
    let clock = StepClock::new(5_000_000, 1_000_000);
    let words = ["publish", "here", "--seed", "7"];
    let end = run_wait(alloc, words.as_slice(), &mut src, &mut sink, net, &clock);
    let status = end.status;
    let place = end.place;
    let mut out = Vec::from_slice(
        alloc,
        format!(in alloc; "{status} at {place}: ")?.as_bytes(),
    )?;
    out.extend_from_slice(sink.taken())?;
    Ok(out)
}

/// A link of pieces of 100 bytes that gives these bytes, and whose call of this number fails.
fn link(alloc: Global, incoming: &[u8], failing: u64) -> Result<MemoryLink, AllocError>
    ensures { IfOk result IsUnusedLink }
{
    let fails = vec![in alloc; failing]?;
    Ok(MemoryLink::new(Bytes::from_slice(alloc, incoming)?, 100, fails))
}

/// The same over a net of one such link; at the end how many links were closed.
pub fn replied(
    alloc: Global,
    script: &str,
    incoming: &[u8],
    failing: u64,
) -> Result<Vec<u8>, AllocError> {
    let links = vec![in alloc; link(alloc, incoming, failing)?]?;
    let mut net = MemoryNet::new(links, Vec::new(alloc));
    let mut out = over(alloc, &mut net, script)?;
    let closed = net.closed_count();
    out.extend_from_slice(format!(in alloc; "{closed} closed")?.as_bytes())?;
    Ok(out)
}
