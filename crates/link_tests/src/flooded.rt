//! Values that are pushed before a reply.
use crate::asked::ask;
use crate::compared::same;
use link_desk::LinkDesk;
use net_links::MemoryLink;
use std::alloc::{AllocError, Global};
use std::test::Fail;
use wire_values::Bytes;

/// A value that is pushed.
const PUSHED: &[u8] = b"*3\r\n$7\r\nmessage\r\n$1\r\nc\r\n$1\r\nx\r\n";

/// How long the answer is that a desk writes down where so many values are pushed before a reply.
fn length(alloc: Global, count: u64) -> Result<usize, AllocError> {
    let mut incoming = Bytes::new();
    for _ in 0..count {
        incoming.extend(alloc, PUSHED)?;
    }
    incoming.extend(alloc, b"+PONG\r\n")?;
    let mut desk = LinkDesk::new(alloc, MemoryLink::new(incoming, 65_536, Vec::new(alloc)));
    let mut out = Vec::new(alloc);
    ask(alloc, &mut desk, "PING", &mut out)?;
    Ok(out.len())
}

#[test]
fn a_flood_is_one_value_more_than_may_be_pushed(rt: HostRuntime) -> Result<(), Fail> {
    let whole = 1024 * PUSHED.len() + 7;
    same(&rt, "1,024", length(rt.alloc(), 1_024)?, whole);
    same(&rt, "1,025", length(rt.alloc(), 1_025)?, 7);
    Ok(())
}
