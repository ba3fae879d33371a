//! Links, nets and clocks.
use crate::compared::same;
use net_links::{Clock, Link, MemoryLink, MemoryNet, Net, StepClock};
use sessions::send_all;
use std::alloc::{AllocError, Global};
use std::test::Fail;
use std::time::Duration;
use tcp_links::{TcpNet, WallClock};
use wire_values::Bytes;

/// What a link in pieces of two sent of five bytes, where the call of this number fails, after it received one piece.
fn sent(alloc: Global, failing: u64) -> Result<Vec<u8>, AllocError> {
    let incoming = Bytes::from_slice(alloc, b"xyz")?;
    let mut link = MemoryLink::new(incoming, 2, vec![in alloc; failing]?);
    let mut room = [0; 8];
    let _received = link.receive(&mut room);
    let _sent = send_all(alloc, &mut link, b"abcde");
    Vec::from_slice(alloc, link.sent())
}

#[test]
fn links_send_until_a_call_fails(rt: HostRuntime) -> Result<(), Fail> {
    for (failing, want) in [(9, "abcde"), (0, "abcde"), (1, ""), (2, "ab")] {
        same(
            &rt,
            want,
            sent(rt.alloc(), failing)?.as_slice(),
            want.as_bytes(),
        );
    }
    Ok(())
}

/// How many links a net of one link hands out in three calls, of which the one of this number fails.
fn handed_out(alloc: Global, failing: u64) -> Result<u64, AllocError> {
    let link = MemoryLink::new(Bytes::new(), 1, Vec::new(alloc));
    let links = vec![in alloc; link]?;
    let mut net = MemoryNet::new(links, vec![in alloc; failing]?);
    let mut count = 0u64;
    if net.listen(alloc, "here").is_err() {
        count = 10;
    }
    for _ in 0..2 {
        if let Ok(link) = net.accept(alloc) {
            net.close(link);
            count = count.wrapping_add(1);
        }
    }
    Ok(count)
}

#[test]
fn nets_hand_out_their_links(rt: HostRuntime) -> Result<(), Fail> {
    for (failing, want) in [(9, 1), (0, 11), (1, 1), (2, 1)] {
        same(&rt, "links", handed_out(rt.alloc(), failing)?, want);
    }
    Ok(())
}

#[test]
fn clocks_go_on(rt: HostRuntime) -> Result<(), Fail> {
    let steps = StepClock::new(7, 5);
    same(&rt, "first", steps.now(), 7);
    same(&rt, "second", steps.now(), 12);
    let wall = WallClock::new(rt, Duration::from_millis(1));
    wall.rest();
    let now = wall.now();
    same(&rt, "after 2020", now > 1_577_836_800_000_000, true);
    Ok(())
}

#[test]
fn only_addresses_are_taken(rt: HostRuntime) -> Result<(), Fail> {
    let mut net = TcpNet::new(rt);
    same(&rt, "accept", net.accept(rt.alloc()).is_err(), true);
    for (address, want) in [
        ("localhost:6379", false),
        ("127.0.0.1", false),
        ("127.0.0.1:0", true),
    ] {
        same(&rt, address, net.listen(rt.alloc(), address).is_ok(), want);
    }
    Ok(())
}
