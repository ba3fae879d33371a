//! The program `celery_node`: real words, streams, a net and a clock round one top call, whose status is the process' own.
#![tactic(auto)]

use links::{StdSink, StdSource};
use std::time::Duration;
use tcp_links::{TcpNet, WallClock};
use top_call::Ended;
use waiting_call::answer;

/// How long a program that has nothing to do rests, in milliseconds.
const PAUSE: u64 = 10;

fn main(rt: HostRuntime) -> Ended {
    let mut src = StdSource::new(rt.stdin());
    let mut out = StdSink::new(rt.stdout());
    let mut net = TcpNet::new(rt);
    let clock = WallClock::new(rt, Duration::from_millis(PAUSE));
    answer(&rt, rt.alloc(), &mut src, &mut out, &mut net, &clock)
}
