//! Connections over a net in memory, served one after the other.
ghost use Rattle.std.specs.Prelude.{IfOk};
ghost use Rattle.net_links.specs.MemoryForms.{IsUnusedLink};

use crate::commands::{incoming, why_text};
use crate::compared::same;
use mini_store::Store;
use net_links::{MemoryLink, MemoryNet, StepClock};
use std::alloc::{AllocError, Global};
use std::test::Fail;
use store_server::{ServeEnd, ServeWhy, SessionEnd, serve_one, serve_plain};

/// What a link gives: commands, then bytes; it comes by pieces of at most ten bytes. The call of this number fails.
type Incoming = (&'static [&'static str], &'static [u8], u64);

/// Three links, the net's call that fails, how many connections are wanted and how many turns each has at most; then
/// what each closed link sent, each with `|` after it, how each session ended, and why no more is served.
#[derive(Drop)]
struct Row {
    links: [Incoming; 3],
    failing: u64,
    wanted: u32,
    turns: u64,
    told: &'static str,
}

/// No call has this number.
const NEVER: u64 = 1_000_000;

/// A client that says PING and ends.
const PING: Incoming = (&["PING"], b"", NEVER);

fn link(alloc: Global, incoming_row: &Incoming) -> Result<MemoryLink, AllocError>
    ensures { IfOk result IsUnusedLink }
{
    let (lines, tail, failing) = incoming_row;
    let fails = vec![in alloc; *failing]?;
    Ok(MemoryLink::new(incoming(alloc, lines, tail)?, 10, fails))
}

fn net(alloc: Global, links: &[Incoming; 3], failing: u64) -> Result<MemoryNet, AllocError> {
    let [first, second, third] = links;
    let links = vec![in alloc;
        link(alloc, first)?,
        link(alloc, second)?,
        link(alloc, third)?,
    ]?;
    Ok(MemoryNet::new(links, vec![in alloc; failing]?))
}

/// What each link sent that a net closed.
fn closed(alloc: Global, net: &MemoryNet) -> Result<Vec<u8>, AllocError> {
    let mut out = Vec::new(alloc);
    for at in 0..net.closed_count() {
        out.extend_from_slice(net.sent_by(at))?;
        out.extend_from_slice(b"|")?;
    }
    Ok(out)
}

/// Appends how a session ended.
fn tell(alloc: Global, out: &mut Vec<u8>, end: SessionEnd) -> Result<(), AllocError> {
    let why = why_text(end.why);
    let commands = end.commands;
    let told = format!(in alloc; " {why} {commands},")?;
    Ok(out.extend_from_slice(told.as_bytes())?)
}

/// What is told of a net and of how serving over it ended.
fn report(alloc: Global, net: &MemoryNet, end: &ServeEnd) -> Result<Vec<u8>, AllocError> {
    let mut out = closed(alloc, net)?;
    for session in end.sessions.as_slice() {
        tell(alloc, &mut out, *session)?;
    }
    out.extend_from_slice(match end.why {
        ServeWhy::Ended => b" ended",
        ServeWhy::Net => b" net",
        ServeWhy::Memory => b" memory",
    })?;
    Ok(out)
}

/// What is told of serving an empty store.
fn served(alloc: Global, row: &Row) -> Result<Vec<u8>, AllocError> {
    let mut net = net(alloc, &row.links, row.failing)?;
    let clock = StepClock::new(5_000_000, 1_000_000);
    let store = Store::new(alloc);
    let end = serve_plain(
        alloc, store, &mut net, &clock, "here", row.wanted, row.turns,
    );
    report(alloc, &net, &end)
}

/// Serves the next connection under the number 1, and appends how its session ended.
fn serve_next(
    alloc: Global,
    store: &mut Store,
    net: &mut MemoryNet,
    clock: &StepClock,
    out: &mut Vec<u8>,
) -> Result<(), AllocError> {
    match serve_one(alloc, store, net, clock, 1, 100) {
        Ok(end) => tell(alloc, out, end),
        Err(_) => out.extend_from_slice(b" net"),
    }
}

/// What is told of three connections that all have the number 1, at one store: how their sessions ended, and then what
/// their links sent.
fn served_as_one(alloc: Global, links: &[Incoming; 3]) -> Result<Vec<u8>, AllocError> {
    let mut net = net(alloc, links, NEVER)?;
    let clock = StepClock::new(5_000_000, 1_000_000);
    let mut store = Store::new(alloc);
    let mut out = Vec::new(alloc);
    for _ in 0..3 {
        serve_next(alloc, &mut store, &mut net, &clock, &mut out)?;
    }
    out.extend_from_slice(closed(alloc, &net)?.as_slice())?;
    Ok(out)
}

/// Three clients that say PING and end.
fn pings(failing: u64, wanted: u32, told: &'static str) -> Row {
    Row {
        links: [PING, PING, PING],
        failing,
        wanted,
        turns: 100,
        told,
    }
}

/// Three clients of a net that doesn't fail.
fn all(links: [Incoming; 3], turns: u64, told: &'static str) -> Row {
    Row {
        links,
        failing: NEVER,
        wanted: 3,
        turns,
        told,
    }
}

/// The net's call 0 is `listen`, and its k-th `accept` is call k.
fn rows_of_nets() -> [Row; 9] {
    [
        pings(0, 0, " net"),
        pings(0, 3, " net"),
        pings(1, 0, " ended"),
        pings(1, 3, " net"),
        pings(2, 3, "+PONG\r\n| ended 1, net"),
        pings(3, 3, "+PONG\r\n|+PONG\r\n| ended 1, ended 1, net"),
        pings(3, 2, "+PONG\r\n|+PONG\r\n| ended 1, ended 1, ended"),
        pings(
            4,
            3,
            "+PONG\r\n|+PONG\r\n|+PONG\r\n| ended 1, ended 1, ended 1, ended",
        ),
        pings(
            NEVER,
            4,
            "+PONG\r\n|+PONG\r\n|+PONG\r\n| ended 1, ended 1, ended 1, net",
        ),
    ]
}

/// Connections that leave something behind, fail, end within a value, or use up their turns.
fn rows_of_links() -> [Row; 6] {
    [
        all(
            [
                (&["SET k v", "WATCH k", "MULTI", "DEL k"], b"", NEVER),
                (&["GET k", "EXEC", "SUBSCRIBE c"], b"", NEVER),
                (&["PUBLISH c x", "GET k"], b"", NEVER),
            ],
            100,
            "+OK\r\n+OK\r\n+OK\r\n+QUEUED\r\n|\
             $1\r\nv\r\n-ERR outside\r\n*3\r\n$9\r\nsubscribe\r\n$1\r\nc\r\n:1\r\n|\
             :0\r\n$1\r\nv\r\n| ended 4, ended 3, ended 2, ended",
        ),
        all(
            [(&["PING"], b"", 1), (&["MULTI"], b"*2\r\n$3", NEVER), PING],
            100,
            "|+OK\r\n|+PONG\r\n| link 0, link 1, ended 1, ended",
        ),
        all(
            [(&["PING"], b"", 2), (&["PING"], b"", 3), PING],
            100,
            "|+PONG\r\n|+PONG\r\n| link 1, link 1, ended 1, ended",
        ),
        all(
            [
                (&["PING"], b"!\r\n", NEVER),
                (&["PING"], b"+x\r\n", NEVER),
                PING,
            ],
            100,
            "+PONG\r\n|+PONG\r\n|+PONG\r\n| wire 1, not words 1, ended 1, ended",
        ),
        all(
            [PING, (&["PING", "PING"], b"", NEVER), (&[], b"", NEVER)],
            2,
            "+PONG\r\n|+PONG\r\n|| turns 1, turns 1, ended 0, ended",
        ),
        all(
            [PING, PING, PING],
            0,
            "||| turns 0, turns 0, turns 0, ended",
        ),
    ]
}

#[test]
fn connections_are_served_one_after_the_other(rt: HostRuntime) -> Result<(), Fail> {
    for row in &rows_of_nets() {
        let told = served(rt.alloc(), row)?;
        same(&rt, row.told, told.as_slice(), row.told.as_bytes());
    }
    for row in &rows_of_links() {
        let told = served(rt.alloc(), row)?;
        same(&rt, row.told, told.as_slice(), row.told.as_bytes());
    }
    Ok(())
}

#[test]
fn nothing_of_a_connection_is_left_to_its_number(rt: HostRuntime) -> Result<(), Fail> {
    let links: [Incoming; 3] = [
        (
            &["SET k v", "WATCH k", "SET k w", "MULTI", "DEL k"],
            b"",
            NEVER,
        ),
        (&["MULTI", "PING", "EXEC", "SUBSCRIBE c"], b"", NEVER),
        (&["GET k", "PING"], b"", NEVER),
    ];
    let want = " ended 5, ended 4, ended 2,\
                +OK\r\n+OK\r\n+OK\r\n+OK\r\n+QUEUED\r\n|\
                +OK\r\n+QUEUED\r\n*1\r\n+PONG\r\n*3\r\n$9\r\nsubscribe\r\n$1\r\nc\r\n:1\r\n|\
                $1\r\nw\r\n+PONG\r\n|";
    let told = served_as_one(rt.alloc(), &links)?;
    same(&rt, "number 1", told.as_slice(), want.as_bytes());
    Ok(())
}
