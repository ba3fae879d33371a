//! Whole sessions over links in memory.
use crate::commands::why_text;
use crate::compared::same;
use mini_store::Store;
use net_links::{MemoryLink, StepClock};
use plain_desk::PlainDesk;
use sessions::session;
use std::alloc::{AllocError, Global};
use std::test::Fail;
use wire_values::Bytes;

/// What a link gives, in pieces of at most so many bytes, which of its calls fails, and how many turns are allowed; then
/// what the session sends, why it ends, and how many commands it asks.
#[derive(Drop)]
struct Row {
    incoming: &'static [u8],
    piece: u64,
    failing: u64,
    turns: u64,
    sent: &'static [u8],
    why: &'static str,
    commands: u64,
}

/// No call of a link has this number.
const NEVER: u64 = 1_000_000;

/// All comes at once, nothing fails, and the turns are many.
fn whole(incoming: &'static [u8], sent: &'static [u8], why: &'static str, commands: u64) -> Row {
    Row {
        incoming,
        piece: 65_536,
        failing: NEVER,
        turns: 100,
        sent,
        why,
        commands,
    }
}

/// A call of the link fails.
fn failing(call: u64, sent: &'static [u8], commands: u64) -> Row {
    Row {
        incoming: b"*1\r\n$4\r\nPING\r\n",
        piece: 65_536,
        failing: call,
        turns: 100,
        sent,
        why: "link",
        commands,
    }
}

/// Two PINGs come by pieces of so many bytes, and the turns are few.
fn turns(piece: u64, turns: u64, sent: &'static [u8], commands: u64) -> Row {
    Row {
        incoming: b"*1\r\n$4\r\nPING\r\n*1\r\n$4\r\nPING\r\n",
        piece,
        failing: NEVER,
        turns,
        sent,
        why: "turns",
        commands,
    }
}

/// What a session at an empty store sends, why it ends, and how many commands it asks.
fn spoken(alloc: Global, row: &Row) -> Result<(Vec<u8>, &'static str, u64), AllocError> {
    let incoming = Bytes::from_slice(alloc, row.incoming)?;
    let mut link = MemoryLink::new(incoming, row.piece.max(1), vec![in alloc; row.failing]?);
    let mut desk = PlainDesk::new(Store::new(alloc), 1);
    let clock = StepClock::new(5_000_000, 1_000_000);
    let end = session(alloc, &mut desk, &mut link, &clock, row.turns);
    Ok((
        Vec::from_slice(alloc, link.sent())?,
        why_text(end.why),
        end.commands,
    ))
}

fn rows() -> [Row; 16] {
    [
        whole(b"", b"", "ended", 0),
        whole(b"*1\r\n$4\r\nPING\r\n", b"+PONG\r\n", "ended", 1),
        whole(
            b"*1\r\n$5\r\nMULTI\r\n*1\r\n$3\r\nFOO\r\n*1\r\n$4\r\nEXEC\r\n",
            b"+OK\r\n-ERR command\r\n-EXECABORT\r\n",
            "ended",
            3,
        ),
        whole(b"*1\r\n$4\r\nPI", b"", "link", 0),
        whole(b"*1\r\n$4\r\nPING\r\n*1\r\n$4", b"+PONG\r\n", "link", 1),
        whole(
            b"*1\r\n$4\r\nPING\r\n+x\r\n*1\r\n$4\r\nPING\r\n",
            b"+PONG\r\n",
            "not words",
            1,
        ),
        whole(b"*0\r\n", b"", "not words", 0),
        whole(b"*2\r\n$4\r\nPING\r\n:1\r\n", b"", "not words", 0),
        whole(
            b"*1\r\n$4\r\nPING\r\n!\r\n*1\r\n$4\r\nPING\r\n",
            b"+PONG\r\n",
            "wire",
            1,
        ),
        failing(0, b"", 0),
        failing(1, b"", 1),
        failing(2, b"+PONG\r\n", 1),
        turns(14, 0, b"", 0),
        turns(14, 1, b"+PONG\r\n", 1),
        turns(28, 1, b"+PONG\r\n+PONG\r\n", 2),
        turns(1, 27, b"+PONG\r\n", 1),
    ]
}

#[test]
fn sessions_answer_what_came_and_end(rt: HostRuntime) -> Result<(), Fail> {
    for row in &rows() {
        let (sent, why, commands) = spoken(rt.alloc(), row)?;
        same(&rt, row.why, sent.as_slice(), row.sent);
        same(&rt, row.why, why, row.why);
        same(&rt, row.why, commands, row.commands);
    }
    Ok(())
}
