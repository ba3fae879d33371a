//! What a desk hears over a link in memory.
use crate::asked::ask;
use crate::compared::same;
use link_desk::LinkDesk;
use net_links::MemoryLink;
use std::alloc::{AllocError, Global};
use std::test::Fail;
use wire_values::Bytes;

/// What comes in over a link, the commands that are asked, what the desk answers to them, and what went out.
#[derive(Drop)]
struct Row {
    incoming: &'static [u8],
    lines: &'static [&'static str],
    answers: &'static [u8],
    sent: &'static [u8],
}

const PING: &[u8] = b"*1\r\n$4\r\nPING\r\n";

const PINGS: &[u8] = b"*1\r\n$4\r\nPING\r\n*1\r\n$4\r\nPING\r\n";

fn rows() -> &'static [Row] {
    &[
        // one reply, and one behind it that answers the next command
        Row {
            incoming: b"+PONG\r\n:2\r\n",
            lines: &["PING", "PING"],
            answers: b"+PONG\r\n:2\r\n",
            sent: PINGS,
        },
        // an error is a reply
        Row {
            incoming: b"-ERR x\r\n",
            lines: &["PING"],
            answers: b"-ERR x\r\n",
            sent: PING,
        },
        // values that are pushed come before the reply, and none is one
        Row {
            incoming: b"*3\r\n$7\r\nmessage\r\n$1\r\nc\r\n$1\r\nx\r\n+PONG\r\n",
            lines: &["PING"],
            answers: b"*3\r\n$7\r\nmessage\r\n$1\r\nc\r\n$1\r\nx\r\n+PONG\r\n",
            sent: PING,
        },
        // three bulk strings that begin with another word, and four, are a reply
        Row {
            incoming: b"*3\r\n$9\r\nsubscribe\r\n$1\r\nc\r\n$1\r\nx\r\n*4\r\n$7\r\nmessage\r\n$1\r\nc\r\n$1\r\nx\r\n$1\r\ny\r\n",
            lines: &["PING", "PING"],
            answers: b"*3\r\n$9\r\nsubscribe\r\n$1\r\nc\r\n$1\r\nx\r\n*4\r\n$7\r\nmessage\r\n$1\r\nc\r\n$1\r\nx\r\n$1\r\ny\r\n",
            sent: PINGS,
        },
        // what is wrong ends the desk, and nothing more goes out
        Row {
            incoming: b":007\r\n:1\r\n",
            lines: &["PING", "PING"],
            answers: b"(wire)(ended)",
            sent: PING,
        },
        // so does the end of the link, amid a reply too
        Row {
            incoming: b"$4\r\nPO",
            lines: &["PING", "PING", "PING"],
            answers: b"(link)(ended)(ended)",
            sent: PING,
        },
    ]
}

/// What a desk answers over a link of such pieces, then `|`, then what its link sent.
fn played(alloc: Global, row: &Row, piece: u64) -> Result<Vec<u8>, AllocError> {
    let incoming = Bytes::from_slice(alloc, row.incoming)?;
    let mut desk = LinkDesk::new(
        alloc,
        MemoryLink::new(incoming, piece.max(1), Vec::new(alloc)),
    );
    let mut out = Vec::new(alloc);
    for line in row.lines {
        ask(alloc, &mut desk, line, &mut out)?;
    }
    out.push(b'|')?;
    let link = desk.into_link();
    out.extend_from_slice(link.sent())?;
    Ok(out)
}

/// The same as a row says it.
fn wanted(alloc: Global, row: &Row) -> Result<Vec<u8>, AllocError> {
    let mut out = Vec::from_slice(alloc, row.answers)?;
    out.push(b'|')?;
    out.extend_from_slice(row.sent)?;
    Ok(out)
}

#[test]
fn a_desk_hears_one_reply_for_each_command(rt: HostRuntime) -> Result<(), Fail> {
    let alloc = rt.alloc();
    for row in rows() {
        let want = wanted(alloc, row)?;
        for piece in [1, 2, 7, 65_536] {
            let got = played(alloc, row, piece)?;
            same(&rt, "row", got.as_slice(), want.as_slice());
        }
    }
    Ok(())
}
