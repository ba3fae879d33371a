//! What a desk hears over a link that answers from its own store.
use crate::asked::{ask, words_of};
use crate::compared::same;
use link_desk::LinkDesk;
use local_links::LocalLink;
use mini_store::Store;
use net_links::Link;
use std::alloc::{AllocError, Global};
use std::process::Abort;
use std::test::Fail;
use wire_spelling::command_fits;

/// What connections said to a store before, the commands that are asked over a link to it, and what is answered.
type Row = (
    &'static [(u32, &'static str)],
    &'static [&'static str],
    &'static [u8],
);

fn rows() -> [Row; 5] {
    [
        (
            &[],
            &[
                "PING",
                "SET k v",
                "GET k",
                "LPUSH q a b",
                "RPOP q",
                "BRPOP q 1",
                "BRPOP q 1",
                "SADD s x",
                "SMEMBERS s",
                "HSET h f 1",
                "HGET h f",
                "NOSUCH",
                "GET",
            ],
            b"+PONG\r\n+OK\r\n$1\r\nv\r\n:2\r\n$1\r\na\r\n*2\r\n$1\r\nq\r\n$1\r\nb\r\n*-1\r\n\
              :1\r\n*1\r\n$1\r\nx\r\n:1\r\n$1\r\n1\r\n-ERR command\r\n-ERR arity\r\n",
        ),
        (
            &[],
            &["MULTI", "LPUSH q a", "LPUSH q b", "EXEC", "LLEN q"],
            b"+OK\r\n+QUEUED\r\n+QUEUED\r\n*2\r\n:1\r\n:2\r\n:2\r\n",
        ),
        // what another connection said before is there
        (&[(2, "LPUSH q a")], &["RPOP q"], b"$1\r\na\r\n"),
        // the link's own connection was told a message; it comes before the next reply
        (
            &[(1, "SUBSCRIBE c"), (2, "PUBLISH c x"), (2, "PUBLISH c y")],
            &["PING", "PING"],
            b"*3\r\n$7\r\nmessage\r\n$1\r\nc\r\n$1\r\nx\r\n*3\r\n$7\r\nmessage\r\n$1\r\nc\r\n$1\r\ny\r\n\
              *2\r\n$4\r\npong\r\n$0\r\n\r\n*2\r\n$4\r\npong\r\n$0\r\n\r\n",
        ),
        // a subscription, told over the link
        (
            &[],
            &["SUBSCRIBE c", "PING", "GET k"],
            b"*3\r\n$9\r\nsubscribe\r\n$1\r\nc\r\n:1\r\n*2\r\n$4\r\npong\r\n$0\r\n\r\n-ERR subscribed\r\n",
        ),
    ]
}

/// What a connection says to a store at moment 0, whatever it is answered.
fn say<R: Abort>(
    rt: &R,
    alloc: Global,
    store: &mut Store,
    conn: u32,
    line: &str,
) -> Result<(), AllocError> {
    let words = words_of(alloc, line)?;
    assert!(rt; command_fits(&words));
    let _reply = store.apply(alloc, 0, conn, &words)?;
    Ok(())
}

/// What a desk answers over a link to a store.
fn played<R: Abort>(rt: &R, alloc: Global, row: &Row) -> Result<Vec<u8>, AllocError> {
    let (before, lines, _) = row;
    let mut store = Store::new(alloc);
    for (conn, line) in *before {
        say(rt, alloc, &mut store, *conn, line)?;
    }
    let mut desk = LinkDesk::new(alloc, LocalLink::new(alloc, store));
    let mut out = Vec::new(alloc);
    for line in *lines {
        ask(alloc, &mut desk, line, &mut out)?;
    }
    Ok(out)
}

#[test]
fn a_store_behind_a_link_answers(rt: HostRuntime) -> Result<(), Fail> {
    let alloc = rt.alloc();
    for row in &rows() {
        let got = played(&rt, alloc, row)?;
        same(&rt, "row", got.as_slice(), row.2);
    }
    Ok(())
}

/// Bytes that are sent over a link to an empty store, and all that is then received.
const SENT: [(&[u8], &[u8]); 7] = [
    (b"", b""),
    (b"*1\r\n$4\r\nPING\r\n*1\r\n$4\r\nPI", b"+PONG\r\n"),
    (
        b"*1\r\n$4\r\nPING\r\n*1\r\n$4\r\nPING\r\n",
        b"+PONG\r\n+PONG\r\n",
    ),
    // nothing is asked from a value on that is no command
    (
        b"*1\r\n$4\r\nPING\r\n+x\r\n*1\r\n$4\r\nPING\r\n",
        b"+PONG\r\n",
    ),
    (b"*0\r\n*1\r\n$4\r\nPING\r\n", b""),
    // nor from bytes on that are no RESP2
    (
        b"*1\r\n$4\r\nPING\r\n:007\r\n*1\r\n$4\r\nPING\r\n",
        b"+PONG\r\n",
    ),
    (b"PING\r\n*1\r\n$4\r\nPING\r\n", b""),
];

/// Receives pieces of at most so many bytes until none is left, and answers how many receives it took.
fn receive_all(
    link: &mut LocalLink,
    room: &mut [u8],
    out: &mut Vec<u8>,
) -> Result<u64, AllocError> {
    for receives in 0..1_000 {
        let Ok(count) = link.receive(room) else {
            return Ok(0);
        };
        if count == 0 {
            return Ok(receives);
        }
        out.extend_from_slice(&room[..count])?;
    }
    Ok(1_000)
}

/// What is received over a link over which these bytes went in pieces of so many; then `|`, and what it sent and received.
fn exchanged(alloc: Global, bytes: &[u8], piece: usize) -> Result<Vec<u8>, AllocError> {
    let mut link = LocalLink::new(alloc, Store::new(alloc));
    let mut out = Vec::new(alloc);
    for part in bytes.chunks(piece.max(1)) {
        if link.send(alloc, part).is_err() {
            out.push(b'!')?;
        }
    }
    let mut room = [0; 5];
    let _receives = receive_all(&mut link, &mut room, &mut out)?;
    out.push(b'|')?;
    out.extend_from_slice(link.sent())?;
    out.push(b'|')?;
    out.extend_from_slice(link.received())?;
    Ok(out)
}

#[test]
fn whole_commands_are_asked_up_to_what_is_none(rt: HostRuntime) -> Result<(), Fail> {
    let alloc = rt.alloc();
    for (bytes, replies) in SENT {
        let mut want = Vec::from_slice(alloc, replies)?;
        want.push(b'|')?;
        want.extend_from_slice(bytes)?;
        want.push(b'|')?;
        want.extend_from_slice(replies)?;
        for piece in [1, 3, 1_000] {
            let got = exchanged(alloc, bytes, piece)?;
            same(&rt, "bytes", got.as_slice(), want.as_slice());
        }
    }
    Ok(())
}
