//! Sessions of connections at one store, one after the other, while it keeps what others said before.
use crate::command_rows::{rows_of_commands, rows_of_errors, rows_of_kinds};
use crate::commands::{incoming, words_of};
use crate::compared::same;
use mini_store::Store;
use net_links::{MemoryLink, StepClock};
use plain_desk::PlainDesk;
use sessions::session;
use std::alloc::{AllocError, Global};
use std::mem;
use std::process::Abort;
use std::test::Fail;
use wire_spelling::command_fits;

/// A connection by its number, the commands of its session, and the bytes that answer them.
pub type Talk = (u32, &'static [&'static str], &'static [u8]);

/// What connections said to the store at second 5, and then their sessions, whose clock begins there and goes on by a
/// step of so many microseconds after each command.
#[derive(Drop)]
pub struct Row {
    name: &'static str,
    before: &'static [(u32, &'static str)],
    step: u64,
    talks: &'static [Talk],
}

/// What a connection says to a store at second 5, whatever it is answered.
fn say<R: Abort>(
    rt: &R,
    alloc: Global,
    store: &mut Store,
    conn: u32,
    line: &str,
) -> Result<(), AllocError> {
    let words = words_of(alloc, line)?;
    assert!(rt; command_fits(&words));
    let _reply = store.apply(alloc, 5, conn, &words)?;
    Ok(())
}

/// What a connection's session sends; the store is then without what the connection had.
fn talk(
    alloc: Global,
    store: &mut Store,
    clock: &StepClock,
    conn: u32,
    lines: &[&str],
) -> Result<Vec<u8>, AllocError> {
    let mut link = MemoryLink::new(incoming(alloc, lines, b"")?, 65_536, Vec::new(alloc));
    let own = mem::replace(store, Store::new(alloc));
    let mut desk = PlainDesk::new(own, conn);
    let _end = session(alloc, &mut desk, &mut link, clock, 100);
    *store = desk.into_store();
    Vec::from_slice(alloc, link.sent())
}

/// Plays a row at an empty store.
fn play<R: Abort>(rt: &R, alloc: Global, row: &Row) -> Result<(), AllocError> {
    let mut store = Store::new(alloc);
    for (conn, line) in row.before {
        say(rt, alloc, &mut store, *conn, line)?;
    }
    let clock = StepClock::new(5_000_000, row.step);
    for (conn, lines, want) in row.talks {
        let sent = talk(alloc, &mut store, &clock, *conn, lines)?;
        same(rt, row.name, sent.as_slice(), *want);
    }
    Ok(())
}

/// All at one moment.
pub fn at_once(
    name: &'static str,
    before: &'static [(u32, &'static str)],
    talks: &'static [Talk],
) -> Row {
    Row {
        name,
        before,
        step: 0,
        talks,
    }
}

/// All at one moment: transactions by their marks, and messages that are pushed before an answer.
fn rows_at_once() -> [Row; 7] {
    [
        at_once(
            "a connection's own command marks it, until EXEC, DISCARD or UNWATCH",
            &[],
            &[(
                1,
                &[
                    "WATCH k", "SET k v", "MULTI", "PING", "EXEC", "MULTI", "PING", "EXEC",
                    "WATCH k", "SET k v", "MULTI", "DISCARD", "MULTI", "PING", "EXEC", "WATCH k",
                    "DEL k", "UNWATCH", "MULTI", "PING", "EXEC",
                ],
                b"+OK\r\n+OK\r\n+OK\r\n+QUEUED\r\n*-1\r\n+OK\r\n+QUEUED\r\n*1\r\n+PONG\r\n+OK\r\n\
                  +OK\r\n+OK\r\n+OK\r\n+OK\r\n+QUEUED\r\n*1\r\n+PONG\r\n+OK\r\n:1\r\n+OK\r\n\
                  +OK\r\n+QUEUED\r\n*1\r\n+PONG\r\n",
            )],
        ),
        at_once(
            "an answer that alters nothing marks nobody",
            &[(1, "SADD s a"), (1, "WATCH s none")],
            &[
                (
                    2,
                    &[
                        "SADD s a",
                        "SREM s b",
                        "DEL none",
                        "RPOP none",
                        "SET s v NX",
                        "LPUSH s x",
                    ],
                    b":0\r\n:0\r\n:0\r\n$-1\r\n$-1\r\n-WRONGTYPE\r\n",
                ),
                (
                    1,
                    &["MULTI", "SADD s b", "EXEC"],
                    b"+OK\r\n+QUEUED\r\n*1\r\n:1\r\n",
                ),
            ],
        ),
        at_once(
            "a watched key was altered",
            &[(1, "SET k v"), (1, "WATCH k")],
            &[
                (2, &["SET k w"], b"+OK\r\n"),
                (
                    1,
                    &["MULTI", "SET k x", "EXEC", "GET k"],
                    b"+OK\r\n+QUEUED\r\n*-1\r\n$1\r\nw\r\n",
                ),
            ],
        ),
        at_once(
            "a watched key was altered and holds the same again",
            &[(1, "SET k v"), (1, "WATCH k")],
            &[
                (2, &["SET k w", "SET k v"], b"+OK\r\n+OK\r\n"),
                (
                    1,
                    &["MULTI", "DEL k", "EXEC", "GET k"],
                    b"+OK\r\n+QUEUED\r\n*-1\r\n$1\r\nv\r\n",
                ),
            ],
        ),
        at_once(
            "another key was altered",
            &[(1, "SET k v"), (1, "WATCH k")],
            &[
                (2, &["SET other w"], b"+OK\r\n"),
                (
                    1,
                    &["MULTI", "DEL k", "EXEC", "GET k"],
                    b"+OK\r\n+QUEUED\r\n*1\r\n:1\r\n$-1\r\n",
                ),
            ],
        ),
        at_once(
            "messages come before the answer",
            &[(1, "SUBSCRIBE c")],
            &[
                (
                    2,
                    &["PUBLISH c hello", "PUBLISH d lost", "PUBLISH c again"],
                    b":1\r\n:0\r\n:1\r\n",
                ),
                (
                    1,
                    &["PING", "PING"],
                    b"*3\r\n$7\r\nmessage\r\n$1\r\nc\r\n$5\r\nhello\r\n\
                      *3\r\n$7\r\nmessage\r\n$1\r\nc\r\n$5\r\nagain\r\n\
                      *2\r\n$4\r\npong\r\n$0\r\n\r\n*2\r\n$4\r\npong\r\n$0\r\n\r\n",
                ),
                (2, &["PUBLISH c gone"], b":0\r\n"),
            ],
        ),
        at_once(
            "a message comes before an error",
            &[(1, "SUBSCRIBE c")],
            &[
                (2, &["PUBLISH c x"], b":1\r\n"),
                (
                    1,
                    &["GET k", "UNSUBSCRIBE c", "GET k"],
                    b"*3\r\n$7\r\nmessage\r\n$1\r\nc\r\n$1\r\nx\r\n-ERR subscribed\r\n\
                      *3\r\n$11\r\nunsubscribe\r\n$1\r\nc\r\n:0\r\n$-1\r\n",
                ),
            ],
        ),
    ]
}

/// Keys that expire, at their second and not before.
fn rows_in_time() -> [Row; 7] {
    [
        Row {
            name: "EXPIRE counts from its own second",
            before: &[],
            step: 500_000,
            talks: &[(
                1,
                &[
                    "SET k v",
                    "EXPIRE k 2",
                    "GET k",
                    "GET k",
                    "GET k",
                    "EXPIRE k 2",
                ],
                b"+OK\r\n:1\r\n$1\r\nv\r\n$1\r\nv\r\n$-1\r\n:0\r\n",
            )],
        },
        Row {
            name: "a push keeps the expiry",
            before: &[],
            step: 500_000,
            talks: &[(
                1,
                &["LPUSH q a", "EXPIRE q 2", "RPUSH q b", "LLEN q", "LLEN q"],
                b":1\r\n:1\r\n:2\r\n:2\r\n:0\r\n",
            )],
        },
        Row {
            name: "SET without EX ends the expiry",
            before: &[],
            step: 500_000,
            talks: &[(
                1,
                &["SET k v EX 1", "SET k w", "GET k"],
                b"+OK\r\n+OK\r\n$1\r\nw\r\n",
            )],
        },
        Row {
            name: "half a second a command",
            before: &[],
            step: 500_000,
            talks: &[(
                1,
                &[
                    "SET k v NX EX 1",
                    "GET k",
                    "GET k",
                    "SET k w NX EX 1",
                    "GET k",
                ],
                b"+OK\r\n$1\r\nv\r\n$-1\r\n+OK\r\n$-1\r\n",
            )],
        },
        Row {
            name: "the last microsecond before",
            before: &[],
            step: 999_999,
            talks: &[(
                1,
                &["SET k v NX EX 1", "SET k w NX EX 1", "GET k"],
                b"+OK\r\n$-1\r\n$-1\r\n",
            )],
        },
        Row {
            name: "a watched key expires",
            before: &[(1, "SET k v EX 1"), (1, "WATCH k")],
            step: 500_000,
            talks: &[(
                1,
                &["MULTI", "PING", "EXEC", "GET k"],
                b"+OK\r\n+QUEUED\r\n*-1\r\n$-1\r\n",
            )],
        },
        Row {
            name: "a watched key doesn't expire yet",
            before: &[(1, "SET k v EX 2"), (1, "WATCH k")],
            step: 500_000,
            talks: &[(
                1,
                &["MULTI", "PING", "EXEC", "GET k", "GET k"],
                b"+OK\r\n+QUEUED\r\n*1\r\n+PONG\r\n$1\r\nv\r\n$-1\r\n",
            )],
        },
    ]
}

#[test]
fn connections_share_a_store(rt: HostRuntime) -> Result<(), Fail> {
    for row in &rows_at_once() {
        play(&rt, rt.alloc(), row)?;
    }
    for row in &rows_in_time() {
        play(&rt, rt.alloc(), row)?;
    }
    for row in &rows_of_commands() {
        play(&rt, rt.alloc(), row)?;
    }
    for row in &rows_of_errors() {
        play(&rt, rt.alloc(), row)?;
    }
    for row in &rows_of_kinds() {
        play(&rt, rt.alloc(), row)?;
    }
    Ok(())
}
