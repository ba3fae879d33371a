//! Commands asked of a desk that has its store, with the bytes of their replies.
use crate::commands::command;
use crate::compared::same;
use mini_store::Store;
use net_links::StepClock;
use plain_desk::PlainDesk;
use sessions::answer;
use std::alloc::{AllocError, Global};
use std::test::Fail;
use wire_spelling::fits;

/// What a desk at an empty store answers to these commands, in bytes, up to the first that ends a session.
fn answered(alloc: Global, lines: &[&str]) -> Result<Vec<u8>, AllocError> {
    let mut desk = PlainDesk::new(Store::new(alloc), 1);
    let clock = StepClock::new(5_000_000, 1_000_000);
    let mut out = Vec::new(alloc);
    let mut commands = 0;
    'lines: for line in lines {
        let value = command(alloc, line)?;
        if !fits(&value) {
            return Ok(out);
        }
        if answer(alloc, &mut desk, &clock, &value, &mut out, &mut commands).is_err() {
            return Ok(out);
        }
    }
    Ok(out)
}

/// Commands with the bytes that answer them.
type Row = (&'static [&'static str], &'static [u8]);

fn rows() -> &'static [Row] {
    &[
        (&["PING"], b"+PONG\r\n"),
        (
            &["MULTI", "FOO", "EXEC"],
            b"+OK\r\n-ERR command\r\n-EXECABORT\r\n",
        ),
        (
            &["LPUSH k a b", "RPOP k", "BRPOP k 1", "BRPOP k 1"],
            b":2\r\n$1\r\na\r\n*2\r\n$1\r\nk\r\n$1\r\nb\r\n*-1\r\n",
        ),
        (
            &["SET k v EX 2", "GET k", "GET k"],
            b"+OK\r\n$1\r\nv\r\n$-1\r\n",
        ),
    ]
}

#[test]
fn replies_are_written_in_order(rt: HostRuntime) -> Result<(), Fail> {
    for (lines, want) in rows() {
        same(
            &rt,
            lines.first().unwrap_or(&"no command"),
            answered(rt.alloc(), lines)?.as_slice(),
            *want,
        );
    }
    Ok(())
}
