//! Sessions at the limits of the store: what passes one is answered `ERR full`, and changes nothing.
use crate::compared::same;
use mini_store::Store;
use net_links::{MemoryLink, StepClock};
use plain_desk::PlainDesk;
use sessions::session;
use sqlite_items::Items;
use std::alloc::{AllocError, Global};
use std::test::Fail;
use wire_spelling::encode_onto;
use wire_values::{Bytes, Value};

/// The first command, one that is said so often after it, and the last ones, with the bytes that answer these. A word `#`
/// is the number of the time, and `~` is one of 1,025 bytes.
#[derive(Drop)]
struct Row {
    name: &'static str,
    first: &'static str,
    again: &'static str,
    times: u64,
    last: &'static [&'static str],
    want: &'static [u8],
}

/// A word of a row.
fn word(alloc: Global, word: &str, number: u64) -> Result<Bytes, AllocError> {
    if word.as_bytes() == b"~".as_slice() {
        return Bytes::from_slice(alloc, &[b'x'; 1_025]);
    }
    if word.as_bytes() == b"#".as_slice() {
        let text = format!(in alloc; "{number}")?;
        return Bytes::from_slice(alloc, text.as_bytes());
    }
    Bytes::from_slice(alloc, word.as_bytes())
}

/// Appends what a client sends that says a command.
fn say(alloc: Global, out: &mut Vec<u8>, line: &str, number: u64) -> Result<(), AllocError> {
    let mut words = Items::new(alloc);
    for each in line.split(' ') {
        words.push(Value::Bulk(word(alloc, each, number)?))?;
    }
    encode_onto(alloc, out, &Value::Array(words))
}

/// What a client sends that says a row.
fn said(alloc: Global, row: &Row) -> Result<Bytes, AllocError> {
    let mut out = Vec::new(alloc);
    say(alloc, &mut out, row.first, 0)?;
    for number in 0..row.times {
        say(alloc, &mut out, row.again, number)?;
    }
    for line in row.last {
        say(alloc, &mut out, line, 0)?;
    }
    Ok(Bytes::from_vec(out))
}

/// Whether a session at an empty store ends with these answers.
fn answers(alloc: Global, row: &Row) -> Result<bool, AllocError> {
    let mut link = MemoryLink::new(said(alloc, row)?, 65_536, Vec::new(alloc));
    let mut desk = PlainDesk::new(Store::new(alloc), 1);
    let clock = StepClock::new(5_000_000, 0);
    let _end = session(alloc, &mut desk, &mut link, &clock, 100);
    Ok(link.sent().ends_with(row.want))
}

fn rows() -> [Row; 6] {
    [
        Row {
            name: "a 1,025th member",
            first: "PING",
            again: "SADD s #",
            times: 1_024,
            last: &["SADD s more", "SADD s 7", "SREM s 7", "SADD s more"],
            want: b":1\r\n-ERR full\r\n:0\r\n:1\r\n:1\r\n",
        },
        Row {
            name: "a 4,097th command in a transaction",
            first: "MULTI",
            again: "PING",
            times: 4_096,
            last: &["PING", "EXEC", "PING"],
            want: b"+QUEUED\r\n-ERR full\r\n-EXECABORT\r\n+PONG\r\n",
        },
        Row {
            name: "a member of 1,025 bytes",
            first: "SADD s a",
            again: "PING",
            times: 0,
            last: &["SADD s ~", "SADD s b ~", "SMEMBERS s"],
            want: b":1\r\n-ERR full\r\n-ERR full\r\n*1\r\n$1\r\na\r\n",
        },
        Row {
            name: "a field of 1,025 bytes",
            first: "HSET h f v",
            again: "PING",
            times: 0,
            last: &["HSET h ~ v", "HSET h f ~", "HLEN h"],
            want: b":1\r\n-ERR full\r\n:0\r\n:1\r\n",
        },
        Row {
            name: "a scored member of 1,025 bytes",
            first: "ZADD z 1 a",
            again: "PING",
            times: 0,
            last: &["ZADD z 1 ~", "ZADD z x ~", "ZCARD z"],
            want: b":1\r\n-ERR full\r\n-ERR integer\r\n:1\r\n",
        },
        Row {
            name: "another kind of value, before what is too long for it",
            first: "LPUSH q a",
            again: "PING",
            times: 0,
            last: &["SADD q ~", "HSET q ~ v", "ZADD q 1 ~"],
            want: b":1\r\n-WRONGTYPE\r\n-WRONGTYPE\r\n-WRONGTYPE\r\n",
        },
    ]
}

#[test]
fn what_passes_a_limit_is_full(rt: HostRuntime) -> Result<(), Fail> {
    for row in &rows() {
        same(&rt, row.name, answers(rt.alloc(), row)?, true);
    }
    Ok(())
}
