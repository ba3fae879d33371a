//! Exchanges, routing keys and members, with the queues that are found.
use lookups::{lookup, queues_for, route_keys};
use queue_keys::{QueueName, step_of};
use std::alloc::{AllocError, Global};
use std::test::Fail;
use wire_values::{Bytes, Words};

/// Rows of an exchange, a routing key, the members of the exchange's set parted by blanks, and the queues.
fn rows() -> &'static [(&'static str, &'static str, &'static str, &'static str)] {
    &[
        ("ex", "rk", "", ""),
        ("ex", "rk", "rk\x06\x16\x06\x16celery", "celery"),
        ("ex", "other", "rk\x06\x16\x06\x16celery", ""),
        (
            "ex",
            "a.b",
            "x\x06\x16a.*.#\x06\x16q2 y\x06\x16a.#\x06\x16q1",
            "q1 q2",
        ),
        ("ex", "k", "k\x06\x16\x06\x16q k\x06\x16#\x06\x16q", "q"),
        (
            "ex",
            "k",
            "k\x06\x16\x06\x16unacked k\x06\x16q k\x06\x16\x06\x16q\x06\x16",
            "",
        ),
        ("ex", "k\x06", "k\x06\x06\x16\x06\x16q", "q"),
        ("", "celery", "", "celery"),
        ("", "unacked", "celery\x06\x16\x06\x16celery", ""),
    ]
}

/// The members of a row.
fn members(alloc: Global, text: &str) -> Result<Words, AllocError> {
    let mut members = Words::new();
    for member in text.as_bytes().split(|byte| *byte == b' ') {
        members.push(alloc, Bytes::from_slice(alloc, member)?)?;
    }
    Ok(members)
}

/// The names of some queues, parted by blanks.
fn joined(alloc: Global, queues: &[QueueName]) -> Result<Bytes, AllocError> {
    let mut line = Bytes::new();
    for queue in queues {
        if !line.as_slice().is_empty() {
            line.push(alloc, b' ')?;
        }
        line.extend(alloc, queue.bytes())?;
    }
    Ok(line)
}

#[test]
fn lookups_give_the_queues(rt: HostRuntime) -> Result<(), Fail> {
    let alloc = rt.alloc();
    for (exchange, key, text, wanted) in rows() {
        let members = members(alloc, text)?;
        let queues = queues_for(
            alloc,
            exchange.as_bytes(),
            key.as_bytes(),
            members.as_slice(),
        )?;
        let line = joined(alloc, queues.as_slice())?;
        assert!(rt;
            line.as_slice() == wanted.as_bytes(),
            "{exchange}, {key}, {text}"
        );
    }
    Ok(())
}

#[test]
fn keys_stand_at_the_step(rt: HostRuntime) -> Result<(), Fail> {
    let alloc = rt.alloc();
    let members = members(alloc, "x\x06\x16a.#\x06\x16q2 y\x06\x16#\x06\x16q1")?;
    let queues = lookup(alloc, b"a.b", members.as_slice())?;
    assert!(rt; joined(alloc, queues.as_slice())?.as_slice() == b"q1 q2".as_slice());
    let keys = route_keys(alloc, step_of(7), b"ex", b"a.b", members.as_slice())?;
    assert!(rt; keys.as_slice().len() == 2);
    for (key, wanted) in keys.as_slice().iter().zip(["q1\x06\x166", "q2\x06\x166"]) {
        assert!(rt; key.as_slice() == wanted.as_bytes(), "{wanted}");
    }
    Ok(())
}
