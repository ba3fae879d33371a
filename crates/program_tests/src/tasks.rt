//! The message that a publication seals.
use envelope::{Envelope, Tag, read};
use place_model::{Entry, Heard, History};
use replay::run_schedule;
use std::alloc::Global;
use std::process::Abort;
use std::test::Fail;

/// A task with two arguments.
fn schedule() -> &'static str {
    "celery-schedule 1\nclient 1 seed 7\nbegin 1 publish - celery 9 tasks.add [ 2, 3 ]\nrun 1\n"
}

/// What is sealed of a task with arguments of two numbers, under the tag of seed 7 and counter 1.
fn first_sealed() -> &'static str {
    r#"{"body":"W1syLDNdLHt9LHsiY2FsbGJhY2tzIjpudWxsLCJjaGFpbiI6bnVsbCwiY2hvcmQiOm51bGwsImVycmJhY2tzIjpudWxsfV0=","content-encoding":"utf-8","content-type":"application/json","headers":{"argsrepr":"[2,3]","eta":null,"expires":null,"group":null,"id":"00000000-0000-0007-0000-000000000001","kwargsrepr":"{}","lang":"py","origin":"node","parent_id":null,"retries":0,"root_id":"00000000-0000-0007-0000-000000000001","task":"tasks.add","timelimit":[null,null]},"properties":{"body_encoding":"base64","correlation_id":"00000000-0000-0007-0000-000000000001","delivery_info":{"exchange":"","routing_key":"celery"},"delivery_mode":2,"delivery_tag":"00000000-0000-0007-0000-000000000001","priority":9,"reply_to":""}}"#
}

/// Its content.
fn first_content() -> &'static str {
    r#"[[2,3],{},{"callbacks":null,"chain":null,"chord":null,"errbacks":null}]"#
}

/// The third word of the first call of a history.
fn third_word(history: &History) -> &[u8] {
    match history.entries() {
        [first, ..] => third_of(first),
        [] => b"no entry",
    }
}

/// The third word of a call.
fn third_of(entry: &Entry<Heard>) -> &[u8] {
    match entry {
        Entry::Call { words, .. } => match words.as_slice() {
            [_, _, word] => word.as_slice(),
            _ => b"no third word",
        },
        _ => b"no call",
    }
}

/// Asserts what the sealed message tells.
fn expect_told<R: Abort>(rt: &R, e: &Envelope) {
    assert!(rt; e.content() == first_content().as_bytes());
    assert!(rt; e.tag() == Tag::of(7, 1));
    assert!(rt; e.priority() == 9);
}

/// Asserts what a history publishes.
fn expect_sealed<R: Abort>(rt: &R, alloc: Global, history: &History) -> Result<(), Fail> {
    let text = third_word(history);
    assert!(rt; text == first_sealed().as_bytes());
    expect_told(rt, &read(alloc, text)?);
    Ok(())
}

#[test]
fn a_task_of_two_numbers_is_sealed(rt: HostRuntime) -> Result<(), Fail> {
    let history = run_schedule(rt.alloc(), schedule().as_bytes())
        .ok()
        .ok_or("no history")?;
    expect_sealed(&rt, rt.alloc(), &history)
}
