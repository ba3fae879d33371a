//! Rounds over a store in memory: what is sent under which tag, and at which moment.
use beat_files::Schedule;
use beat_round::{BeatEnd, beat_round};
use client_core::ClientCore;
use envelope::Tag;
use mini_store::Store;
use net_links::StepClock;
use plain_desk::PlainDesk;
use std::alloc::{AllocError, Global};
use std::test::Fail;
use wire_spelling::command_fits;
use wire_values::{Bytes, Words};

/// An entry each 30 seconds, and one each minute.
const FILE: &str =
    "celery-beat 1\nevery 30 a celery tasks.add [1,2]\nevery 60 b other tasks.echo [\"x\"]";

#[test]
fn two_rounds_send_under_two_tags(rt: HostRuntime) -> Result<(), Fail> {
    let alloc = rt.alloc();
    let mut schedule = Schedule::read(alloc, FILE.as_bytes(), 100)?;
    let mut client = ClientCore::new(5);
    let clock = StepClock::new(100_000_000, 0);
    let mut desk = PlainDesk::new(Store::new(alloc), 1);
    let BeatEnd::Sent(first) = beat_round(alloc, &mut desk, &mut client, &clock, &mut schedule, 130)
    else {
        return Err(Fail::from("a fault"));
    };
    let BeatEnd::Sent(second) = beat_round(
        alloc,
        &mut desk,
        &mut client,
        &clock,
        &mut schedule,
        160,
    ) else {
        return Err(Fail::from("a fault"));
    };
    assert!(rt;
        first.as_slice() == [(0, Tag::of(5, 1))].as_slice(),
        "one entry at 130"
    );
    assert!(rt;
        second.as_slice() == [(0, Tag::of(5, 2)), (1, Tag::of(5, 3))].as_slice(),
        "both at 160"
    );
    Ok(())
}

/// A store in which this key holds a set.
fn store_with_set(alloc: Global, key: &str) -> Result<Store, AllocError> {
    let mut store = Store::new(alloc);
    let mut command = Words::new();
    for word in ["SADD", key, "x"].as_slice() {
        command.push(alloc, Bytes::from_slice(alloc, word.as_bytes())?)?;
    }
    if command_fits(&command) {
        store.apply(alloc, 99, 1, &command)?;
    }
    Ok(store)
}

#[test]
fn a_refused_round_does_not_tick(rt: HostRuntime) -> Result<(), Fail> {
    let alloc = rt.alloc();
    let mut schedule = Schedule::read(alloc, FILE.as_bytes(), 100)?;
    let mut client = ClientCore::new(5);
    let clock = StepClock::new(100_000_000, 0);
    let mut desk = PlainDesk::new(store_with_set(alloc, "other")?, 1);
    match beat_round(alloc, &mut desk, &mut client, &clock, &mut schedule, 160) {
        BeatEnd::Refused(_) => {}
        _ => return Err(Fail::from("no refusal")),
    }
    assert!(rt;
        schedule.due(alloc, 160)?.as_slice() == [0, 1].as_slice(),
        "both are still due"
    );
    Ok(())
}
