//! The keys of queues.
ghost use Rattle.std.specs.Prelude.{◌≡◌, ◌∷◌, [], ◌++◌, ◌<◌, ◌≤◌, ◌==◌, ◌⊎◌, length, position, take, drop, IfOk, MatchOption, Some, None};
ghost use Rattle.queue_keys.specs.Names.{is_name};
ghost use Rattle.queue_keys.specs.Layouts.{HasStep, plain, step_of};
ghost use Rattle.queue_keys.specs.QueueKeys.{if_name, keys_at, marked_step, mark_part, name_part, pop_keys, queue_key, split_key, step_mark};

use crate::QueueName;
use crate::queue_name::{are_same, is_name};
use std::alloc::{AllocError, Global};
use wire_values::{Bytes, Words};

/// The step of a priority: the greatest of 0, 3, 6 and 9 that isn't above it (Kombu's `priority_steps`).
pub fn step_of(priority: u8) -> u8
    ensures step { result ≡ step_of plain priority }
    ensures has { HasStep plain.steps result }
{
    if priority < 3 {
        0
    } else if priority < 6 {
        3
    } else if priority < 9 {
        6
    } else {
        9
    }
}

/// The key of a queue's list at a step: its name, and from step 3 on the bytes 06 16 (hexadecimal) and the step's digit.
pub fn queue_key(alloc: Global, queue: &QueueName, step: u8) -> Result<Bytes, AllocError>
    requires { HasStep plain.steps step }
    ensures { IfOk result (λ key. key ≡ queue_key plain queue.now step) }
{
    let mut key = Bytes::from_slice(alloc, queue.bytes())?;
    key.extend(alloc, step_mark(step))?;
    Ok(key)
}

/// What follows a queue's name in its key at a step.
fn step_mark(step: u8) -> &'static [u8]
    requires { HasStep plain.steps step }
    ensures { result.now ≡ step_mark step }
{
    match step {
        3 => b"\x06\x163",
        6 => b"\x06\x166",
        9 => b"\x06\x169",
        _ => b"",
    }
}

/// The queue and the step whose key it is. None exactly where no lawful name of a queue makes this key at a step.
pub fn split_key(key: &[u8]) -> Option<(&[u8], u8)>
    ensures { MatchOption result (split_key plain key.now ≡ None) (λ parts. split_key plain key.now ≡ Some (parts.0.now, parts.1)) }
{
    let place = mark_place(key);
    match marked_step(after(key, place)) {
        Some(step) => named(&key[..place], step),
        None => None,
    }
}

/// The name with the step, where the name is lawful.
fn named(name: &[u8], step: u8) -> Option<(&[u8], u8)>
    ensures { MatchOption result (if_name name.now step ≡ None) (λ parts. if_name name.now step ≡ Some (parts.0.now, parts.1)) }
{
    if is_name(name) {
        Some((name, step))
    } else {
        None
    }
}

/// What follows so many bytes.
fn after(text: &[u8], count: usize) -> &[u8]
    requires { count ≤ length text.now }
    ensures { result.now ≡ drop count text.now }
{
    &text[count..]
}

/// Where the first 06 (hexadecimal) stands, or else the length.
fn mark_place(key: &[u8]) -> usize
    ensures name { take result key.now ≡ name_part key.now }
    ensures mark { drop result key.now ≡ mark_part key.now }
    ensures within { result ≤ length key.now }
{
    match first_six(key) {
        Some(place) => place,
        None => key.len(),
    }
}

/// Where the first 06 (hexadecimal) stands, if there is one.
fn first_six(key: &[u8]) -> Option<usize>
    ensures { result ≡ position (λ b. b == 6) key.now }
{
    key.iter().position(|byte| *byte == 6)
}

/// The step that has this mark.
fn marked_step(mark: &[u8]) -> Option<u8>
    ensures { result ≡ marked_step plain.steps mark.now }
{
    if are_same(b"", mark) {
        return Some(0);
    }
    if are_same(b"\x06\x163", mark) {
        return Some(3);
    }
    if are_same(b"\x06\x166", mark) {
        return Some(6);
    }
    if are_same(b"\x06\x169", mark) {
        return Some(9);
    }
    None
}

/// The keys of a pop: those of all the queues at step 0, then at 3, 6 and 9.
pub fn pop_keys(alloc: Global, queues: &[QueueName]) -> Result<Words, AllocError>
    ensures { IfOk result (λ keys. keys ≡ pop_keys plain queues.now) }
{
    let mut keys = Words::new();
    add_keys(alloc, &mut keys, queues, 0)?;
    add_keys(alloc, &mut keys, queues, 3)?;
    add_keys(alloc, &mut keys, queues, 6)?;
    add_keys(alloc, &mut keys, queues, 9)?;
    Ok(keys)
}

/// Adds the keys of the queues at a step.
fn add_keys(
    alloc: Global,
    keys: &mut Words,
    queues: &[QueueName],
    step: u8,
) -> Result<(), AllocError>
    requires { HasStep plain.steps step }
    ensures { IfOk result (λ _. keys.new ≡ keys.old ++ keys_at plain step queues.now) }
{
    for queue in queues {
        keys.push(alloc, queue_key(alloc, queue, step)?)?;
    }
    Ok(())
}
