//! The lookup: the queues of a routing key.
ghost use Rattle.std.specs.Prelude.{◌≡◌, ◌≤◌, IfOk, OnOk, length, true};
ghost use Rattle.queue_keys.specs.Names.{is_name};
ghost use Rattle.queue_keys.specs.Lookup.{insert_once, lookup, queues_for, route_keys};
ghost use Rattle.queue_keys.specs.Layouts.{HasStep, plain};
ghost use Rattle.queue_keys.specs.QueueKeys.{keys_at};
ghost use Rattle.lookups.specs.Parts.{bound_queue, with_found_queue};
ghost use Rattle.lookups.specs.Standings.{standing_from};

use crate::bindings::bound_queue;
use queue_keys::{NameFault, QueueName, is_name, queue_key};
use std::alloc::{AllocError, Global};
use std::cmp::Ordering;
use wire_values::{Bytes, List, Words};

/// The keys of the lists at a step to which an exchange's message goes under a routing key, by the members of the
/// exchange's bindings.
///
/// # Errors
/// Want of memory.
pub fn route_keys(
    alloc: Global,
    step: u8,
    exchange: &[u8],
    routing_key: &[u8],
    members: &[Bytes],
) -> Result<Words, AllocError>
    requires { HasStep plain.steps step }
    ensures { IfOk result (λ keys. keys ≡ route_keys plain step exchange.now routing_key.now members.now) }
{
    let queues = queues_for(alloc, exchange, routing_key, members)?;
    list_keys(alloc, step, queues.as_slice())
}

/// The keys of some queues at a step.
fn list_keys(alloc: Global, step: u8, queues: &[QueueName]) -> Result<Words, AllocError>
    requires { HasStep plain.steps step }
    ensures { IfOk result (λ keys. keys ≡ keys_at plain step queues.now) }
{
    let mut keys = Words::new();
    for queue in queues {
        keys.push(alloc, queue_key(alloc, queue, step)?)?;
    }
    Ok(keys)
}

/// The queues of an exchange's message under a routing key, by the members of the exchange's bindings: distinct, in
/// the order of their bytes. With the empty exchange the one queue is the routing key, where it is a lawful name.
///
/// # Errors
/// Want of memory.
pub fn queues_for(
    alloc: Global,
    exchange: &[u8],
    routing_key: &[u8],
    members: &[Bytes],
) -> Result<List<QueueName>, AllocError>
    ensures { IfOk result (λ queues. queues ≡ queues_for exchange.now routing_key.now members.now) }
{
    if !exchange.is_empty() {
        return lookup(alloc, routing_key, members);
    }
    let mut queues = List::new();
    if is_name(routing_key) {
        queues.push(alloc, lawful_name(alloc, routing_key)?)?;
    }
    Ok(queues)
}

/// The queues of the members to whose bindings the routing key goes: distinct, in the order of their bytes. Members
/// that spell no binding are passed over.
///
/// # Errors
/// Want of memory.
pub fn lookup(
    alloc: Global,
    routing_key: &[u8],
    members: &[Bytes],
) -> Result<List<QueueName>, AllocError>
    ensures { IfOk result (λ queues. queues ≡ lookup routing_key.now members.now) }
{
    let mut queues = Vec::new(alloc);
    let mut count = members.len();
    'members: while count > 0 {
        count -= 1;
        add_bound(alloc, &mut queues, routing_key, members[count].as_slice())?;
    }
    Ok(List::from_vec(queues))
}

/// Adds the queue of a member's binding, where the routing key goes to it.
fn add_bound(
    alloc: Global,
    queues: &mut Vec<QueueName>,
    routing_key: &[u8],
    member: &[u8],
) -> Result<(), AllocError>
    ensures { OnOk result (queues.new.items ≡ with_found_queue (bound_queue routing_key.now member.now) queues.old.items) }
{
    match bound_queue(routing_key, member) {
        Some(queue) => add_once(alloc, queues, queue),
        None => Ok(()),
    }
}

/// Adds a queue in the order of the bytes, where it isn't there yet.
fn add_once(alloc: Global, queues: &mut Vec<QueueName>, name: &[u8]) -> Result<(), AllocError>
    requires { is_name name.now ≡ true }
    ensures { OnOk result (queues.new.items ≡ insert_once name.now queues.old.items) }
{
    let (place, stands) = standing(queues.as_slice(), name);
    if !stands {
        queues.insert(place, lawful_name(alloc, name)?)?;
    }
    Ok(())
}

/// How many of the queues stand before the name, and whether it stands there.
fn standing(queues: &[QueueName], name: &[u8]) -> (usize, bool)
    ensures standing { result ≡ standing_from 0 name.now queues.now }
    ensures within { result.0 ≤ length queues.now }
{
    for (place, queue) in queues.iter().enumerate() {
        match name.cmp(queue.bytes()) {
            Ordering::Less => return (place, false),
            Ordering::Equal => return (place, true),
            Ordering::Greater => {}
        }
    }
    (queues.len(), false)
}

/// The queue of a lawful name.
///
/// # Errors
/// Want of memory.
pub fn lawful_name(alloc: Global, name: &[u8]) -> Result<QueueName, AllocError>
    requires { is_name name.now ≡ true }
    ensures { IfOk result (λ queue. queue ≡ name.now) }
{
    match QueueName::new(alloc, name) {
        Ok(queue) => Ok(queue),
        Err(NameFault::Memory) => Err(AllocError),
        Err(NameFault::Empty | NameFault::Long | NameFault::Byte(_) | NameFault::Reserved) =>
            unreachable!(),
    }
}
