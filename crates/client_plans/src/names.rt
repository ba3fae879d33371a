//! Names of queues that a block is begun over.
ghost use Rattle.std.specs.Prelude.{◌≡◌, IfOk, true};
ghost use Rattle.std.specs.List.{list_all, list_any};
ghost use Rattle.queue_keys.specs.Names.{has_length, is_free, is_name, is_reserved};
ghost use Rattle.schedule_model.specs.Faults.{is_no_name};
ghost use Rattle.client_plans.specs.Plans.{name_reason, way_reason};

use line_text::Reason;
use queue_keys::{NameFault, QueueName, is_reserved};
use std::alloc::{AllocError, Global};
use wire_values::{Bytes, List};

/// Whether no queue's name is spelled so, reserved or not.
pub(crate) fn is_no_name(name: &Bytes) -> bool
    ensures { result ≡ is_no_name name.now }
{
    let bytes = name.as_slice();
    !(are_free(bytes) && has_length(bytes))
}

/// Why a message doesn't go this way: on the empty exchange its routing key isn't the lawful name of a queue.
pub fn way_fault(exchange: &Bytes, routing_key: &Bytes) -> Option<Reason>
    ensures { result ≡ way_reason exchange.now routing_key.now }
{
    if exchange.is_empty() {
        name_fault(routing_key)
    } else {
        None
    }
}

/// Why a queue can't have this name.
fn name_fault(name: &Bytes) -> Option<Reason>
    ensures { result ≡ name_reason name.now }
{
    if is_no_name(name) {
        Some(Reason::Name)
    } else if is_reserved(name.as_slice()) {
        Some(Reason::Reserved)
    } else {
        None
    }
}

/// Whether none of the bytes parts texts.
fn are_free(bytes: &[u8]) -> bool
    ensures { result ≡ list_all is_free bytes.now }
{
    bytes.iter().all(|byte| is_free(*byte))
}

/// Whether it is none of the two bytes that part the texts of a binding.
fn is_free(byte: u8) -> bool
    ensures { result ≡ is_free byte }
{
    byte != 0x06 && byte != 0x16
}

/// Whether there are 1 to 255 bytes.
fn has_length(bytes: &[u8]) -> bool
    ensures { result ≡ has_length bytes.now }
{
    match bytes {
        [] => false,
        [_, rest @ ..] => rest.len() < 255,
    }
}

/// Whether one of the names is spelled as no queue's name, reserved or not.
pub(crate) fn has_no_name(names: &[Bytes]) -> bool
    ensures { result ≡ list_any is_no_name names.now }
{
    names.iter().any(|name| is_no_name(name))
}

/// Whether one of the names is kept for another key.
pub(crate) fn has_reserved(names: &[Bytes]) -> bool
    ensures { result ≡ list_any is_reserved names.now }
{
    names.iter().any(|name| is_reserved(name.as_slice()))
}

/// The names of queues, as names.
pub(crate) fn queue_names(alloc: Global, names: &[Bytes]) -> Result<List<QueueName>, AllocError>
    requires { list_all is_name names.now ≡ true }
    ensures { IfOk result (λ made. made ≡ names.now) }
{
    let mut made = List::new();
    for name in names {
        let queue = queue_name(alloc, name.as_slice())?;
        made.push(alloc, queue)?;
    }
    Ok(made)
}

/// The lawful name of a queue, as a name.
pub(crate) fn queue_name(alloc: Global, name: &[u8]) -> Result<QueueName, AllocError>
    requires { is_name name.now ≡ true }
    ensures { IfOk result (λ made. made ≡ name.now) }
{
    match QueueName::new(alloc, name) {
        Ok(queue) => Ok(queue),
        Err(NameFault::Memory) => Err(AllocError),
        Err(NameFault::Empty)
        | Err(NameFault::Long)
        | Err(NameFault::Byte(_))
        | Err(NameFault::Reserved) => { unreachable!() }
    }
}
