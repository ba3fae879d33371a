//! Declarations, publications on an exchange with a name, and the round of queues.
use crate::cores::{publication, sends};
use crate::rows::{DeclareRow, bound_rows, declare_rows, exchange_message, unbound_rows};
use crate::talk::{ended, first_of, is_put_off};
use envelope::Tag;
use lookups::is_part;
use mini_store::Store;
use queue_keys::QueueName;
use routes::{Change, Cycle, Declaration, DeclareCore, PublishEnd, declare_core};
use std::alloc::Global;
use std::test::Fail;
use wire_values::Bytes;

/// A declaration on the exchange `ex`, of a binding of this routing key, pattern and queue.
fn declaration(
    alloc: Global,
    change: Change,
    routing_key: &str,
    pattern: &str,
    queue: &str,
) -> Result<DeclareCore, Fail> {
    if !is_part(b"ex") || !is_part(routing_key.as_bytes()) || !is_part(pattern.as_bytes()) {
        return Err(Fail::from("no parts"));
    }
    let exchange = Bytes::from_slice(alloc, b"ex")?;
    let routing_key = Bytes::from_slice(alloc, routing_key.as_bytes())?;
    let pattern = Bytes::from_slice(alloc, pattern.as_bytes())?;
    let queue = QueueName::new(alloc, queue.as_bytes())?;
    Ok(declare_core(Declaration::new(change, exchange, routing_key, pattern, queue)))
}

/// What a row's declaration does.
fn change(is_added: bool) -> Change {
    if is_added {
        Change::Add
    } else {
        Change::Remove
    }
}

/// Whether a declaration says its command and ends as its row has it.
fn declares(alloc: Global, store: &mut Store, row: &DeclareRow) -> Result<bool, Fail> {
    let (routing_key, pattern, queue, is_added, line, changed) = *row;
    let core = declaration(alloc, change(is_added), routing_key, pattern, queue)?;
    match ended(alloc, store, core, &[(98, line)])? {
        Some(end) => Ok(end.changed == changed),
        None => Ok(false),
    }
}

/// Has the store hear the declarations, and tells whether each says its command and ends as its row has it.
fn declares_all(alloc: Global, store: &mut Store) -> Result<bool, Fail> {
    for row in declare_rows() {
        if !declares(alloc, store, row)? {
            return Ok(false);
        }
    }
    Ok(true)
}

/// Whether a declaration refuses another reply.
fn declaration_refuses(alloc: Global, store: &mut Store) -> Result<bool, Fail> {
    let core = declaration(alloc, Change::Remove, "a", "", "q3")?;
    Ok(is_put_off(alloc, store, core, &[])?)
}

#[test]
fn bindings_are_declared(rt: HostRuntime) -> Result<(), Fail> {
    let alloc = rt.alloc();
    let mut store = Store::new(alloc);
    let is_declared = declares_all(alloc, &mut store)? && declaration_refuses(alloc, &mut store)?;
    assert!(rt; is_declared);
    Ok(())
}

/// Whether the publication of the message on the exchange ends without a queue.
fn finds_no_queue(alloc: Global, store: &mut Store) -> Result<bool, Fail> {
    let core = publication(alloc, exchange_message())?;
    match ended(alloc, store, core, unbound_rows())? {
        Some(PublishEnd::NoQueue(tag)) => Ok(tag == Tag::of(7, 1)),
        Some(PublishEnd::Sent { .. }) | None => Ok(false),
    }
}

/// Whether the message finds no queue before the declarations, and two after them.
fn goes_by_bindings(alloc: Global, store: &mut Store) -> Result<bool, Fail> {
    Ok(
        finds_no_queue(alloc, store)?
            && declares_all(alloc, store)?
            && sends(alloc, store, exchange_message(), bound_rows(), 2)?,
    )
}

#[test]
fn a_message_goes_by_bindings(rt: HostRuntime) -> Result<(), Fail> {
    let alloc = rt.alloc();
    let mut store = Store::new(alloc);
    let is_gone = goes_by_bindings(alloc, &mut store)?;
    assert!(rt; is_gone);
    Ok(())
}

/// Whether a publication on the exchange that said so many commands refuses another reply.
fn publication_refuses(alloc: Global, count: usize) -> Result<bool, Fail> {
    let mut store = Store::new(alloc);
    Ok(declares_all(alloc, &mut store)? && is_refused(alloc, &mut store, count)?)
}

/// The same, where the bindings are declared.
fn is_refused(alloc: Global, store: &mut Store, count: usize) -> Result<bool, Fail> {
    let core = publication(alloc, exchange_message())?;
    Ok(is_put_off(alloc, store, core, first_of(bound_rows(), count))?)
}

#[test]
fn another_answer_ends_a_publication(rt: HostRuntime) -> Result<(), Fail> {
    let alloc = rt.alloc();
    for count in 0..3 {
        assert!(rt;
            publication_refuses(alloc, count)?,
            "after {count} commands"
        );
    }
    Ok(())
}

/// Whether a round has the queues in this order.
fn has_order(cycle: &Cycle, names: &[&str]) -> bool {
    let order = cycle.order();
    order.len() == names.len()
        && order
            .iter()
            .zip(names)
            .all(|(queue, name)| queue.bytes() == name.as_bytes())
}

/// A round of two queues.
fn round(alloc: Global) -> Result<Cycle, Fail> {
    let mut queues = Vec::new(alloc);
    queues.push(QueueName::new(alloc, b"a")?)?;
    queues.push(QueueName::new(alloc, b"b")?)?;
    Ok(Cycle::new(queues))
}

/// Whether a queue that gave goes to the end of the round, and a queue that isn't in it changes nothing.
fn rotates(cycle: &mut Cycle) -> bool {
    let is_first = has_order(cycle, &["a", "b"]);
    cycle.rotate(b"a");
    let is_last = has_order(cycle, &["b", "a"]);
    cycle.rotate(b"c");
    is_first && is_last && has_order(cycle, &["b", "a"])
}

#[test]
fn a_queue_that_gave_goes_to_the_end(rt: HostRuntime) -> Result<(), Fail> {
    let mut cycle = round(rt.alloc())?;
    assert!(rt; rotates(&mut cycle));
    Ok(())
}
