//! The cores, each said to its end, and each put off at each of its commands.
use crate::rows::{end_rows, message, pop_rows, publish_rows, urgent_message};
use crate::talk::{Rows, ended, first_of, is_put_off, said};
use envelope::{Tag, read};
use mini_store::Store;
use queue_keys::{QueueName, is_name};
use routes::{PublishCore, PublishEnd, publish_core};
use std::alloc::{AllocError, Global};
use std::test::Fail;
use unacked::{Acked, EndCore, PopCore, PopEnd, end_core, pop_core};
use wire_values::List;

/// A store whose queue has this element.
fn store_with(alloc: Global, element: &str) -> Result<Store, AllocError> {
    let mut store = Store::new(alloc);
    said(alloc, &mut store, "LPUSH celery", element)?;
    Ok(store)
}

/// A pop of the queue.
fn pop(alloc: Global) -> Result<PopCore, Fail> {
    let mut queues = List::new();
    queues.push(alloc, QueueName::new(alloc, b"celery")?)?;
    Ok(pop_core(queues))
}

/// The acknowledgement of the message.
fn acknowledgement() -> EndCore {
    end_core(Tag::of(7, 1))
}

/// The publication of a message whose routing key is the name of a queue.
pub fn publication(alloc: Global, text: &str) -> Result<PublishCore, Fail> {
    let e = read(alloc, text.as_bytes())?;
    if is_name(e.routing_key()) {
        Ok(publish_core(e))
    } else {
        Err(Fail::from("names no queue"))
    }
}

/// Whether a pop ended with the message and the queue's key.
fn has_message(end: &Option<PopEnd>) -> bool {
    match end {
        Some(PopEnd::Popped(delivery)) => {
            delivery.envelope.tag() == Tag::of(7, 1)
                && delivery.key.as_slice() == b"celery".as_slice()
        }
        Some(PopEnd::Empty) | Some(PopEnd::Unreadable) | None => false,
    }
}

/// How a pop ends that says just the first of the commands of its rows.
fn popped(alloc: Global, store: &mut Store, count: usize) -> Result<Option<PopEnd>, Fail> {
    let core = pop(alloc)?;
    Ok(ended(alloc, store, core, first_of(pop_rows(), count))?)
}

/// Whether a pop of the queue gives the message.
fn gives_message(alloc: Global, store: &mut Store) -> Result<bool, Fail> {
    let end = popped(alloc, store, 5)?;
    Ok(has_message(&end))
}

#[test]
fn a_message_is_popped(rt: HostRuntime) -> Result<(), Fail> {
    let alloc = rt.alloc();
    let mut store = store_with(alloc, message())?;
    let is_given = gives_message(alloc, &mut store)?;
    assert!(rt; is_given);
    Ok(())
}

/// Whether a pop of a store whose queue is empty ends so.
fn finds_nothing(alloc: Global) -> Result<bool, Fail> {
    let mut store = Store::new(alloc);
    Ok(matches!(popped(alloc, &mut store, 1)?, Some(PopEnd::Empty)))
}

/// Whether a pop of what is no envelope ends so.
fn finds_no_envelope(alloc: Global) -> Result<bool, Fail> {
    let mut store = store_with(alloc, "no envelope")?;
    Ok(matches!(popped(alloc, &mut store, 1)?, Some(PopEnd::Unreadable)))
}

#[test]
fn pops_of_no_message_end(rt: HostRuntime) -> Result<(), Fail> {
    let alloc = rt.alloc();
    assert!(rt; finds_nothing(alloc)?);
    assert!(rt; finds_no_envelope(alloc)?);
    Ok(())
}

/// Whether the acknowledgement of the message ends with this.
fn is_acknowledged(alloc: Global, store: &mut Store, removed: bool) -> Result<bool, Fail> {
    let end = ended(alloc, store, acknowledgement(), end_rows())?;
    Ok(matches!(end, Some(Acked { removed: told }) if told == removed))
}

/// Whether a message that was popped is acknowledged, and then not again.
fn is_acknowledged_once(alloc: Global, store: &mut Store) -> Result<bool, Fail> {
    Ok(
        gives_message(alloc, store)?
            && is_acknowledged(alloc, store, true)?
            && is_acknowledged(alloc, store, false)?,
    )
}

#[test]
fn a_message_is_acknowledged_once(rt: HostRuntime) -> Result<(), Fail> {
    let alloc = rt.alloc();
    let mut store = store_with(alloc, message())?;
    let is_acknowledged = is_acknowledged_once(alloc, &mut store)?;
    assert!(rt; is_acknowledged);
    Ok(())
}

/// Whether a publication ended with the message in so many queues.
fn is_sent(end: Option<PublishEnd>, count: u64) -> bool {
    match end {
        Some(PublishEnd::Sent { tag, queues }) => tag == Tag::of(7, 1) && queues == count,
        Some(PublishEnd::NoQueue(_)) | None => false,
    }
}

/// Whether the publication of a message says just these commands, and ends with it in so many queues.
pub fn sends(
    alloc: Global,
    store: &mut Store,
    text: &str,
    rows: Rows,
    count: u64,
) -> Result<bool, Fail> {
    let core = publication(alloc, text)?;
    Ok(is_sent(ended(alloc, store, core, rows)?, count))
}

#[test]
fn a_message_is_published(rt: HostRuntime) -> Result<(), Fail> {
    let alloc = rt.alloc();
    let mut store = Store::new(alloc);
    let is_sent = sends(alloc, &mut store, urgent_message(), publish_rows(), 1)?;
    assert!(rt; is_sent);
    Ok(())
}

/// Whether a pop that said so many commands refuses another reply.
fn pop_refuses(alloc: Global, count: usize) -> Result<bool, Fail> {
    let mut store = store_with(alloc, message())?;
    let core = pop(alloc)?;
    Ok(is_put_off(alloc, &mut store, core, first_of(pop_rows(), count))?)
}

/// The same of an acknowledgement.
fn end_refuses(alloc: Global, count: usize) -> Result<bool, AllocError> {
    let mut store = Store::new(alloc);
    is_put_off(
        alloc,
        &mut store,
        acknowledgement(),
        first_of(end_rows(), count),
    )
}

/// The same of a publication that said nothing.
fn publication_refuses(alloc: Global) -> Result<bool, Fail> {
    let mut store = Store::new(alloc);
    let core = publication(alloc, urgent_message())?;
    Ok(is_put_off(alloc, &mut store, core, &[])?)
}

#[test]
fn another_answer_puts_a_core_off(rt: HostRuntime) -> Result<(), Fail> {
    let alloc = rt.alloc();
    for count in 0..5 {
        assert!(rt; pop_refuses(alloc, count)?, "a pop after {count} commands");
    }
    for count in 0..4 {
        assert!(rt;
            end_refuses(alloc, count)?,
            "an acknowledgement after {count} commands"
        );
    }
    assert!(rt; publication_refuses(alloc)?);
    Ok(())
}
