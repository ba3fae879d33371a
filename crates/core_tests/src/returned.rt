//! Returns, each said to its end, and put off at each of its commands.
use crate::return_rows::{
    hset_line, leave_rows, lost_entry, named_entry, named_rows, other_entry, plain_entry,
    requeue_rows, restore_rows, tag_text, unbound_rows,
};
use crate::talk::{Rows, ended, first_of, is_put_off, is_silent, said, says_all};
use command_blocks::Side;
use envelope::Tag;
use mini_store::Store;
use returns::{ReturnCore, Returned, return_core};
use std::alloc::{AllocError, Global};
use std::test::Fail;

/// A store whose table has this entry under the message's tag, and its index the tag.
fn store_with(alloc: Global, entry: &str) -> Result<Store, AllocError> {
    let mut store = Store::new(alloc);
    said(alloc, &mut store, hset_line(), entry)?;
    said(alloc, &mut store, "ZADD unacked_index 102", tag_text())?;
    Ok(store)
}

/// The return of the message.
fn return_at(side: Side) -> ReturnCore {
    return_core(Tag::of(7, 1), side)
}

/// How a return of this entry ends that says just these commands.
fn returned(
    alloc: Global,
    entry: &str,
    side: Side,
    rows: Rows,
) -> Result<Option<Returned>, AllocError> {
    let mut store = store_with(alloc, entry)?;
    ended(alloc, &mut store, return_at(side), rows)
}

/// Whether a return to the tail of the queue says just these commands, and the message goes there.
fn is_moved(alloc: Global, store: &mut Store, rows: Rows) -> Result<bool, AllocError> {
    let end = ended(alloc, store, return_at(Side::Right), rows)?;
    Ok(matches!(end, Some(Returned::Moved)))
}

#[test]
fn a_message_returns_at_either_side(rt: HostRuntime) -> Result<(), Fail> {
    let alloc = rt.alloc();
    let restored = returned(alloc, plain_entry(), Side::Right, restore_rows())?;
    assert!(rt; matches!(restored, Some(Returned::Moved)));
    let requeued = returned(alloc, plain_entry(), Side::Left, requeue_rows())?;
    assert!(rt; matches!(requeued, Some(Returned::Moved)));
    Ok(())
}

/// Whether the message returns, and is gone then.
fn returns_once(alloc: Global, store: &mut Store) -> Result<bool, AllocError> {
    let is_moved = is_moved(alloc, store, restore_rows())?;
    let second = ended(alloc, store, return_at(Side::Right), leave_rows())?;
    Ok(is_moved && matches!(second, Some(Returned::Gone)))
}

#[test]
fn a_message_returns_once(rt: HostRuntime) -> Result<(), Fail> {
    let alloc = rt.alloc();
    let mut store = store_with(alloc, plain_entry())?;
    let is_once = returns_once(alloc, &mut store)?;
    assert!(rt; is_once);
    Ok(())
}

/// Whether the message stays as long as its entry's exchange has no binding, and then goes by that.
fn returns_by_exchange(alloc: Global, store: &mut Store) -> Result<bool, AllocError> {
    let unbound = ended(alloc, store, return_at(Side::Right), unbound_rows())?;
    said(
        alloc,
        store,
        "SADD _kombu.binding.ex",
        "rk\x06\x16\x06\x16mail",
    )?;
    Ok(matches!(unbound, Some(Returned::Stayed)) && is_moved(alloc, store, named_rows())?)
}

#[test]
fn a_message_returns_by_its_entrys_exchange(rt: HostRuntime) -> Result<(), Fail> {
    let alloc = rt.alloc();
    let mut store = store_with(alloc, named_entry())?;
    let is_returned = returns_by_exchange(alloc, &mut store)?;
    assert!(rt; is_returned);
    Ok(())
}

#[test]
fn what_is_no_entry_of_the_tag_stays(rt: HostRuntime) -> Result<(), Fail> {
    let alloc = rt.alloc();
    for entry in [other_entry(), lost_entry(), "no entry"] {
        let end = returned(alloc, entry, Side::Right, leave_rows())?;
        assert!(rt; matches!(end, Some(Returned::Stayed)), "{entry}");
    }
    Ok(())
}

/// Whether a return says a try whose table another client alters before EXEC.
fn is_disturbed(
    alloc: Global,
    store: &mut Store,
    core: &mut ReturnCore,
) -> Result<bool, AllocError> {
    let rows = restore_rows();
    let is_said = rows.len() == 7 && says_all(alloc, store, core, first_of(rows, 6))?;
    said(alloc, store, "HSET unacked other", "text")?;
    match rows.get(6..) {
        Some(last) => Ok(is_said && says_all(alloc, store, core, last)?),
        None => Ok(false),
    }
}

/// Whether a return says eight such tries.
fn is_disturbed_often(
    alloc: Global,
    store: &mut Store,
    core: &mut ReturnCore,
) -> Result<bool, AllocError> {
    for _ in 0..8 {
        if !is_disturbed(alloc, store, core)? {
            return Ok(false);
        }
    }
    Ok(true)
}

/// Whether it is contended after them.
fn is_contended(
    alloc: Global,
    store: &mut Store,
    core: &mut ReturnCore,
) -> Result<bool, AllocError> {
    let is_tried = is_disturbed_often(alloc, store, core)?;
    let is_told = matches!(core.end(), Some(Returned::Contended(tag)) if tag == Tag::of(7, 1));
    Ok(is_tried && is_told && is_silent(alloc, core)?)
}

/// Whether a return of the message from this store is contended.
fn contends(alloc: Global, store: &mut Store) -> Result<bool, AllocError> {
    let mut core = return_at(Side::Right);
    is_contended(alloc, store, &mut core)
}

#[test]
fn a_return_is_contended_after_eight_tries(rt: HostRuntime) -> Result<(), Fail> {
    let alloc = rt.alloc();
    let mut store = store_with(alloc, plain_entry())?;
    let is_contended = contends(alloc, &mut store)?;
    assert!(rt; is_contended);
    Ok(())
}

/// Whether a return of this entry that said so many of these commands refuses another reply.
fn return_refuses(
    alloc: Global,
    entry: &str,
    rows: Rows,
    count: usize,
) -> Result<bool, AllocError> {
    let mut store = store_with(alloc, entry)?;
    is_put_off(
        alloc,
        &mut store,
        return_at(Side::Right),
        first_of(rows, count),
    )
}

#[test]
fn another_answer_puts_a_return_off(rt: HostRuntime) -> Result<(), Fail> {
    let alloc = rt.alloc();
    for count in 0..4 {
        assert!(rt;
            return_refuses(alloc, named_entry(), unbound_rows(), count)?,
            "a return after {count} commands"
        );
    }
    for count in 0..7 {
        assert!(rt;
            return_refuses(alloc, plain_entry(), restore_rows(), count)?,
            "a return after {count} commands"
        );
    }
    Ok(())
}
