//! Revokes, and for how long they are live.
use revokes::{REVOKE_LIMIT, Revokes};
use std::alloc::{AllocError, Global};
use std::test::Fail;
use wire_values::Bytes;

/// The id of a number: its four bytes.
fn id_of(alloc: Global, number: u32) -> Result<Bytes, AllocError> {
    Bytes::from_slice(alloc, &number.to_be_bytes())
}

#[test]
fn the_first_of_50001_is_dropped(rt: HostRuntime) -> Result<(), Fail> {
    let mut revokes = Revokes::new(rt.alloc());
    for number in 0..REVOKE_LIMIT as u32 + 1 {
        revokes.add(rt.alloc(), id_of(rt.alloc(), number)?, 0)?;
    }
    assert!(rt;
        !revokes.has(id_of(rt.alloc(), 0)?.as_slice(), 0),
        "the first is gone"
    );
    assert!(rt;
        revokes.has(id_of(rt.alloc(), 1)?.as_slice(), 10799),
        "the second is live"
    );
    assert!(rt;
        !revokes.has(id_of(rt.alloc(), 1)?.as_slice(), 10800),
        "and then no more"
    );
    assert!(rt;
        revokes.live(rt.alloc(), 0)?.as_slice().len() == 50000,
        "all are live"
    );
    assert!(rt;
        revokes.live(rt.alloc(), 10800)?.as_slice().is_empty(),
        "none is live"
    );
    Ok(())
}

#[test]
fn a_present_id_moves_to_the_end(rt: HostRuntime) -> Result<(), Fail> {
    let mut revokes = Revokes::new(rt.alloc());
    revokes.add(rt.alloc(), Bytes::from_slice(rt.alloc(), b"a")?, 5)?;
    revokes.add(rt.alloc(), Bytes::from_slice(rt.alloc(), b"b")?, 6)?;
    revokes.add(rt.alloc(), Bytes::from_slice(rt.alloc(), b"a")?, 7)?;
    let live = revokes.live(rt.alloc(), 10806)?;
    assert!(rt; live.as_slice().len() == 1, "b is live no more");
    let live = revokes.live(rt.alloc(), 10805)?;
    match live.as_slice() {
        [first, second] => {
            assert!(rt; first.as_slice() == b"b".as_slice(), "b is first");
            assert!(rt; second.as_slice() == b"a".as_slice(), "a is last");
        }
        [] | [_] | [_, _, _, ..] => assert!(rt; false, "two are live"),
    }
    assert!(rt; revokes.len() == 2, "two are kept");
    Ok(())
}
