//! Passes, each said to its end, contended, and put off at each of its commands.
use crate::rows::{
    due_rows, early_rows, eleven_rows, expired_rows, failed_rows, foreign_rows, held_rows,
    lost_rows, other_member_rows, raced_rows, release_rows, restored_rows,
};
use crate::talk::{Row, is_silent, plays, refuses};
use envelope::Tag;
use mini_store::Store;
use passes::{PassCore, PassEnd, pass_core, pass_token};
use std::alloc::{AllocError, Global};
use std::test::Fail;

/// The first pass of the client of seed 9, under a visibility timeout of an hour.
fn first_pass(alloc: Global) -> Result<PassCore, AllocError> {
    Ok(pass_core(3600, pass_token(alloc, 9, 1)?))
}

/// How a pass ends that says just those of these rows that are its own; None where it says others.
fn ended(alloc: Global, rows: &[Row]) -> Result<Option<PassEnd>, Fail> {
    let mut store = Store::new(alloc);
    let mut core = first_pass(alloc)?;
    if !plays(alloc, &mut store, &mut core, rows)? {
        return Ok(None);
    }
    let end = core.end();
    if is_silent(alloc, &mut core)? {
        return Ok(end);
    }
    Ok(None)
}

/// The counts of a pass that is done.
fn counts(end: Option<PassEnd>) -> Option<(u64, u64, u64)> {
    match end? {
        PassEnd::Done {
            moved,
            gone,
            stayed,
        } => Some((moved, gone, stayed)),
        PassEnd::Held | PassEnd::Contended(_) => None,
    }
}

#[test]
fn a_pass_returns_what_is_due(rt: HostRuntime) -> Result<(), Fail> {
    let alloc = rt.alloc();
    let cases: [(&[Row], (u64, u64, u64)); 8] = [
        (restored_rows(), (1, 0, 0)),
        (early_rows(), (0, 0, 0)),
        (eleven_rows(), (1, 8, 1)),
        (other_member_rows(), (0, 0, 0)),
        (expired_rows(), (0, 0, 0)),
        (foreign_rows(), (0, 0, 0)),
        (lost_rows(), (0, 0, 0)),
        (raced_rows(), (0, 0, 0)),
    ];
    for (place, (rows, wanted)) in cases.iter().enumerate() {
        let told = counts(ended(alloc, rows)?);
        assert!(rt; told == Some(*wanted), "case {place}");
    }
    Ok(())
}

#[test]
fn a_pass_leaves_a_held_mutex(rt: HostRuntime) -> Result<(), Fail> {
    let end = ended(rt.alloc(), held_rows())?;
    assert!(rt; matches!(end, Some(PassEnd::Held)));
    Ok(())
}

#[test]
fn a_contended_return_ends_a_pass(rt: HostRuntime) -> Result<(), Fail> {
    let alloc = rt.alloc();
    let mut store = Store::new(alloc);
    let mut core = first_pass(alloc)?;
    assert!(rt; plays(alloc, &mut store, &mut core, due_rows())?);
    for count in 0..8 {
        assert!(rt;
            plays(alloc, &mut store, &mut core, failed_rows())?,
            "try {count}"
        );
    }
    assert!(rt; plays(alloc, &mut store, &mut core, release_rows())?);
    let end = core.end();
    assert!(rt; matches!(end, Some(PassEnd::Contended(tag)) if tag == Tag::of(7, 2)));
    assert!(rt; is_silent(alloc, &mut core)?);
    Ok(())
}

/// Whether a pass that played so many of these rows refuses another reply.
fn pass_refuses(alloc: Global, rows: &[Row], count: usize) -> Result<bool, Fail> {
    let mut store = Store::new(alloc);
    let mut core = first_pass(alloc)?;
    Ok(
        count <= rows.len()
            && plays(alloc, &mut store, &mut core, &rows[..count])?
            && refuses(alloc, &mut core)?,
    )
}

#[test]
fn another_answer_puts_a_pass_off(rt: HostRuntime) -> Result<(), Fail> {
    let alloc = rt.alloc();
    for count in 2..16 {
        assert!(rt;
            pass_refuses(alloc, restored_rows(), count)?,
            "a pass after {count} rows"
        );
    }
    assert!(rt; pass_refuses(alloc, lost_rows(), 4)?);
    Ok(())
}
