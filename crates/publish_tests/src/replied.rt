//! Scripts over a link in memory.
use crate::compared::same;
use crate::played::{NEVER, replied};
use crate::scripts::{Row, bad_lines, rows_of_replies};
use std::alloc::{AllocError, Global};
use std::process::Abort;
use std::test::Fail;

/// Asserts how the run of a row ends.
fn expect<R: Abort>(rt: &R, alloc: Global, row: &Row) -> Result<(), AllocError> {
    let (script, incoming, want) = row;
    let got = replied(alloc, script, incoming, NEVER)?;
    same(rt, script, got.as_slice(), want.as_bytes());
    Ok(())
}

#[test]
fn scripts_are_published_and_told(rt: HostRuntime) -> Result<(), Fail> {
    for row in &rows_of_replies() {
        expect(&rt, rt.alloc(), row)?;
    }
    Ok(())
}

#[test]
fn a_bad_line_is_told_and_nothing_sent(rt: HostRuntime) -> Result<(), Fail> {
    for row in &bad_lines() {
        expect(&rt, rt.alloc(), row)?;
    }
    Ok(())
}
