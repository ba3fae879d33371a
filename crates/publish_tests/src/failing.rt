//! Links that fail at a call, or give too many pushed values.
use crate::compared::same;
use crate::played::{NEVER, replied};
use crate::scripts::ONE;
use std::alloc::{AllocError, Global};
use std::test::Fail;

const WHOLE: &[u8] = b"0 at 0: published 7:1\n1 closed";

const CUT: &[u8] = b"6 at 0: link fault\n1 closed";

#[test]
fn a_link_that_fails_at_a_needed_call_ends_publishing(rt: HostRuntime) -> Result<(), Fail> {
    let alloc = rt.alloc();
    let mut needed = 0;
    for call in 0..24 {
        let got = replied(alloc, ONE, b":1\r\n", call)?;
        if call == needed && got.as_slice() == CUT {
            needed += 1;
        } else {
            same(&rt, "a call that isn't needed", got.as_slice(), WHOLE);
        }
    }
    // the command goes out in pieces of 100 bytes, and then the reply comes in
    assert!(&rt; 4 <= needed && needed < 20, "needed: {needed}");
    Ok(())
}

/// So many values that are pushed, and then a reply.
fn flood(alloc: Global, count: u64) -> Result<Vec<u8>, AllocError> {
    let mut out = Vec::new(alloc);
    for _ in 0..count {
        out.extend_from_slice(b"*3\r\n$7\r\nmessage\r\n$1\r\na\r\n$1\r\nb\r\n")?;
    }
    out.extend_from_slice(b":1\r\n")?;
    Ok(out)
}

#[test]
fn one_pushed_value_too_many_ends_publishing(rt: HostRuntime) -> Result<(), Fail> {
    let alloc = rt.alloc();
    let within = replied(alloc, ONE, flood(alloc, 1_024)?.as_slice(), NEVER)?;
    same(&rt, "1,024", within.as_slice(), WHOLE);
    let over = replied(alloc, ONE, flood(alloc, 1_025)?.as_slice(), NEVER)?;
    same(&rt, "1,025", over.as_slice(), CUT);
    Ok(())
}
