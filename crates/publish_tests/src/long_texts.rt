//! Lines with texts at and above their limits.
use crate::compared::same;
use crate::played::{NEVER, replied};
use std::alloc::{AllocError, Global};
use std::test::Fail;

/// So many letters between two texts.
fn stretched(alloc: Global, front: &str, count: u64, behind: &str) -> Result<String, AllocError> {
    let mut text = String::from_str(alloc, front)?;
    for _ in 0..count {
        text.push_str("e")?;
    }
    text.push_str(behind)?;
    Ok(text)
}

/// A front, so many letters, what follows them, and how the run ends; an exchange without bindings is answered.
fn rows() -> [(&'static str, u64, &'static str, &'static str); 5] {
    [
        (
            "celery-publish 1\npublish ",
            255,
            " rk 0 t []\n",
            "0 at 0: no queue 7:1\n1 closed",
        ),
        (
            "celery-publish 1\npublish ",
            256,
            " rk 0 t []\n",
            "3 at 2: bad line 2: task\n0 closed",
        ),
        (
            "celery-publish 1\npublish ex ",
            256,
            " 0 t []\n",
            "3 at 2: bad line 2: task\n0 closed",
        ),
        (
            "celery-publish 1\ndeclare ",
            256,
            " rk - celery\n",
            "3 at 2: bad line 2: name\n0 closed",
        ),
        (
            "celery-publish 1\npublish - celery 0 ",
            65_536,
            " []\n",
            "3 at 2: bad line 2: long\n0 closed",
        ),
    ]
}

#[test]
fn a_text_above_its_limit_makes_its_line_bad(rt: HostRuntime) -> Result<(), Fail> {
    let alloc = rt.alloc();
    for (front, count, behind, want) in &rows() {
        let script = stretched(alloc, front, *count, behind)?;
        let got = replied(alloc, script.as_str(), b"*0\r\n", NEVER)?;
        same(&rt, behind, got.as_slice(), want.as_bytes());
    }
    Ok(())
}
