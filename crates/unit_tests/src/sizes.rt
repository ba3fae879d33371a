//! Which values and commands fit on the wire, at their limits.
use crate::compared::same;
use std::alloc::{AllocError, Global};
use std::test::Fail;
use wire_spelling::{command_fits, fits};
use wire_values::{Bytes, Value, Words};

/// So many words of so many bytes.
fn words_of(alloc: Global, count: usize, length: usize) -> Result<Words, AllocError> {
    let word = Bytes::from_vec(vec![in alloc; b'a'; length]?);
    let mut words = Words::new();
    for _ in 0..count {
        words.push(alloc, word.copy(alloc)?)?;
    }
    Ok(words)
}

/// Words at each limit and past it: their number, the bytes of each, and whether they fit. With its count an array of
/// 4,096 words of 2,038 bytes takes 8,384,519 bytes, and one of 2,039 bytes 8,388,615.
const SIZES: [(&str, usize, usize, bool); 8] = [
    ("no words", 0, 0, true),
    ("4096 words", 4_096, 1, true),
    ("4097 words", 4_097, 1, false),
    ("the longest word", 1, 1_048_576, true),
    ("a longer word", 1, 1_048_577, false),
    ("seven of the longest", 7, 1_048_576, true),
    ("eight of the longest", 8, 1_048_576, false),
    (
        "all within their limits, and too long together",
        4_096,
        2_039,
        false,
    ),
];

#[test]
fn words_fit_up_to_each_limit(rt: HostRuntime) -> Result<(), Fail> {
    for (row, count, length, want) in SIZES {
        let words = words_of(rt.alloc(), count, length)?;
        same(&rt, row, command_fits(&words), want);
    }
    let words = words_of(rt.alloc(), 4_096, 2_038)?;
    same(
        &rt,
        "as long as they may be together",
        command_fits(&words),
        true,
    );
    Ok(())
}

#[test]
fn bulks_fit_up_to_their_limit(rt: HostRuntime) -> Result<(), Fail> {
    for (length, want) in [(1_048_576, true), (1_048_577, false)] {
        let value = Value::Bulk(Bytes::from_vec(vec![in rt.alloc(); b'a'; length]?));
        same(&rt, "a bulk string", fits(&value), want);
    }
    Ok(())
}
