//! That each call of a small type that takes memory answers where there is memory.
use crate::compared::same;
use std::alloc::{AllocError, Global};
use std::cmp::Ordering;
use std::process::Abort;
use std::test::Fail;
use wire_values::{Bytes, List, Value, Values, Words, copy_values, copy_words};

/// Bytes that are pushed and extended.
fn grown(alloc: Global) -> Result<Bytes, AllocError> {
    let mut bytes = Bytes::new();
    bytes.push(alloc, b'a')?;
    bytes.push(alloc, 0)?;
    bytes.extend(alloc, b"\xff")?;
    Ok(bytes)
}

/// Asserts what is known of those bytes.
fn expect_grown<R: Abort>(rt: &R, alloc: Global, bytes: &Bytes) -> Result<(), AllocError> {
    same(rt, "bytes", bytes.as_slice(), b"a\x00\xff".as_slice());
    let copy = bytes.copy(alloc)?;
    assert!(rt; copy == *bytes);
    let short = Bytes::from_slice(alloc, b"a")?;
    assert!(rt; short.cmp(bytes) == Ordering::Less);
    same(rt, "length", copy.into_vec(alloc).len(), 3);
    Ok(())
}

#[test]
fn bytes_grow_and_copy(rt: HostRuntime) -> Result<(), Fail> {
    assert!(rt; Bytes::new().is_empty());
    let bytes = grown(rt.alloc())?;
    Ok(expect_grown(&rt, rt.alloc(), &bytes)?)
}

/// A list of one number.
fn seven(alloc: Global) -> Result<List<u64>, AllocError> {
    let mut numbers = List::new();
    numbers.push(alloc, 7u64)?;
    Ok(numbers)
}

/// A list of a word and an empty one.
fn two_words(alloc: Global) -> Result<Words, AllocError> {
    let mut words: Words = List::new();
    words.push(alloc, Bytes::from_slice(alloc, b"LPUSH")?)?;
    words.push(alloc, Bytes::new())?;
    Ok(words)
}

#[test]
fn lists_and_words_grow(rt: HostRuntime) -> Result<(), Fail> {
    let numbers = seven(rt.alloc())?;
    same(&rt, "numbers", numbers.as_slice(), [7].as_slice());
    let words = two_words(rt.alloc())?;
    let copy = copy_words(rt.alloc(), &words)?;
    same(&rt, "words", copy.as_slice().len(), 2);
    Ok(())
}

/// Values that hold an array and a bulk.
fn nested(alloc: Global) -> Result<Values, AllocError> {
    let mut inner = Values::new(alloc);
    inner.push(Value::Integer(-1))?;
    inner.push(Value::NullBulk)?;
    let mut outer = Values::new(alloc);
    outer.push(Value::Array(inner))?;
    outer.push(Value::Bulk(Bytes::from_slice(alloc, b"tasks.add")?))?;
    Ok(outer)
}

/// An array of copies, copied once more.
fn copied_twice(alloc: Global, values: &Values) -> Result<Value, AllocError> {
    Value::Array(copy_values(alloc, values)?).copy(alloc)
}

/// How many items an array has; none where the value is no array.
fn count_of(value: &Value) -> Option<usize> {
    match value {
        Value::Array(items) => Some(items.as_slice().len()),
        _ => None,
    }
}

#[test]
fn values_hold_values_and_copy(rt: HostRuntime) -> Result<(), Fail> {
    let outer = nested(rt.alloc())?;
    let value = copied_twice(rt.alloc(), &outer)?;
    same(&rt, "an array stays an array", count_of(&value), Some(2));
    Ok(())
}
