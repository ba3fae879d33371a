//! Commands as clients send them, and the texts of how sessions end.
use sessions::Why;
use sqlite_items::Items;
use std::alloc::{AllocError, Global};
use wire_spelling::encode_onto;
use wire_values::{Bytes, List, Value, Words};

/// An array of bulk strings, of words parted by blanks.
pub fn command(alloc: Global, line: &str) -> Result<Value, AllocError> {
    let mut words = Items::new(alloc);
    for word in line.split(' ') {
        words.push(Value::Bulk(Bytes::from_slice(alloc, word.as_bytes())?))?;
    }
    Ok(Value::Array(words))
}

/// Words parted by blanks.
pub fn words_of(alloc: Global, line: &str) -> Result<Words, AllocError> {
    let mut words = List::new();
    for word in line.split(' ') {
        words.push(alloc, Bytes::from_slice(alloc, word.as_bytes())?)?;
    }
    Ok(words)
}

/// What a client sends that says these commands, and then these bytes.
pub fn incoming(alloc: Global, lines: &[&str], tail: &[u8]) -> Result<Bytes, AllocError> {
    let mut out = Vec::new(alloc);
    for line in lines {
        encode_onto(alloc, &mut out, &command(alloc, line)?)?;
    }
    out.extend_from_slice(tail)?;
    Ok(Bytes::from_vec(out))
}

/// Why a session ended.
pub fn why_text(why: Why) -> &'static str {
    match why {
        Why::Ended => "ended",
        Why::Turns => "turns",
        Why::Wire { .. } => "wire",
        Why::NotWords => "not words",
        Why::Link => "link",
        Why::Full { .. } => "full",
        Why::Closed => "closed",
        Why::Memory => "memory",
    }
}
