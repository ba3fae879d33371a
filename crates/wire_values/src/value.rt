//! RESP2 values: what a store answers.
ghost use Rattle.std.specs.Prelude.{◌≡◌, IfOk};

use crate::{Bytes, List};
use sqlite_items::Items;
use std::alloc::{AllocError, Global};

/// The words of a command, its name first.
pub type Words = List<Bytes>;

/// The values of an array.
pub type Values = Items<Value>;

/// A RESP2 value. Its arrays hold values themselves.
#[derive(Debug, Drop)]
pub enum Value {
    /// A simple string, as `+OK`.
    Status(Bytes),
    /// An error, as `-ERR syntax`, without the sign.
    Error(Bytes),
    /// An integer of 64 bits.
    Integer(i64),
    /// A bulk string.
    Bulk(Bytes),
    /// The null bulk string, `$-1`.
    NullBulk,
    /// An array.
    Array(Values),
    /// The null array, `*-1`.
    NullArray,
}

impl Value {
    /// The same value once more.
    pub fn copy(&self, alloc: Global) -> Result<Value, AllocError>
        ensures { IfOk result (λ made. made ≡ self.now) }
    {
        match self {
            Value::Status(text) => Ok(Value::Status(text.copy(alloc)?)),
            Value::Error(text) => Ok(Value::Error(text.copy(alloc)?)),
            Value::Integer(number) => Ok(Value::Integer(*number)),
            Value::Bulk(bytes) => Ok(Value::Bulk(bytes.copy(alloc)?)),
            Value::NullBulk => Ok(Value::NullBulk),
            Value::Array(items) => {
                let mut copies = Items::new(alloc);
                for item in items.as_slice() {
                    copies.push(item.copy(alloc)?)?;
                }
                Ok(Value::Array(copies))
            }
            Value::NullArray => Ok(Value::NullArray),
        }
    }
}

/// The same values once more.
pub fn copy_values(alloc: Global, values: &Values) -> Result<Values, AllocError>
    ensures { IfOk result (λ made. made ≡ values.now) }
{
    let mut copies = Items::new(alloc);
    for value in values.as_slice() {
        copies.push(value.copy(alloc)?)?;
    }
    Ok(copies)
}

/// The same words once more.
pub fn copy_words(alloc: Global, words: &Words) -> Result<Words, AllocError>
    ensures { IfOk result (λ made. made ≡ words.now) }
{
    let mut copies = List::new();
    for word in words.as_slice() {
        copies.push(alloc, word.copy(alloc)?)?;
    }
    Ok(copies)
}
