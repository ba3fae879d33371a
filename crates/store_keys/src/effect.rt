//! What a command did to the keys, and common answers.
ghost use Rattle.store_model.specs.Replies.{bulks, number, pair, wrong_type};
ghost use Rattle.std.specs.Prelude.{◌≡◌, ◌++◌, [], ◌∷◌, IfOk, OnOk};

use sqlite_items::Items;
use std::alloc::{AllocError, Global};
use store_tables::Deque;
use wire_values::{Bytes, Value, Values};

/// The keys that a command altered, and its answer.
#[derive(Debug, Drop)]
pub struct Effect {
    pub altered: Deque<Bytes>,
    pub answer: Value,
}

impl Effect {
    /// No key was altered.
    pub fn none(alloc: Global, answer: Value) -> Self
        ensures { result ≡ record { altered = []; answer = answer } }
    {
        Effect {
            altered: Deque::new(alloc),
            answer,
        }
    }

    /// One key was altered.
    pub fn one(alloc: Global, key: &Bytes, answer: Value) -> Result<Self, AllocError>
        ensures { IfOk result (λ e. e ≡ record { altered = key.now ∷ []; answer = answer }) }
    {
        let altered = just(alloc, key)?;
        Ok(Effect { altered, answer })
    }
}

// The one key.
fn just(alloc: Global, key: &Bytes) -> Result<Deque<Bytes>, AllocError>
    ensures { IfOk result (λ keys. keys ≡ key.now ∷ []) }
{
    let key = key.copy(alloc)?;
    let mut keys = Deque::new(alloc);
    keys.push(key)?;
    Ok(keys)
}

/// The key holds another kind of value: no key was altered.
pub fn wrong_type(alloc: Global) -> Result<Effect, AllocError>
    ensures { IfOk result (λ e. e ≡ record { altered = []; answer = wrong_type }) }
{
    let answer = error(alloc, b"WRONGTYPE".as_slice())?;
    Ok(Effect::none(alloc, answer))
}

/// No key was altered, and nothing is counted.
pub fn nothing(alloc: Global) -> Result<Effect, AllocError>
    ensures { IfOk result (λ e. e ≡ record { altered = []; answer = number 0 }) }
{
    let answer = number(0)?;
    Ok(Effect::none(alloc, answer))
}

/// One key was altered, and so much is counted.
pub fn counted(alloc: Global, key: &Bytes, count: usize) -> Result<Effect, AllocError>
    ensures { IfOk result (λ e. e ≡ record { altered = key.now ∷ []; answer = number count }) }
{
    let answer = number(count)?;
    Effect::one(alloc, key, answer)
}

/// A simple string.
pub fn status(alloc: Global, text: &[u8]) -> Result<Value, AllocError>
    ensures { IfOk result (λ v. v ≡ Value.Status text.now) }
{
    Ok(Value::Status(Bytes::from_slice(alloc, text)?))
}

/// An error with this text.
pub fn error(alloc: Global, text: &[u8]) -> Result<Value, AllocError>
    ensures { IfOk result (λ v. v ≡ Value.Error text.now) }
{
    Ok(Value::Error(Bytes::from_slice(alloc, text)?))
}

/// A count; 2^63 things of any kind want more memory than there is.
pub fn number(count: usize) -> Result<Value, AllocError>
    ensures { IfOk result (λ v. v ≡ number count) }
{
    let Ok(count) = i64::try_from(count) else {
        return Err(AllocError);
    };
    Ok(Value::Integer(count))
}

/// The array of a key and an element.
pub fn pair(alloc: Global, key: Bytes, element: Bytes) -> Result<Value, AllocError>
    ensures { IfOk result (λ v. v ≡ pair key element) }
{
    let mut both = Items::new(alloc);
    both.push(Value::Bulk(key))?;
    both.push(Value::Bulk(element))?;
    Ok(Value::Array(both))
}

/// Adds a copy of a text as a bulk.
pub fn push_bulk(alloc: Global, parts: &mut Values, text: &[u8]) -> Result<(), AllocError>
    ensures { OnOk result (parts.new ≡ parts.old ++ Value.Bulk text.now ∷ []) }
{
    let text = Bytes::from_slice(alloc, text)?;
    Ok(parts.push(Value::Bulk(text))?)
}

/// An array of bulks.
pub fn bulks(alloc: Global, mut texts: Deque<Bytes>) -> Result<Value, AllocError>
    ensures { IfOk result (λ v. v ≡ bulks texts) }
{
    let mut all = Items::new(alloc);
    while let Some(text) = texts.pop_front() {
        all.push(Value::Bulk(text))?;
    }
    Ok(Value::Array(all))
}
