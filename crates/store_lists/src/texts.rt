//! The commands on texts and on keys of any kind.
ghost use Rattle.store_model.specs.Commands.{both};
ghost use Rattle.store_model.specs.Keys.{dropped, expire, out, value_at};
ghost use Rattle.store_model.specs.Replies.{done, number};
ghost use Rattle.store_model.specs.Texts.{set_text, text_answer};
ghost use Rattle.std.specs.FinMap.{get};
ghost use Rattle.std.specs.Prelude.{◌≡◌, ◌+◌, ◌<◌, ◌^◌, [], ◌∷◌, IfOk, OnOk, false, is_some, length};

use std::alloc::{AllocError, Global};
use store_keys::Keyspace;
use store_keys::effect::{Effect, counted, error, nothing, number, status};
use store_model::{Held, Stored};
use store_tables::Deque;
use wire_values::{Bytes, Value};

/// GET.
pub fn get(keys: &Keyspace, alloc: Global, key: &Bytes) -> Result<Value, AllocError>
    ensures { IfOk result (λ v. v ≡ text_answer (value_at keys.now key.now)) }
{
    let Some(held) = keys.get(key) else {
        return Ok(Value::NullBulk);
    };
    match &held.value {
        Stored::Text(text) => Ok(Value::Bulk(text.copy(alloc)?)),
        Stored::Items(_) | Stored::Members(_) | Stored::Hash(_) | Stored::Scores(_) => {
            error(alloc, b"WRONGTYPE".as_slice())
        }
    }
}

/// SET, with the moment from which the key is gone, and whether it must be absent.
pub fn set(
    keys: &mut Keyspace,
    alloc: Global,
    key: Bytes,
    text: Bytes,
    expiry: Option<u64>,
    absent: bool,
) -> Result<Effect, AllocError>
    ensures { IfOk result (λ e. out keys.new e.altered e.answer ≡ set_text keys.old key text expiry (both absent (is_some (get keys.old key)))) }
{
    if absent {
        if keys.has(&key) {
            return Ok(Effect::none(alloc, Value::NullBulk));
        }
    }
    put_text(keys, alloc, key, text, expiry)
}

// A text is put under a key, with the moment from which it is gone.
fn put_text(
    keys: &mut Keyspace,
    alloc: Global,
    key: Bytes,
    text: Bytes,
    expiry: Option<u64>,
) -> Result<Effect, AllocError>
    ensures { IfOk result (λ e. out keys.new e.altered e.answer ≡ set_text keys.old key text expiry false) }
{
    let effect = done(alloc, &key)?;
    let value = Stored::Text(text);
    keys.insert(key, Held { value, expiry })?;
    Ok(effect)
}

// One key was altered, and OK is answered.
fn done(alloc: Global, key: &Bytes) -> Result<Effect, AllocError>
    ensures { IfOk result (λ e. e ≡ record { altered = key.now ∷ []; answer = done }) }
{
    let answer = status(alloc, b"OK".as_slice())?;
    Effect::one(alloc, key, answer)
}

// Removes the keys, and tells which of them were there.
fn drop_all(
    keys: &mut Keyspace,
    alloc: Global,
    mut names: Deque<Bytes>,
) -> Result<Deque<Bytes>, AllocError>
    ensures { IfOk result (λ gone. (keys.new, gone) ≡ dropped keys.old names) }
{
    let mut gone = Deque::new(alloc);
    while let Some(key) = names.pop_front() {
        if keys.delete(&key) {
            gone.push(key)?;
        }
    }
    Ok(gone)
}

/// DEL.
pub fn del(keys: &mut Keyspace, alloc: Global, names: Deque<Bytes>) -> Result<Effect, AllocError>
    ensures { IfOk result (λ e. out keys.new e.altered e.answer ≡ (let r = dropped keys.old names in out r.0 r.1 (number (length r.1)))) }
{
    let altered = drop_all(keys, alloc, names)?;
    let answer = number(altered.len())?;
    Ok(Effect { altered, answer })
}

/// EXPIRE, with the moment from which the key is gone.
pub fn expire(
    keys: &mut Keyspace,
    alloc: Global,
    key: Bytes,
    moment: u64,
) -> Result<Effect, AllocError>
    ensures { IfOk result (λ e. out keys.new e.altered e.answer ≡ expire keys.old key moment (get keys.old key)) }
{
    if !keys.has(&key) {
        return nothing(alloc);
    }
    let effect = counted(alloc, &key, 1)?;
    end_at(keys, key, moment)?;
    Ok(effect)
}

// What a present key holds is gone from a moment on.
fn end_at(keys: &mut Keyspace, key: Bytes, moment: u64) -> Result<(), AllocError>
    ensures { OnOk result (keys.new ≡ (expire keys.old key moment (get keys.old key)).keys) }
{
    let Some(held) = keys.remove(&key) else {
        return Ok(());
    };
    let value = held.value;
    let expiry = Some(moment);
    keys.insert(key, Held { value, expiry })
}
