//! The commands on hashes.
ghost use Rattle.store_model.specs.Hashes.{field_answer, hash_at, hash_size_answer, hdel, hset, hset_to};
ghost use Rattle.store_model.specs.Keys.{Keys, out, put, value_at};
ghost use Rattle.store_model.specs.Replies.{bulk};
ghost use Rattle.std.specs.FinMap.{get, insert, len, remove};
ghost use Rattle.std.specs.Prelude.{◌≡◌, [], IfNone, IfOk, IfSome, OnOk, Some, if◌then◌else◌, is_some, nat_eq};

use std::alloc::{AllocError, Global};
use store_keys::Keyspace;
use store_keys::effect::{Effect, error, number, wrong_type};
use store_keys::members::{finish, is_long, take_out};
use store_keys::puts::{put_counted, put_full};
use store_model::{Held, Stored};
use store_tables::{Deque, Table};
use wire_values::{Bytes, Value};

fn hash_in(value: Stored) -> Option<Table<Bytes>>
    ensures { result ≡ hash_at (Some value) }
{
    match value {
        Stored::Hash(hash) => Some(hash),
        Stored::Text(_) | Stored::Items(_) | Stored::Members(_) | Stored::Scores(_) => None,
    }
}

// Takes the hash out of a key that holds one or nothing, for a new value to be put there.
fn take_hash(keys: &mut Keyspace, alloc: Global, key: &Bytes) -> Option<Table<Bytes>>
    ensures hash { result ≡ hash_at (value_at keys.old key.now) }
    ensures room { IfSome result (λ _. (v : Stored) → put keys.new key.now v ≡ put keys.old key.now v) }
    ensures gone { IfSome result (λ _. remove keys.new key.now ≡ remove keys.old key.now) }
    ensures back { IfSome result (λ h. (if nat_eq (len h) 0 then keys.new else put keys.new key.now (Stored.Hash h)) ≡ keys.old) }
    ensures same { IfNone result (keys.new ≡ keys.old) }
{
    let Some(held) = keys.get(key) else {
        return Some(Table::new(alloc));
    };
    let Stored::Hash(_) = &held.value else {
        return None;
    };
    let blank = Held {
        value: Stored::Hash(Table::new(alloc)),
        expiry: held.expiry,
    };
    let Ok(before) = keys.replace(key, blank) else {
        return None;
    };
    hash_in(before.value)
}

// Sets a field of a hash that was taken from under its key, unless the field is too long.
fn set_field(
    keys: &mut Keyspace,
    alloc: Global,
    key: Bytes,
    mut hash: Table<Bytes>,
    field: Bytes,
    text: Bytes,
) -> Result<Effect, AllocError>
    ensures { IfOk result (λ e. (m : Keys) → ((v : Stored) → put keys.old key v ≡ put m key v) → (if nat_eq (len hash) 0 then keys.old else put keys.old key (Stored.Hash hash)) ≡ m
        → out keys.new e.altered e.answer ≡ hset_to m key field text hash) }
{
    if is_long(&field) {
        let left = hash.len();
        return put_full(keys, alloc, key, Stored::Hash(hash), left);
    }
    let count = set_in(&mut hash, field, text)?;
    put_counted(keys, alloc, &key, Stored::Hash(hash), count)
}

// Sets a field of a hash, and counts it where it is new.
fn set_in(hash: &mut Table<Bytes>, field: Bytes, text: Bytes) -> Result<usize, AllocError>
    ensures hash { OnOk result (hash.new ≡ insert hash.old field text) }
    ensures count { IfOk result (λ n. n ≡ (if is_some (get hash.old field) then 0 else 1)) }
{
    let before = hash.insert(field, text)?;
    Ok(if before.is_some() { 0 } else { 1 })
}

/// HSET.
pub fn hset(
    keys: &mut Keyspace,
    alloc: Global,
    key: Bytes,
    field: Bytes,
    text: Bytes,
) -> Result<Effect, AllocError>
    ensures { IfOk result (λ e. out keys.new e.altered e.answer ≡ hset keys.old key field text (value_at keys.old key)) }
{
    let Some(hash) = take_hash(keys, alloc, &key) else {
        return wrong_type(alloc);
    };
    set_field(keys, alloc, key, hash, field, text)
}

// The value of a field.
fn field_of(alloc: Global, hash: &Table<Bytes>, field: &Bytes) -> Result<Value, AllocError>
    ensures { IfOk result (λ v. v ≡ bulk (get hash.now field.now)) }
{
    let Some(text) = hash.get(field) else {
        return Ok(Value::NullBulk);
    };
    Ok(Value::Bulk(text.copy(alloc)?))
}

/// HGET.
pub fn hget(keys: &Keyspace, alloc: Global, key: &Bytes, field: &Bytes) -> Result<Value, AllocError>
    ensures { IfOk result (λ v. v ≡ field_answer field.now (value_at keys.now key.now)) }
{
    let Some(held) = keys.get(key) else {
        return Ok(Value::NullBulk);
    };
    match &held.value {
        Stored::Hash(hash) => field_of(alloc, hash, field),
        Stored::Text(_) | Stored::Items(_) | Stored::Members(_) | Stored::Scores(_) => {
            error(alloc, b"WRONGTYPE".as_slice())
        }
    }
}

/// HDEL.
pub fn hdel(
    keys: &mut Keyspace,
    alloc: Global,
    key: Bytes,
    names: Deque<Bytes>,
) -> Result<Effect, AllocError>
    ensures { IfOk result (λ e. out keys.new e.altered e.answer ≡ hdel keys.old key names (value_at keys.old key)) }
{
    let Some(hash) = take_hash(keys, alloc, &key) else {
        return wrong_type(alloc);
    };
    let (hash, taken) = take_out(hash, names);
    let left = hash.len();
    finish(keys, alloc, key, Stored::Hash(hash), left, taken)
}

/// HLEN.
pub fn len(keys: &Keyspace, alloc: Global, key: &Bytes) -> Result<Value, AllocError>
    ensures { IfOk result (λ v. v ≡ hash_size_answer (value_at keys.now key.now)) }
{
    let Some(held) = keys.get(key) else {
        return number(0);
    };
    match &held.value {
        Stored::Hash(hash) => number(hash.len()),
        Stored::Text(_) | Stored::Items(_) | Stored::Members(_) | Stored::Scores(_) => {
            error(alloc, b"WRONGTYPE".as_slice())
        }
    }
}
