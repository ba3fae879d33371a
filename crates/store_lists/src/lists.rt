//! The commands on lists.
ghost use Rattle.store_model.specs.Keys.{CommandOutcome, out, put, value_at};
ghost use Rattle.store_model.specs.Lists.{brpop, brpop_at, items_at, lpush, pushed_at_head, put_list, rpop, rpush, shortened, size_answer};
ghost use Rattle.store_model.specs.Replies.{pair};
ghost use Rattle.std.specs.FinMap.{remove};
ghost use Rattle.std.specs.Prelude.{◌≡◌, [], ◌∷◌, IfNone, IfOk, IfSome, OnOk, Some, if◌then◌else◌, length, nat_eq};

use std::alloc::{AllocError, Global};
use store_keys::Keyspace;
use store_keys::effect::{Effect, error, number, pair, wrong_type};
use store_keys::puts::{put_at, put_counted};
use store_model::{Held, Stored};
use store_tables::Deque;
use wire_values::{Bytes, Value};

fn items_in(value: Stored) -> Option<Deque<Bytes>>
    ensures { result ≡ items_at (Some value) }
{
    match value {
        Stored::Items(items) => Some(items),
        Stored::Text(_) | Stored::Members(_) | Stored::Hash(_) | Stored::Scores(_) => None,
    }
}

// Takes the list out of a key that holds one or nothing, for a new value to be put there.
fn take_items(keys: &mut Keyspace, alloc: Global, key: &Bytes) -> Option<Deque<Bytes>>
    ensures items { result ≡ items_at (value_at keys.old key.now) }
    ensures room { IfSome result (λ _. (v : Stored) → put keys.new key.now v ≡ put keys.old key.now v) }
    ensures gone { IfSome result (λ _. remove keys.new key.now ≡ remove keys.old key.now) }
    ensures back { IfSome result (λ xs. (if nat_eq (length xs) 0 then keys.new else put keys.new key.now (Stored.Items xs)) ≡ keys.old) }
    ensures same { IfNone result (keys.new ≡ keys.old) }
{
    let Some(held) = keys.get(key) else {
        return Some(Deque::new(alloc));
    };
    let Stored::Items(_) = &held.value else {
        return None;
    };
    let blank = Held {
        value: Stored::Items(Deque::new(alloc)),
        expiry: held.expiry,
    };
    let Ok(before) = keys.replace(key, blank) else {
        return None;
    };
    items_in(before.value)
}

fn push_all(mut items: Deque<Bytes>, mut values: Deque<Bytes>) -> Result<Deque<Bytes>, AllocError>
    ensures { IfOk result (λ all. all ≡ pushed_at_head values items) }
{
    while let Some(value) = values.pop_front() {
        items.push_front(value)?;
    }
    Ok(items)
}

// The list is put under the key, and its length is answered.
fn put_list(
    keys: &mut Keyspace,
    alloc: Global,
    key: Bytes,
    items: Deque<Bytes>,
) -> Result<Effect, AllocError>
    ensures { IfOk result (λ e. out keys.new e.altered e.answer ≡ put_list keys.old key items) }
{
    let count = items.len();
    put_counted(keys, alloc, &key, Stored::Items(items), count)
}

/// LPUSH.
pub fn lpush(
    keys: &mut Keyspace,
    alloc: Global,
    key: Bytes,
    values: Deque<Bytes>,
) -> Result<Effect, AllocError>
    ensures { IfOk result (λ e. out keys.new e.altered e.answer ≡ lpush keys.old key values (value_at keys.old key)) }
{
    let Some(items) = take_items(keys, alloc, &key) else {
        return wrong_type(alloc);
    };
    put_list(keys, alloc, key, push_all(items, values)?)
}

/// RPUSH.
pub fn rpush(
    keys: &mut Keyspace,
    alloc: Global,
    key: Bytes,
    values: Deque<Bytes>,
) -> Result<Effect, AllocError>
    ensures { IfOk result (λ e. out keys.new e.altered e.answer ≡ rpush keys.old key values (value_at keys.old key)) }
{
    let Some(mut items) = take_items(keys, alloc, &key) else {
        return wrong_type(alloc);
    };
    items.append(values)?;
    put_list(keys, alloc, key, items)
}

// The list is put back without its last element, or the key removed where none is left.
fn shorten(
    keys: &mut Keyspace,
    alloc: Global,
    key: &Bytes,
    items: Deque<Bytes>,
) -> Result<(), AllocError>
    ensures { OnOk result (keys.new ≡ shortened keys.old key.now items) }
{
    if items.is_empty() {
        keys.delete(key);
        return Ok(());
    }
    put_at(keys, alloc, key, Stored::Items(items))
}

/// RPOP.
pub fn rpop(keys: &mut Keyspace, alloc: Global, key: Bytes) -> Result<Effect, AllocError>
    ensures { IfOk result (λ e. out keys.new e.altered e.answer ≡ rpop keys.old key (value_at keys.old key)) }
{
    let Some(mut items) = take_items(keys, alloc, &key) else {
        return wrong_type(alloc);
    };
    let Some(last) = items.pop_back() else {
        return Ok(Effect::none(alloc, Value::NullBulk));
    };
    pop_bulk(keys, alloc, key, items, last)
}

// RPOP took the last element of a key, and these are left.
fn pop_bulk(
    keys: &mut Keyspace,
    alloc: Global,
    key: Bytes,
    items: Deque<Bytes>,
    last: Bytes,
) -> Result<Effect, AllocError>
    ensures { IfOk result (λ e. out keys.new e.altered e.answer ≡ out (shortened keys.old key items) (key ∷ []) (Value.Bulk last)) }
{
    shorten(keys, alloc, &key, items)?;
    Effect::one(alloc, &key, Value::Bulk(last))
}

// BRPOP at one key; none where it has no element, and the later keys decide.
fn pop_from(keys: &mut Keyspace, alloc: Global, key: Bytes) -> Result<Option<Effect>, AllocError>
    ensures some { IfOk result (λ r. IfSome r (λ e. (later : CommandOutcome) → out keys.new e.altered e.answer ≡ brpop_at keys.old key (value_at keys.old key) later)) }
    ensures none { IfOk result (λ r. IfNone r ((later : CommandOutcome) → brpop_at keys.old key (value_at keys.old key) later ≡ later)) }
    ensures same { IfOk result (λ r. IfNone r (keys.new ≡ keys.old)) }
{
    let Some(mut items) = take_items(keys, alloc, &key) else {
        return Ok(Some(wrong_type(alloc)?));
    };
    let Some(last) = items.pop_back() else {
        return Ok(None);
    };
    Ok(Some(pop_pair(keys, alloc, key, items, last)?))
}

// BRPOP took the last element of a key, and these are left.
fn pop_pair(
    keys: &mut Keyspace,
    alloc: Global,
    key: Bytes,
    items: Deque<Bytes>,
    last: Bytes,
) -> Result<Effect, AllocError>
    ensures { IfOk result (λ e. out keys.new e.altered e.answer ≡ out (shortened keys.old key items) (key ∷ []) (pair key last)) }
{
    shorten(keys, alloc, &key, items)?;
    pair_effect(alloc, key, last)
}

// One key was altered, and the array of it and an element is answered.
fn pair_effect(alloc: Global, key: Bytes, last: Bytes) -> Result<Effect, AllocError>
    ensures { IfOk result (λ e. e ≡ record { altered = key ∷ []; answer = pair key last }) }
{
    let name = key.copy(alloc)?;
    let answer = pair(alloc, name, last)?;
    Effect::one(alloc, &key, answer)
}

/// BRPOP, which doesn't wait: a null array where no key has an element.
pub fn brpop(
    keys: &mut Keyspace,
    alloc: Global,
    mut names: Deque<Bytes>,
) -> Result<Effect, AllocError>
    ensures { IfOk result (λ e. out keys.new e.altered e.answer ≡ brpop keys.old names) }
{
    while let Some(key) = names.pop_front() {
        if let Some(effect) = pop_from(keys, alloc, key)? {
            return Ok(effect);
        }
    }
    Ok(Effect::none(alloc, Value::NullArray))
}

/// LLEN.
pub fn len(keys: &Keyspace, alloc: Global, key: &Bytes) -> Result<Value, AllocError>
    ensures { IfOk result (λ v. v ≡ size_answer (value_at keys.now key.now)) }
{
    let Some(held) = keys.get(key) else {
        return number(0);
    };
    match &held.value {
        Stored::Items(items) => number(items.len()),
        Stored::Text(_) | Stored::Members(_) | Stored::Hash(_) | Stored::Scores(_) => {
            error(alloc, b"WRONGTYPE".as_slice())
        }
    }
}
