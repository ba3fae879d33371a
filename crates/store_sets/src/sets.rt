//! The commands on sets.
ghost use Rattle.store_model.specs.Keys.{Keys, after_taking, is_long, out, put, taken_out, value_at};
ghost use Rattle.store_model.specs.Sets.{members_answer, members_at, put_in, sadd, sadd_to, srem};
ghost use Rattle.std.specs.FinMap.{get, insert, len, remove};
ghost use Rattle.std.specs.List.{list_any};
ghost use Rattle.std.specs.Prelude.{◌≡◌, [], ◌∷◌, IfNone, IfOk, IfSome, OnOk, Some, if◌then◌else◌, is_some, length, nat_eq};

use std::alloc::{AllocError, Global};
use store_keys::Keyspace;
use store_keys::effect::{Effect, bulks, error, wrong_type};
use store_keys::members::{finish, take_out};
use store_keys::puts::{put_counted, put_full, put_same};
use store_model::{Held, MEMBER_LIMIT, SET_LIMIT, Stored};
use store_tables::{Deque, Table};
use wire_values::{Bytes, Value};

fn members_in(value: Stored) -> Option<Table<()>>
    ensures { result ≡ members_at (Some value) }
{
    match value {
        Stored::Members(members) => Some(members),
        Stored::Text(_) | Stored::Items(_) | Stored::Hash(_) | Stored::Scores(_) => None,
    }
}

// Takes the set out of a key that holds one or nothing, for a new value to be put there.
fn take_members(keys: &mut Keyspace, alloc: Global, key: &Bytes) -> Option<Table<()>>
    ensures members { result ≡ members_at (value_at keys.old key.now) }
    ensures room { IfSome result (λ _. (v : Stored) → put keys.new key.now v ≡ put keys.old key.now v) }
    ensures gone { IfSome result (λ _. remove keys.new key.now ≡ remove keys.old key.now) }
    ensures back { IfSome result (λ h. (if nat_eq (len h) 0 then keys.new else put keys.new key.now (Stored.Members h)) ≡ keys.old) }
    ensures same { IfNone result (keys.new ≡ keys.old) }
{
    let Some(held) = keys.get(key) else {
        return Some(Table::new(alloc));
    };
    let Stored::Members(_) = &held.value else {
        return None;
    };
    let blank = Held {
        value: Stored::Members(Table::new(alloc)),
        expiry: held.expiry,
    };
    let Ok(before) = keys.replace(key, blank) else {
        return None;
    };
    members_in(before.value)
}

/// SREM.
pub fn srem(
    keys: &mut Keyspace,
    alloc: Global,
    key: Bytes,
    names: Deque<Bytes>,
) -> Result<Effect, AllocError>
    ensures { IfOk result (λ e. out keys.new e.altered e.answer ≡ srem keys.old key names (value_at keys.old key)) }
{
    let Some(members) = take_members(keys, alloc, &key) else {
        return wrong_type(alloc);
    };
    let (members, taken) = take_out(members, names);
    let left = members.len();
    finish(keys, alloc, key, Stored::Members(members), left, taken)
}

// Puts these members in, and gives the names of those that are new, so that they can be taken out again.
fn put_in(
    alloc: Global,
    mut members: Table<()>,
    mut names: Deque<Bytes>,
) -> Result<(Table<()>, Deque<Bytes>), AllocError>
    ensures members { IfOk result (λ r. r.0 ≡ (put_in members names).0) }
    ensures new { IfOk result (λ r. length r.1 ≡ (put_in members names).1) }
    ensures undone { IfOk result (λ r. (taken_out r.0 r.1).0 ≡ members) }
{
    let mut new = Deque::new(alloc);
    while let Some(name) = names.pop_front() {
        put_one(alloc, &mut members, &mut new, name)?;
    }
    Ok((members, new))
}

// Puts a member in, and its name in front of those that are new, where it is new.
fn put_one(
    alloc: Global,
    members: &mut Table<()>,
    new: &mut Deque<Bytes>,
    name: Bytes,
) -> Result<(), AllocError>
    ensures members { OnOk result (members.new ≡ insert members.old name tt) }
    ensures new { OnOk result (new.new ≡ (if is_some (get members.old name) then new.old else name ∷ new.old)) }
{
    let copy = name.copy(alloc)?;
    if members.insert(name, ())?.is_none() {
        new.push_front(copy)?;
    }
    Ok(())
}

// Adds these members to a set that was taken from under its key, unless a limit is passed.
fn add(
    keys: &mut Keyspace,
    alloc: Global,
    key: Bytes,
    members: Table<()>,
    names: Deque<Bytes>,
) -> Result<Effect, AllocError>
    ensures { IfOk result (λ e. (m : Keys) → ((v : Stored) → put keys.old key v ≡ put m key v) → (if nat_eq (len members) 0 then keys.old else put keys.old key (Stored.Members members)) ≡ m
        → out keys.new e.altered e.answer ≡ sadd_to m key names members) }
{
    let long = names.has_longer(MEMBER_LIMIT);
    let (members, new) = put_in(alloc, members, names)?;
    if long || members.len() > SET_LIMIT {
        let (members, _) = take_out(members, new);
        let left = members.len();
        return put_full(keys, alloc, key, Stored::Members(members), left);
    }
    let added = new.len();
    if added == 0 {
        let left = members.len();
        return put_same(keys, alloc, key, Stored::Members(members), left);
    }
    put_counted(keys, alloc, &key, Stored::Members(members), added)
}

/// SADD.
pub fn sadd(
    keys: &mut Keyspace,
    alloc: Global,
    key: Bytes,
    names: Deque<Bytes>,
) -> Result<Effect, AllocError>
    ensures { IfOk result (λ e. out keys.new e.altered e.answer ≡ sadd keys.old key names (value_at keys.old key)) }
{
    let Some(members) = take_members(keys, alloc, &key) else {
        return wrong_type(alloc);
    };
    add(keys, alloc, key, members, names)
}

/// SMEMBERS.
pub fn members(keys: &Keyspace, alloc: Global, key: &Bytes) -> Result<Value, AllocError>
    ensures { IfOk result (λ v. v ≡ members_answer (value_at keys.now key.now)) }
{
    let Some(held) = keys.get(key) else {
        return bulks(alloc, Deque::new(alloc));
    };
    match &held.value {
        Stored::Members(members) => bulks(alloc, members.names(alloc)?),
        Stored::Text(_) | Stored::Items(_) | Stored::Hash(_) | Stored::Scores(_) => {
            error(alloc, b"WRONGTYPE".as_slice())
        }
    }
}
