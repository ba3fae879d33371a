//! What the commands that take members or fields out share.
ghost use Rattle.store_model.specs.Keys.{is_long, kept, out, put, taken_out};
ghost use Rattle.store_model.specs.Replies.{number};
ghost use Rattle.std.specs.Prelude.{◌≡◌, ◌<◌, [], ◌∷◌, IfOk, OnOk, if◌then◌else◌, nat_eq};

use crate::effect::{Effect, counted};
use crate::keyspace::Keyspace;
use crate::puts::{put_at, put_same};
use std::alloc::{AllocError, Global};
use store_model::{MEMBER_LIMIT, Stored};
use store_tables::{Deque, Table};
use wire_values::Bytes;

/// Whether a member or field has more than `MEMBER_LIMIT` bytes.
pub fn is_long(name: &Bytes) -> bool
    ensures { result ≡ is_long name.now }
{
    name.len() > MEMBER_LIMIT
}

/// Takes out these members or fields, and counts those that were there.
pub fn take_out<V: Drop>(mut table: Table<V>, mut names: Deque<Bytes>) -> (Table<V>, usize)
    ensures { (result.0, result.1) ≡ taken_out table names }
{
    let _fits = names.len();
    let mut count: usize = 0;
    while let Some(name) = names.pop_front() {
        if table.remove(&name).is_some() {
            count += 1;
        }
    }
    (table, count)
}

/// Puts back what is left of a set, hash or sorted set after so many members were taken out of it.
pub fn finish(
    keys: &mut Keyspace,
    alloc: Global,
    key: Bytes,
    value: Stored,
    left: usize,
    taken: usize,
) -> Result<Effect, AllocError>
    ensures none { taken ≡ 0 → IfOk result (λ e. out keys.new e.altered e.answer ≡ out (if nat_eq left 0 then keys.old else put keys.old key value) [] (number 0)) }
    ensures some { 0 < taken → IfOk result (λ e. out keys.new e.altered e.answer ≡ out (kept keys.old key value left) (key ∷ []) (number taken)) }
{
    if taken == 0 {
        return put_same(keys, alloc, key, value, left);
    }
    put_left(keys, alloc, &key, value, left)?;
    counted(alloc, &key, taken)
}

// Puts a value under its key where anything is left of it, and takes the key out where nothing is.
fn put_left(
    keys: &mut Keyspace,
    alloc: Global,
    key: &Bytes,
    value: Stored,
    left: usize,
) -> Result<(), AllocError>
    ensures { OnOk result (keys.new ≡ kept keys.old key.now value left) }
{
    if left == 0 {
        keys.delete(key);
        return Ok(());
    }
    put_at(keys, alloc, key, value)
}
