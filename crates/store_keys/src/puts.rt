//! How a command puts a value under its key, and what it answers then.
ghost use Rattle.store_model.specs.Keys.{out, put};
ghost use Rattle.store_model.specs.Replies.{full, number};
ghost use Rattle.std.specs.Prelude.{◌≡◌, [], ◌∷◌, IfOk, OnOk, if◌then◌else◌, nat_eq};

use crate::effect::{Effect, counted, error, nothing};
use crate::keyspace::Keyspace;
use std::alloc::{AllocError, Global};
use store_model::Stored;
use wire_values::Bytes;

/// Puts a value under its key, which is altered, and answers a count.
pub fn put_counted(
    keys: &mut Keyspace,
    alloc: Global,
    key: &Bytes,
    value: Stored,
    count: usize,
) -> Result<Effect, AllocError>
    ensures { IfOk result (λ e. out keys.new e.altered e.answer ≡ out (put keys.old key.now value) (key.now ∷ []) (number count)) }
{
    put_at(keys, alloc, key, value)?;
    counted(alloc, key, count)
}

/// Puts a value under a copy of its key.
pub fn put_at(
    keys: &mut Keyspace,
    alloc: Global,
    key: &Bytes,
    value: Stored,
) -> Result<(), AllocError>
    ensures { OnOk result (keys.new ≡ put keys.old key.now value) }
{
    let key = key.copy(alloc)?;
    keys.put(key, value)
}

/// Puts a value back under its key, where anything is left of it: nothing was altered or is counted.
pub fn put_same(
    keys: &mut Keyspace,
    alloc: Global,
    key: Bytes,
    value: Stored,
    left: usize,
) -> Result<Effect, AllocError>
    ensures { IfOk result (λ e. out keys.new e.altered e.answer ≡ out (if nat_eq left 0 then keys.old else put keys.old key value) [] (number 0)) }
{
    keys.restore(key, value, left)?;
    nothing(alloc)
}

/// Puts a value back under its key, where anything is left of it: a limit would be passed, and nothing was altered.
pub fn put_full(
    keys: &mut Keyspace,
    alloc: Global,
    key: Bytes,
    value: Stored,
    left: usize,
) -> Result<Effect, AllocError>
    ensures { IfOk result (λ e. out keys.new e.altered e.answer ≡ out (if nat_eq left 0 then keys.old else put keys.old key value) [] full) }
{
    keys.restore(key, value, left)?;
    let answer = error(alloc, b"ERR full".as_slice())?;
    Ok(Effect::none(alloc, answer))
}
