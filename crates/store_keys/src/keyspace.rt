//! The keys with what they hold.
ghost use Rattle.store_keys.specs.Expiries.{AllEndFrom, IsCalm, end_by};
ghost use Rattle.store_model.specs.Keys.{is_expired, is_over, live_at, put};
ghost use Rattle.store_model.specs.Store.{is_live};
ghost use Rattle.wire_values.specs.Order.{bytes_cmp};
ghost use Rattle.std.specs.BTreeMap.{IsOrdered};
ghost use Rattle.std.specs.FinMap as map;
ghost use Rattle.std.specs.List.{list_any};
ghost use Rattle.std.specs.Option.{option_copied};
ghost use Rattle.std.specs.Prelude.{◌≡◌, ◌≤◌, IfErr, IfOk, IsTrue, None, OnErr, OnOk, Some, filter, if◌then◌else◌, is_some, nat_eq, not};

use std::alloc::{AllocError, Global};
use std::collections::BTreeMap;
use std::collections::btree_map::Iter;
use std::marker::Model;
use std::mem;
use store_model::{Held, Stored};
use store_tables::Deque;
use wire_values::Bytes;

/// The keys in byte order with what they hold, seen by contracts as a finite map.
///
/// No key expires before the soonest moment, so that nothing is looked through until then.
#[derive(Debug, Drop)]
pub struct Keyspace {
    kept: BTreeMap<Bytes, Held>,
    soonest: u64,
}

impl Model for Keyspace {
    ghost use Rattle.store_keys.specs.Expiries.{EndsFrom};
    ghost use Rattle.store_model.specs.Keys.{Keys};
    ghost use Rattle.store_model.specs.Store.{keys_code};
    ghost use Rattle.std.specs.FinMap as map;

    ghost Value = { Keys };

    ghost coded = { keys_code };

    ghost view = { λ k. map.from_entries k.kept.entries };

    ghost invariant = { λ k. EndsFrom k.soonest (map.from_entries k.kept.entries) };
}

impl Keyspace {
    /// No keys; takes no memory.
    pub fn new(alloc: Global) -> Self
        ensures { result ≡ map.empty }
    {
        Keyspace {
            kept: BTreeMap::new(alloc),
            soonest: u64::MAX,
        }
    }

    /// What a key holds.
    pub fn get(&self, key: &Bytes) -> Option<&Held>
        ensures { option_copied result ≡ map.get self.now key.now }
    {
        self.kept.get(key)
    }

    /// The keys in byte order, each with what it holds.
    pub fn iter(&self) -> Iter<'_, Bytes, Held>
        ensures { result ≡ map.entries self.now }
    {
        self.kept.iter()
    }

    /// Whether the key is present.
    pub fn has(&self, key: &Bytes) -> bool
        ensures { result ≡ is_some (map.get self.now key.now) }
    {
        self.get(key).is_some()
    }

    /// Puts what a present key holds in the place of what it held, which takes no memory.
    pub fn replace(&mut self, key: &Bytes, held: Held) -> Result<Held, Held>
        ensures there { IfOk result (λ before. map.get self.old key.now ≡ Some before) }
        ensures ok { OnOk result (self.new ≡ map.insert self.old key.now held) }
        ensures absent { OnErr result (map.get self.old key.now ≡ None) }
        ensures back { IfErr result (λ same. same ≡ held) }
        ensures err { OnErr result (self.new ≡ self.old) }
    {
        self.soonest = sooner(self.soonest, held.expiry);
        let Some(place) = self.kept.get_mut(key) else {
            return Err(held);
        };
        Ok(mem::replace(place, held))
    }

    /// Puts what a key holds.
    pub fn insert(&mut self, key: Bytes, held: Held) -> Result<(), AllocError>
        ensures { OnOk result (self.new ≡ map.insert self.old key held) }
    {
        self.soonest = sooner(self.soonest, held.expiry);
        self.kept.insert(key, held)?;
        Ok(())
    }

    /// Takes a key out with what it holds.
    pub fn remove(&mut self, key: &Bytes) -> Option<Held>
        ensures held { result ≡ map.get self.old key.now }
        ensures removed { self.new ≡ map.remove self.old key.now }
    {
        self.kept.remove(key)
    }

    /// Drops a key with what it holds, and tells whether it was there.
    pub fn delete(&mut self, key: &Bytes) -> bool
        ensures there { result ≡ is_some (map.get self.old key.now) }
        ensures deleted { self.new ≡ map.remove self.old key.now }
    {
        self.remove(key).is_some()
    }

    /// Puts a value under a key, and keeps the key's expiry.
    pub fn put(&mut self, key: Bytes, value: Stored) -> Result<(), AllocError>
        ensures { OnOk result (self.new ≡ put self.old key value) }
    {
        let expiry = match self.get(&key) {
            Some(held) => held.expiry,
            None => None,
        };
        self.insert(key, Held { value, expiry })
    }

    /// Puts a value back under its key, where anything is left of it.
    pub fn restore(&mut self, key: Bytes, value: Stored, left: usize) -> Result<(), AllocError>
        ensures { OnOk result (self.new ≡ (if nat_eq left 0 then self.old else put self.old key value)) }
    {
        if left == 0 {
            return Ok(());
        }
        self.put(key, value)
    }
}

impl Keyspace {
    /// Whether the key is present and its expiry is reached.
    pub fn is_due(&self, key: &Bytes, at: u64) -> bool
        ensures { result ≡ is_expired at (map.get self.now key.now) }
    {
        let Some(held) = self.get(key) else {
            return false;
        };
        is_over(at, held.expiry)
    }

    /// Whether one of the keys is present and its expiry is reached.
    pub fn has_due(&self, keys: &Deque<Bytes>, at: u64) -> bool
        ensures { result ≡ list_any (λ k. is_expired at (map.get self.now k)) keys.now }
    {
        keys.iter().any(|key| self.is_due(key, at))
    }

    /// Whether the key is present and its expiry isn't reached.
    pub fn is_live(&self, key: &Bytes, at: u64) -> bool
        ensures { result ≡ is_live at (map.get self.now key.now) }
    {
        self.has(key) && !self.is_due(key, at)
    }

    /// Whether one of the keys is present and its expiry isn't reached.
    pub fn has_live(&self, keys: &[Bytes], at: u64) -> bool
        ensures { result ≡ list_any (λ k. is_live at (map.get self.now k)) keys.now }
    {
        keys.iter().any(|key| self.is_live(key, at))
    }

    /// Whether it is known without a look at the keys that none is due; false may be answered at any time.
    pub fn is_calm(&self, at: u64) -> bool
        ensures { IsTrue result → IsCalm at self.now }
    {
        at < self.soonest
    }

    /// Drops each key whose expiry is reached.
    pub fn drop_due(&mut self, at: u64)
        ensures { self.new ≡ live_at at self.old }
    {
        drop_all_due(&mut self.kept, at);
        self.soonest = soonest_in(&self.kept);
    }
}

fn is_over(at: u64, expiry: Option<u64>) -> bool
    ensures { result ≡ is_over at expiry }
{
    match expiry {
        Some(moment) => moment <= at,
        None => false,
    }
}

// The sooner one of a moment and an expiry.
fn sooner(soonest: u64, expiry: Option<u64>) -> u64
    ensures sooner { result ≤ soonest }
    ensures ends { result ≤ end_by result expiry }
{
    match expiry {
        Some(moment) => soonest.min(moment),
        None => soonest,
    }
}

// A moment before which no entry expires.
fn soonest_in(kept: &BTreeMap<Bytes, Held>) -> u64
    ensures { AllEndFrom result kept.now.entries }
{
    let mut soonest = u64::MAX;
    for (_, held) in kept.iter() {
        soonest = sooner(soonest, held.expiry);
    }
    soonest
}

fn drop_all_due(kept: &mut BTreeMap<Bytes, Held>, at: u64)
    ensures live { kept.new.entries ≡ filter (λ e. not (is_over at e.1.expiry)) kept.old.entries }
    ensures ordered { IsOrdered bytes_cmp kept.old }
{
    kept.retain(|_, held| !is_over(at, held.expiry));
}
