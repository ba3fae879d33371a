//! A table from byte strings to values.
ghost use Rattle.std.specs.Prelude.{◌≡◌, ◌<◌, ◌^◌, IfOk, OnOk, OnErr, IsTrue, ◌↔◌, is_some, map as mapped};
ghost use Rattle.std.specs.Option.{option_copied};
ghost use Rattle.std.specs.BTreeMap.{IsOrdered};
ghost use Rattle.std.specs.FinMap as map;
ghost use Rattle.wire_values.specs.Order.{bytes_cmp};

use crate::Deque;
use std::alloc::{AllocError, Global};
use std::collections::BTreeMap;
use std::marker::Model;
use wire_values::Bytes;

/// A table from byte strings to values, seen by contracts as a finite map in byte order.
#[derive(Debug, Drop)]
pub struct Table<V> {
    kept: BTreeMap<Bytes, V>,
}

impl<V> Model for Table<V> {
    ghost use Rattle.std.specs.Coded.{coded_list, coded_ℕ};
    ghost use Rattle.std.specs.FinMap as map;
    ghost use Rattle.wire_values.specs.Order.{bytes_cmp};

    ghost Value = { map.FinMap bytes_cmp V };

    ghost coded = { map.code (coded_list coded_ℕ) V.code };

    ghost view = { λ t. map.from_entries t.kept.entries };
}

impl<V> Table<V> {
    /// No entries; takes no memory.
    pub fn new(alloc: Global) -> Self
        ensures { result ≡ map.empty }
    {
        Table {
            kept: BTreeMap::new(alloc),
        }
    }

    /// The value of a key, if it has one.
    pub fn get(&self, key: &Bytes) -> Option<&V>
        ensures { option_copied result ≡ map.get self.now key.now }
    {
        self.kept.get(key)
    }

    /// Whether the key has a value.
    pub fn has(&self, key: &Bytes) -> bool
        ensures { result ≡ is_some (map.get self.now key.now) }
    {
        self.get(key).is_some()
    }

    /// The keys in byte order, copied.
    pub fn names(&self, alloc: Global) -> Result<Deque<Bytes>, AllocError>
        ensures { IfOk result (λ names. names ≡ map.keys self.now) }
    {
        copied_names(alloc, &self.kept)
    }
}

impl<V: Drop> Table<V> {
    /// Whether there is no entry.
    pub fn is_empty(&self) -> bool
        ensures { IsTrue result ↔ (map.len self.now ≡ 0) }
    {
        self.len() == 0
    }

    /// Puts a value under a key, and gives the value before; without memory nothing changes.
    pub fn insert(&mut self, key: Bytes, value: V) -> Result<Option<V>, AllocError>
        ensures before { IfOk result (λ before. before ≡ map.get self.old key) }
        ensures ok { OnOk result (self.new ≡ map.insert self.old key value) }
        ensures err { OnErr result (self.new ≡ self.old) }
    {
        Ok(self.kept.insert(key, value)?)
    }

    /// Takes the value of a key out, if it has one.
    pub fn remove(&mut self, key: &Bytes) -> Option<V>
        ensures before { result ≡ map.get self.old key.now }
        ensures removed { self.new ≡ map.remove self.old key.now }
    {
        self.kept.remove(key)
    }

    /// How many entries there are.
    pub fn len(&self) -> usize
        ensures len { result ≡ map.len self.now }
        ensures small { result < 2 ^ 63 }
    {
        self.kept.len()
    }
}

impl Table<i64> {
    /// The entries in byte order of their keys, copied.
    pub fn scores(&self, alloc: Global) -> Result<Deque<(Bytes, i64)>, AllocError>
        ensures { IfOk result (λ pairs. pairs ≡ map.entries self.now) }
    {
        copied_scores(alloc, &self.kept)
    }
}

fn copied_names<V>(alloc: Global, kept: &BTreeMap<Bytes, V>) -> Result<Deque<Bytes>, AllocError>
    ensures names { IfOk result (λ names. names ≡ mapped (λ e. e.0) kept.now.entries) }
    ensures ordered { IsOrdered bytes_cmp kept.now }
{
    let mut names = Deque::new(alloc);
    for name in kept.keys() {
        names.push(name.copy(alloc)?)?;
    }
    Ok(names)
}

fn copied_scores(
    alloc: Global,
    kept: &BTreeMap<Bytes, i64>,
) -> Result<Deque<(Bytes, i64)>, AllocError>
    ensures pairs { IfOk result (λ pairs. pairs ≡ kept.now.entries) }
    ensures ordered { IsOrdered bytes_cmp kept.now }
{
    let mut pairs = Deque::new(alloc);
    for (name, score) in kept.iter() {
        pairs.push((name.copy(alloc)?, *score))?;
    }
    Ok(pairs)
}
