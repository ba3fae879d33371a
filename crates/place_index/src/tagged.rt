//! A table from messages to values.
ghost use Rattle.std.specs.Prelude.{◌≡◌, ◌∷◌, [], IfOk, OnOk, ℕ, is_some};
ghost use Rattle.std.specs.FinMap as map;
ghost use Rattle.std.specs.Option.{option_copied};
ghost use Rattle.message_acts.specs.Numbers.{times};
ghost use Rattle.place_index.specs.Places.{first_of};
ghost use Rattle.place_index.specs.Tallies.{first_numbers, tally};

use std::alloc::{AllocError, Global};
use std::collections::BTreeMap;
use std::marker::Model;
use wire_values::List;

/// A table from the numbers of delivery tags to values, seen by contracts as a finite map in the order of numbers.
#[derive(Drop)]
pub(crate) struct Tagged<V> {
    kept: BTreeMap<u128, V>,
}

impl<V> Model for Tagged<V> {
    ghost use Rattle.std.specs.Coded.{coded_ℕ};
    ghost use Rattle.std.specs.FinMap as map;
    ghost use Rattle.std.specs.Ordering.{nat_cmp};

    ghost Value = { map.FinMap nat_cmp V };

    ghost coded = { map.code coded_ℕ V.code };

    ghost view = { λ t. map.from_entries t.kept.entries };
}

impl<V> Tagged<V> {
    /// No entries; takes no memory.
    pub(crate) fn new(alloc: Global) -> Self
        ensures { result ≡ map.empty }
    {
        Tagged {
            kept: BTreeMap::new(alloc),
        }
    }

    /// The value of a message, if it has one.
    pub(crate) fn get(&self, number: u128) -> Option<&V>
        ensures { option_copied result ≡ map.get self.now number }
    {
        self.kept.get(&number)
    }

    /// Whether a message has a value.
    pub(crate) fn has(&self, number: u128) -> bool
        ensures { result ≡ is_some (map.get self.now number) }
    {
        self.get(number).is_some()
    }
}

impl<V: Drop> Tagged<V> {
    /// Puts a value under a message.
    pub(crate) fn put(&mut self, number: u128, value: V) -> Result<(), AllocError>
        ensures { OnOk result (self.new ≡ map.insert self.old number value) }
    {
        let _ = self.kept.insert(number, value)?;
        Ok(())
    }
}

/// Each message with the first value that it is told with.
pub(crate) fn first_told<V: Drop>(
    alloc: Global,
    told: List<(u128, V)>,
) -> Result<Tagged<V>, AllocError>
    ensures { IfOk result (λ first. (t : ℕ) → map.get first t ≡ first_of t told) }
{
    let mut left = told.into_vec(alloc);
    let mut first = Tagged::new(alloc);
    'telling: while let Some(one) = left.pop() {
        first.put(one.0, one.1)?;
    }
    Ok(first)
}

/// Each message that is told, with whether it is told more than once.
pub(crate) fn tallied(alloc: Global, numbers: &[u128]) -> Result<Tagged<bool>, AllocError>
    ensures { IfOk result (λ counts. (t : ℕ) → map.get counts t ≡ tally (times t numbers.now)) }
{
    let mut counts = Tagged::new(alloc);
    for number in numbers {
        let before = counts.has(*number);
        counts.put(*number, before)?;
    }
    Ok(counts)
}

/// Each message where it is told first.
pub(crate) fn first_numbers(alloc: Global, numbers: &[u128]) -> Result<List<u128>, AllocError>
    ensures { IfOk result (λ firsts. firsts ≡ first_numbers numbers.now) }
{
    let mut known = Tagged::new(alloc);
    let mut firsts = List::new();
    for number in numbers {
        if !known.has(*number) {
            known.put(*number, ())?;
            firsts.push(alloc, *number)?;
        }
    }
    Ok(firsts)
}
