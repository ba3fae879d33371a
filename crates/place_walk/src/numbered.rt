//! A table from connections to values.
ghost use Rattle.std.specs.Prelude.{◌≡◌, OnOk, is_some};
ghost use Rattle.std.specs.FinMap as map;

use std::alloc::{AllocError, Global};
use std::collections::BTreeMap;
use std::marker::Model;

/// A table from connections to values, seen by contracts as a finite map in the order of connections.
#[derive(Drop)]
pub struct Numbered<V> {
    pub(crate) kept: BTreeMap<u32, V>,
}

impl<V> Model for Numbered<V> {
    ghost use Rattle.std.specs.Coded.{coded_ℕ};
    ghost use Rattle.std.specs.FinMap as map;
    ghost use Rattle.std.specs.Ordering.{nat_cmp};

    ghost Value = { map.FinMap nat_cmp V };

    ghost coded = { map.code coded_ℕ V.code };

    ghost view = { λ t. map.from_entries t.kept.entries };
}

impl<V> Numbered<V> {
    /// No entries; takes no memory.
    pub fn new(alloc: Global) -> Self
        ensures { result ≡ map.empty }
    {
        Numbered {
            kept: BTreeMap::new(alloc),
        }
    }

    /// Whether a connection has a value.
    pub fn has(&self, conn: u32) -> bool
        ensures { result ≡ is_some (map.get self.now conn) }
    {
        self.kept.contains_key(&conn)
    }
}

impl<V: Drop> Numbered<V> {
    /// Takes the value of a connection out, if it has one.
    pub fn take(&mut self, conn: u32) -> Option<V>
        ensures before { result ≡ map.get self.old conn }
        ensures after { self.new ≡ map.remove self.old conn }
    {
        self.kept.remove(&conn)
    }

    /// Puts a value under a connection.
    pub fn put(&mut self, conn: u32, value: V) -> Result<(), AllocError>
        ensures { OnOk result (self.new ≡ map.insert self.old conn value) }
    {
        let _ = self.kept.insert(conn, value)?;
        Ok(())
    }
}
