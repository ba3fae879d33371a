//! The list of revoked ids.
ghost use Rattle.std.specs.Prelude.{◌≡◌, ◌≤◌, [], IfOk, IsTrue, OnErr, OnOk, length};
ghost use Rattle.revokes.specs.Kept.{revokes_of};
ghost use Rattle.revokes.specs.Revokes.{bounded, is_live, is_revoked, live_ids, second_of, with_revoke};

use indexmap::IndexMap;
use std::alloc::{AllocError, Global};
use std::marker::Model;
use wire_values::{Bytes, List, Words};

/// How many revokes are kept at most; one more drops the first (Celery's `REVOKES_MAX`).
pub const REVOKE_LIMIT: usize = 50_000;

/// For how many seconds a revoke is live (Celery's `REVOKE_EXPIRES`, three hours).
pub const REVOKE_SECONDS: u64 = 10_800;

/// Revoked ids with the second at which each was revoked, at most 50,000. Contracts see them as a list of pairs of id and
/// second, in order of arrival.
#[derive(Drop)]
pub struct Revokes {
    kept: IndexMap<Vec<u8>, u64>,
}

impl Model for Revokes {
    ghost use Rattle.std.specs.Prelude.{◌≤◌, List as Listed, ℕ, length};
    ghost use Rattle.revokes.specs.Kept.{revokes_of};

    ghost Value = { Listed (Listed ℕ × ℕ) };

    ghost view = { λ r. revokes_of r.kept.entries };

    ghost invariant = { λ r. length r.kept.entries ≤ 50000 };
}

impl Revokes {
    /// No revokes; takes no memory.
    pub fn new(alloc: Global) -> Revokes
        ensures { result ≡ [] }
    {
        Revokes {
            kept: IndexMap::new(alloc),
        }
    }

    /// Adds an id at the end with the second at which it was revoked. One that is there moves to the end with its new
    /// second; where 50,000 others are there, the first is dropped. Without memory nothing changes.
    pub fn add(&mut self, alloc: Global, id: Bytes, now: u64) -> Result<(), AllocError>
        ensures ok { OnOk result (self.new ≡ with_revoke id now self.old) }
        ensures err { OnErr result (self.new ≡ self.old) }
    {
        self.kept.reserve(1)?;
        let id = id.into_vec(alloc);
        self.kept.shift_remove(id.as_slice());
        self.kept.insert(id, now)?;
        bound(&mut self.kept);
        Ok(())
    }

    /// Whether an id is revoked: it is there, and `now` is below its second plus 10,800. Takes no memory.
    pub fn has(&self, id: &[u8], now: u64) -> bool
        ensures { result ≡ is_revoked now (second_of id.now self.now) }
    {
        match self.kept.get(id) {
            Some(second) => is_live(now, *second),
            None => false,
        }
    }

    /// The ids that are live, in order of arrival.
    pub fn live(&self, alloc: Global, now: u64) -> Result<Words, AllocError>
        ensures { IfOk result (λ ids. ids ≡ live_ids now self.now) }
    {
        let mut ids = List::new();
        for (id, second) in self.kept.iter() {
            if is_live(now, *second) {
                ids.push(alloc, Bytes::from_slice(alloc, id.as_slice())?)?;
            }
        }
        Ok(ids)
    }

    /// How many revokes are kept, live ones and others; takes no memory.
    pub fn len(&self) -> usize
        ensures { result ≡ length self.now }
    {
        self.kept.len()
    }
}

/// Drops the first revoke where there is one more than are kept.
fn bound(kept: &mut IndexMap<Vec<u8>, u64>)
    requires { length kept.old.entries ≤ 50001 }
    ensures view { revokes_of kept.new.entries ≡ bounded (revokes_of kept.old.entries) }
    ensures within { length kept.new.entries ≤ 50000 }
{
    if kept.len() > REVOKE_LIMIT {
        kept.shift_remove_index(0);
    }
}

/// Whether a revoke of this second is live.
fn is_live(now: u64, second: u64) -> bool
    ensures { result ≡ is_live now second }
{
    now.saturating_sub(second) < REVOKE_SECONDS
}
