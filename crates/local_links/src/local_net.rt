//! A net in memory whose links have stores behind them.
ghost use Rattle.std.specs.Io.KnownBytes.{Keeps};
ghost use Rattle.std.specs.Prelude.{Err, IfOk, OnErr, OnOk, Some, [], drop, map, take, vec_len, ◌++◌, ◌+◌, ◌-◌, ◌<◌, ◌∷◌, ◌≡◌, ◌≤◌};
ghost use Rattle.links.specs.Causes.{Rose};
ghost use Rattle.links.specs.Counts.{raised};
ghost use Rattle.net_links.specs.NetCauses.{HasClosedFaults, HasNetCause};
ghost use Rattle.net_links.specs.Traffics.{ClosesOne, IsFresh, KeepsClosed};
ghost use Rattle.net_links.specs.declared.link.NetFault.TheVariants.{Failed};
ghost use Rattle.local_links.specs.LocalLinks.{HandsOutStore, IsNewLink, lacks_store, told_by};

use crate::LocalLink;
use links::raise;
use mini_store::Store;
use net_links::{Net, NetFault};
use std::alloc::Global;
use std::mem;

/// A net whose k-th `connect`, counted from 0, gives a link to the k-th store. It fails where its number is in `fails`,
/// which passes the store of that number over, and where there is no such store. `listen` and `accept` always fail.
///
/// The place for a link that is closed is made when the link is handed out, so `close` takes no memory.
#[derive(Drop)]
pub struct LocalNet {
    stores: Vec<Store>,
    places: Vec<LocalLink>,
    back: usize,
    fails: Vec<u64>,
    tried: u64,
    faults: u64,
    closed_faults: u64,
    ghost within: { back ≤ vec_len places },
}

impl LocalNet {
    /// A net over these stores; takes no memory.
    pub fn new(alloc: Global, stores: Vec<Store>, fails: Vec<u64>) -> LocalNet
        ensures stores { result.stores.items ≡ stores.items }
        ensures fails { result.fails.items ≡ fails.items }
        ensures tried { result.tried ≡ 0 }
        ensures none { (vec_len result.places ≡ 0) × (result.back ≡ 0) }
        ensures counts { (result.faults ≡ 0) × (result.closed_faults ≡ 0) }
    {
        LocalNet {
            stores,
            places: Vec::new(alloc),
            back: 0,
            fails,
            tried: 0,
            faults: 0,
            closed_faults: 0,
        }
    }

    /// The links that it closed, in order; takes no memory.
    pub fn closed(&self) -> &[LocalLink]
        ensures { result.now ≡ take self.now.back self.now.places.items }
    {
        &self.places[..self.back]
    }
}

/// Counts a call that failed.
fn refuse(faults: &mut u64) -> NetFault
    ensures given { result ≡ Failed }
    ensures later { faults.old ≤ faults.new }
    ensures rose { Rose faults.old faults.new }
{
    raise(faults);
    NetFault::Failed
}

/// Whether the connect of this number fails.
fn lacks_store(stores: &[Store], fails: &[u64], tried: u64) -> bool
    ensures { result ≡ lacks_store stores.now fails.now tried }
{
    fails.contains(&tried) || stores.is_empty()
}

/// Counts a connect that failed, and passes over its store, where there is one.
fn pass_over(stores: &mut Vec<Store>, tried: &mut u64)
    ensures stores { stores.new.items ≡ drop 1 stores.old.items }
    ensures tried { tried.new ≡ raised tried.old }
{
    raise(tried);
    if !stores.is_empty() {
        mem::drop(stores.remove(0));
    }
}

/// A link to the first of these stores, which is taken.
fn link_to_next(alloc: Global, stores: &mut Vec<Store>, tried: &mut u64) -> LocalLink
    requires { 0 < vec_len stores.old }
    ensures stores { stores.old.items ≡ result.desk.store ∷ stores.new.items }
    ensures tried { tried.new ≡ raised tried.old }
    ensures fresh { IsNewLink result.desk.store result }
{
    raise(tried);
    LocalLink::new(alloc, stores.remove(0))
}

impl Net for LocalNet {
    type Stream = LocalLink;

    ghost use Rattle.std.specs.Prelude.{Some, map, take, vec_len, ◌-◌};
    ghost use Rattle.local_links.specs.LocalLinks.{told_by};

    ghost faults = { λ s. s.faults };

    ghost closed_faults = { λ s. s.closed_faults };

    ghost closed = { λ s. Some (map told_by (take s.back s.places.items)) };

    ghost out = { λ s. vec_len s.places - s.back };

    fn connect(&mut self, alloc: Global, _address: &str) -> Result<LocalLink, NetFault>
        ensures fresh { IfOk result (λ l. IsFresh (Some (map told_by (take self.old.back self.old.places.items))) (told_by l)) }
        ensures out { OnOk result (raised (vec_len self.old.places - self.old.back) ≤ vec_len self.new.places - self.new.back) }
        ensures none { OnErr result (vec_len self.new.places - self.new.back ≡ vec_len self.old.places - self.old.back) }
        ensures cause { HasNetCause self.old.faults self.new.faults result }
        ensures closed_faults { self.new.closed_faults ≡ self.old.closed_faults }
        ensures closed { KeepsClosed (Some (map told_by (take self.old.back self.old.places.items))) (Some (map told_by (take self.new.back self.new.places.items))) }
        ensures given { HandsOutStore self.old.stores.items self.new.stores.items self.old.fails.items self.old.tried self.new.tried result }
        ensures fails { self.new.fails ≡ self.old.fails }
    {
        if lacks_store(self.stores.as_slice(), self.fails.as_slice(), self.tried) {
            pass_over(&mut self.stores, &mut self.tried);
            return Err(refuse(&mut self.faults));
        }
        let place = LocalLink::new(alloc, Store::new(alloc));
        match self.places.push(place) {
            Ok(()) => {}
            Err(_) => return Err(NetFault::Memory),
        }
        Ok(link_to_next(alloc, &mut self.stores, &mut self.tried))
    }

    fn listen(&mut self, _alloc: Global, _address: &str) -> Result<(), NetFault>
        ensures out { vec_len self.new.places - self.new.back ≡ vec_len self.old.places - self.old.back }
        ensures cause { HasNetCause self.old.faults self.new.faults result }
        ensures closed_faults { self.new.closed_faults ≡ self.old.closed_faults }
        ensures closed { KeepsClosed (Some (map told_by (take self.old.back self.old.places.items))) (Some (map told_by (take self.new.back self.new.places.items))) }
        ensures never { result ≡ Err Failed }
        ensures same { self.new ≡ record self.old { faults = self.new.faults } }
    {
        Err(refuse(&mut self.faults))
    }

    fn accept(&mut self, _alloc: Global) -> Result<LocalLink, NetFault>
        ensures fresh { IfOk result (λ l. IsFresh (Some (map told_by (take self.old.back self.old.places.items))) (told_by l)) }
        ensures out { OnOk result (raised (vec_len self.old.places - self.old.back) ≤ vec_len self.new.places - self.new.back) }
        ensures none { OnErr result (vec_len self.new.places - self.new.back ≡ vec_len self.old.places - self.old.back) }
        ensures cause { HasNetCause self.old.faults self.new.faults result }
        ensures closed_faults { self.new.closed_faults ≡ self.old.closed_faults }
        ensures closed { KeepsClosed (Some (map told_by (take self.old.back self.old.places.items))) (Some (map told_by (take self.new.back self.new.places.items))) }
        ensures never { result ≡ Err Failed }
        ensures same { self.new ≡ record self.old { faults = self.new.faults } }
    {
        Err(refuse(&mut self.faults))
    }

    fn close(&mut self, stream: LocalLink)
        requires out { 0 < vec_len self.old.places - self.old.back }
        ensures out { vec_len self.old.places - self.old.back ≤ (vec_len self.new.places - self.new.back) + 1 }
        ensures closed { ClosesOne (Some (map told_by (take self.old.back self.old.places.items))) (Some (map told_by (take self.new.back self.new.places.items))) (told_by stream) }
        ensures faults { self.new.faults ≡ self.old.faults }
        ensures closed_faults { HasClosedFaults self.old.closed_faults self.new.closed_faults 0 stream.ends }
        ensures same { (self.new.stores ≡ self.old.stores) × (self.new.tried ≡ self.old.tried) × (self.new.fails ≡ self.old.fails) }
        ensures links { take self.new.back self.new.places.items ≡ take self.old.back self.old.places.items ++ stream ∷ [] }
    {
        if stream.has_ended() {
            raise(&mut self.closed_faults);
        }
        self.places[self.back] = stream;
        self.back += 1;
    }
}
