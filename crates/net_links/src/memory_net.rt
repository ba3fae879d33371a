//! A net in memory, which hands out the links that it was made with, and fails at the calls that it is told.
ghost use Rattle.std.specs.Io.KnownBytes.{Keeps};
ghost use Rattle.std.specs.Prelude.{All, ◌∷◌, ◌<◌, ◌≡◌, ◌≤◌, ◌+◌, ◌-◌, ◌↔◌, IfErr, IfOk, IsErr, IsErrOf, IsTrue, OnErr, OnOk, Some, false, length, map, slice_index_or, take, drop};
ghost use Rattle.links.specs.Causes.{Rose};
ghost use Rattle.links.specs.Counts.{raised};
ghost use Rattle.net_links.specs.MemoryForms.{HandsOut, IsUnusedLink, MemoryNetView, after_closing, after_listening, after_net_failure, memory_net, net_fails, no_link, told_of};
ghost use Rattle.net_links.specs.NetCauses.{HasClosedFaults, HasNetCause};
ghost use Rattle.net_links.specs.Traffics.{ClosesOne, IsFresh, KeepsClosed};
ghost use Rattle.net_links.specs.declared.link.NetFault.TheVariants.{Failed};

use crate::{MemoryLink, Net, NetFault};
use links::raise;
use std::alloc::Global;
use std::marker::Model;
use std::mem;
use wire_values::Bytes;

/// A net over links that nobody used yet. `connect` and `accept` hand out the next one. A call other than `close`,
/// counted from 0, fails where its number is in `fails` or, for those two, where no link is left.
///
/// The place of a link that was handed out is the room for one that is closed, so neither call takes memory.
#[derive(Debug, Drop)]
pub struct MemoryNet {
    links: Vec<MemoryLink>,
    given: usize,
    back: usize,
    fails: Vec<u64>,
    calls: u64,
    faults: u64,
    closed_faults: u64,
}

impl Model for MemoryNet {
    ghost Value = { MemoryNetView };

    ghost view = { λ s. record {
      links = drop s.given s.links.items;
      out = s.given - s.back;
      closed = map told_of (take s.back s.links.items);
      fails = s.fails.items;
      calls = s.calls;
      faults = s.faults;
      closed_faults = s.closed_faults;
    } };

    ghost invariant = { λ s. (s.back ≤ s.given) × (s.given ≤ length s.links.items) × All IsUnusedLink (drop s.given s.links.items) };
}

impl MemoryNet {
    /// A net over these links; takes no memory.
    pub fn new(links: Vec<MemoryLink>, fails: Vec<u64>) -> MemoryNet
        requires { All IsUnusedLink links.items }
        ensures { result ≡ memory_net links.items fails.items }
    {
        MemoryNet {
            links,
            given: 0,
            back: 0,
            fails,
            calls: 0,
            faults: 0,
            closed_faults: 0,
        }
    }

    /// How many links it closed.
    pub fn closed_count(&self) -> usize
        ensures { result ≡ length self.now.closed }
    {
        self.back
    }

    /// What the link sent that it closed after so many others.
    pub fn sent_by(&self, at: usize) -> &[u8]
        requires { at < length self.now.closed }
        ensures { (slice_index_or self.now.closed at no_link).sent ≡ Some result.now }
    {
        self.links[at].sent()
    }

    /// Counts a call that failed.
    fn fail(&mut self)
        ensures later { self.old.faults ≤ self.new.faults }
        ensures rose { Rose self.old.faults self.new.faults }
        ensures after { self.new ≡ after_net_failure self.old }
    {
        raise(&mut self.calls);
        raise(&mut self.faults);
    }

    /// The next link.
    fn hand_out(&mut self, alloc: Global) -> Result<MemoryLink, NetFault>
        ensures cause { HasNetCause self.old.faults self.new.faults result }
        ensures given { HandsOut self.old self.new result }
        ensures unused { IfOk result IsUnusedLink }
    {
        if self.fails.contains(&self.calls) {
            self.fail();
            return Err(NetFault::Failed);
        }
        if self.given == self.links.len() {
            self.fail();
            return Err(NetFault::Failed);
        }
        raise(&mut self.calls);
        Ok(self.take_next(alloc))
    }

    /// Takes the next link out of its place.
    #[tactic(auto, using(crate::proofs::Slots::fewer_unused, crate::proofs::Slots::first_unused))]
    fn take_next(&mut self, alloc: Global) -> MemoryLink
        requires { 0 < length self.old.links }
        ensures given { self.old.links ≡ result ∷ drop 1 self.old.links }
        ensures after { self.new ≡ record self.old { links = drop 1 self.old.links; out = self.old.out + 1 } }
        ensures unused { IsUnusedLink result }
    {
        let place = MemoryLink::new(Bytes::new(), 1, Vec::new(alloc));
        let link = mem::replace(&mut self.links[self.given], place);
        self.given += 1;
        link
    }
}

impl Net for MemoryNet {
    type Stream = MemoryLink;

    ghost faults = { λ s. s.faults };

    ghost closed_faults = { λ s. s.closed_faults };

    ghost closed = { λ s. Some s.closed };

    ghost out = { λ s. s.out };

    fn connect(&mut self, alloc: Global, _address: &str) -> Result<MemoryLink, NetFault>
        ensures fresh { IfOk result (λ s. IsFresh (Some self.old.closed) (told_of s)) }
        ensures out { OnOk result (raised self.old.out ≤ self.new.out) }
        ensures none { OnErr result (self.new.out ≡ self.old.out) }
        ensures cause { HasNetCause self.old.faults self.new.faults result }
        ensures closed_faults { self.new.closed_faults ≡ self.old.closed_faults }
        ensures closed { KeepsClosed (Some self.old.closed) (Some self.new.closed) }
        ensures given { HandsOut self.old self.new result }
    {
        self.hand_out(alloc)
    }

    fn listen(&mut self, _alloc: Global, _address: &str) -> Result<(), NetFault>
        ensures out { self.new.out ≡ self.old.out }
        ensures cause { HasNetCause self.old.faults self.new.faults result }
        ensures closed_faults { self.new.closed_faults ≡ self.old.closed_faults }
        ensures closed { KeepsClosed (Some self.old.closed) (Some self.new.closed) }
        ensures fails { IsErr result ↔ IsTrue (net_fails self.old) }
        ensures failed { IfErr result (λ fault. (fault ≡ Failed) × (self.new ≡ after_net_failure self.old)) }
        ensures went { OnOk result (self.new ≡ after_listening self.old) }
    {
        if self.fails.contains(&self.calls) {
            self.fail();
            return Err(NetFault::Failed);
        }
        raise(&mut self.calls);
        Ok(())
    }

    fn accept(&mut self, alloc: Global) -> Result<MemoryLink, NetFault>
        ensures fresh { IfOk result (λ s. IsFresh (Some self.old.closed) (told_of s)) }
        ensures out { OnOk result (raised self.old.out ≤ self.new.out) }
        ensures none { OnErr result (self.new.out ≡ self.old.out) }
        ensures cause { HasNetCause self.old.faults self.new.faults result }
        ensures closed_faults { self.new.closed_faults ≡ self.old.closed_faults }
        ensures closed { KeepsClosed (Some self.old.closed) (Some self.new.closed) }
        ensures given { HandsOut self.old self.new result }
    {
        self.hand_out(alloc)
    }

    fn close(&mut self, stream: MemoryLink)
        requires out { 0 < self.old.out }
        ensures out { self.old.out ≤ self.new.out + 1 }
        ensures closed { ClosesOne (Some self.old.closed) (Some self.new.closed) (told_of stream) }
        ensures faults { self.new.faults ≡ self.old.faults }
        ensures closed_faults { HasClosedFaults self.old.closed_faults self.new.closed_faults stream.faults stream.ends }
        ensures after { self.new ≡ after_closing self.old stream }
    {
        if stream.has_failed() {
            raise(&mut self.closed_faults);
        }
        self.links[self.back] = stream;
        self.back += 1;
    }
}
