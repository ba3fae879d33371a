//! A link in memory, which gives and takes pieces, and fails at the calls that it is told.
ghost use Rattle.std.specs.Io.KnownBytes.{WriteAppends, Keeps};
ghost use Rattle.std.specs.Io.{ReadsAtMost, WritesAtMost};
ghost use Rattle.std.specs.Prelude.{◌<◌, ◌≡◌, ◌↔◌, ◌≤◌, IfOk, IsErr, IsErrOf, IsTrue, OnOk, Some, false, length, drop, nat_eq, not, take, ◌&&◌};
ghost use Rattle.links.specs.Causes.{HasCause, HasEnds, Rose};
ghost use Rattle.links.specs.Counts.{raised};
ghost use Rattle.net_links.specs.MemoryForms.{MemoryLinkView, after_failure, after_receive, after_sending, ends_by, gains_by, link_fails, memory_link, received_count, sent_count};
ghost use Rattle.net_links.specs.NetCauses.{HasGained, HasNetCause};
ghost use Rattle.net_links.specs.declared.link.NetFault.TheVariants.{Failed as net_failed, Memory};

use crate::{Link, NetFault};
use links::{Failed, raise};
use std::alloc::Global;
use std::marker::Model;
use wire_values::Bytes;

/// A link over bytes to be received, which keeps what it sends. Each call moves at most `piece` bytes; the k-th call,
/// counted from 0, fails where k is in `fails`, and then moves nothing.
#[derive(Debug, Drop)]
pub struct MemoryLink {
    incoming: Bytes,
    at: usize,
    sent: Bytes,
    piece: u64,
    fails: Vec<u64>,
    calls: u64,
    faults: u64,
    ends: u64,
    gains: u64,
}

impl Model for MemoryLink {
    ghost Value = { MemoryLinkView };

    ghost view = { λ s. record {
      left = drop s.at s.incoming;
      received = take s.at s.incoming;
      sent = s.sent;
      piece = s.piece;
      fails = s.fails.items;
      calls = s.calls;
      faults = s.faults;
      ends = s.ends;
      gains = s.gains;
    } };

    ghost invariant = { λ s. (s.at ≤ length s.incoming) × (1 ≤ s.piece) };
}

impl MemoryLink {
    /// A link that gives these bytes, in pieces of at most `piece`, at least 1. It takes no memory.
    pub fn new(incoming: Bytes, piece: u64, fails: Vec<u64>) -> MemoryLink
        requires { 1 ≤ piece }
        ensures { result ≡ memory_link incoming piece fails.items }
    {
        MemoryLink {
            incoming,
            at: 0,
            sent: Bytes::new(),
            piece,
            fails,
            calls: 0,
            faults: 0,
            ends: 0,
            gains: 0,
        }
    }

    /// The bytes that it sent, in order.
    pub fn sent(&self) -> &[u8]
        ensures { result.now ≡ self.now.sent }
    {
        self.sent.as_slice()
    }

    /// Whether it failed or ended.
    pub(crate) fn has_failed(&self) -> bool
        ensures { result ≡ not (nat_eq self.now.faults 0 && nat_eq self.now.ends 0) }
    {
        !(self.faults == 0 && self.ends == 0)
    }

    /// Whether this call is one of those that fail; it is counted then.
    fn fails_now(&mut self) -> bool
        ensures is { result ≡ link_fails self.old }
        ensures later { self.old.faults ≤ self.new.faults }
        ensures rose { IsTrue result → Rose self.old.faults self.new.faults }
        ensures failed { IsTrue result → self.new ≡ after_failure self.old }
        ensures same { result ≡ false → self.new ≡ self.old }
    {
        if !self.fails.contains(&self.calls) {
            return false;
        }
        raise(&mut self.calls);
        raise(&mut self.faults);
        true
    }
}

impl Link for MemoryLink {
    ghost sent = { λ s. Some s.sent };

    ghost received = { λ s. Some s.received };

    ghost faults = { λ s. s.faults };

    ghost ends = { λ s. s.ends };

    ghost gains = { λ s. s.gains };

    fn send(&mut self, alloc: Global, piece: &[u8]) -> Result<usize, NetFault>
        ensures bound { WritesAtMost result piece.now }
        ensures moves { 0 < length piece.now → IfOk result (λ n. 1 ≤ n) }
        ensures sent { WriteAppends (Some self.old.sent) (Some self.new.sent) result piece.now }
        ensures received { Keeps (Some self.old.received) (Some self.new.received) }
        ensures cause { HasNetCause self.old.faults self.new.faults result }
        ensures ends { self.new.ends ≡ self.old.ends }
        ensures gains { self.new.gains ≡ self.old.gains }
        ensures fails { IsErrOf result net_failed ↔ IsTrue (link_fails self.old) }
        ensures count { IfOk result (λ n. n ≡ sent_count self.old (length piece.now)) }
        ensures after { OnOk result (self.new ≡ after_sending self.old piece.now) }
        ensures failed { IsErrOf result net_failed → self.new ≡ after_failure self.old }
        ensures short { IsErrOf result Memory → self.new ≡ self.old }
    {
        if self.fails_now() {
            return Err(NetFault::Failed);
        }
        let count = piece.len().min(self.piece as usize);
        if self.sent.extend(alloc, &piece[..count]).is_err() {
            return Err(NetFault::Memory);
        }
        raise(&mut self.calls);
        Ok(count)
    }

    #[tactic(auto, using(crate::proofs::Counted::link_failed, crate::proofs::Counted::gained))]
    fn receive(&mut self, into: &mut [u8]) -> Result<usize, Failed>
        ensures bound { ReadsAtMost result into.new }
        ensures received { WriteAppends (Some self.old.received) (Some self.new.received) result into.new }
        ensures sent { Keeps (Some self.old.sent) (Some self.new.sent) }
        ensures cause { HasCause self.old.faults self.new.faults result }
        ensures end { HasEnds self.old.ends self.new.ends (length into.old) result }
        ensures gains { HasGained self.old.gains self.new.gains result }
        ensures fails { IsErr result ↔ IsTrue (link_fails self.old) }
        ensures count { IfOk result (λ n. n ≡ received_count self.old (length into.old)) }
        ensures after { self.new ≡ after_receive self.old (length into.old) }
    {
        if self.fails_now() {
            return Err(Failed);
        }
        raise(&mut self.calls);
        let left = &self.incoming.as_slice()[self.at..];
        let count = left.len().min(into.len()).min(self.piece as usize);
        into[..count].copy_from_slice(&left[..count]);
        self.at += count;
        count_end(count, into.len(), &mut self.ends);
        count_gain(count, &mut self.gains);
        Ok(count)
    }
}

/// Counts an end where no byte came into a slice that isn't empty.
fn count_end(count: usize, room: usize, ends: &mut u64)
    ensures { ends.new ≡ ends_by count room ends.old }
{
    if count == 0 && room > 0 {
        raise(ends);
    }
}

/// Counts a receive that gave bytes.
fn count_gain(count: usize, gains: &mut u64)
    ensures is { gains.new ≡ gains_by count gains.old }
    ensures zero { count ≡ 0 → gains.new ≡ gains.old }
    ensures some { 0 < count → gains.new ≡ raised gains.old }
{
    if count != 0 {
        raise(gains);
    }
}
