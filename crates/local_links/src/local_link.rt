//! A link in memory that has a store behind it.
ghost use Rattle.std.specs.Io.KnownBytes.{WriteAppends, Keeps};
ghost use Rattle.std.specs.Io.{ReadsAtMost, WritesAtMost};
ghost use Rattle.std.specs.Prelude.{List, IfErr, IfOk, IsErr, IsOk, Some, [], drop, length, min, nat_lt, take, ◌+◌, ◌<◌, ◌≡◌, ◌≤◌};
ghost use Rattle.links.specs.Causes.{HasCause, HasEnds};
ghost use Rattle.links.specs.Counts.{raised};
ghost use Rattle.net_links.specs.MemoryForms.{ends_by, gains_by};
ghost use Rattle.net_links.specs.NetCauses.{HasGained, HasNetCause};
ghost use Rattle.net_links.specs.declared.link.NetFault.TheVariants.{Memory};
ghost use Rattle.plain_desk.specs.declared.desk.PlainDesk.{PlainDesk as ThePlainDesk};
ghost use Rattle.store_model.specs.Store.{gone_of};
ghost use Rattle.local_links.specs.LocalTalks.{IsSentBy, Serves};
ghost use Rattle.local_links.specs.declared.link_stage.LinkStage.TheVariants.{Spent};

use crate::LinkStage;
use crate::asking_all::{keep, take};
use links::{Failed, raise};
use mini_store::Store;
use net_links::{Link, NetFault};
use plain_desk::PlainDesk;
use sessions::Talking;
use std::alloc::Global;
use wire_values::Bytes;

/// The number of the connection under which a link asks its store.
const CONN: u32 = 1;

/// A link that answers from its own store at moment 0. What is sent is taken whole, and each value in it is asked once it
/// is whole; a receive gives bytes of the replies, those of pushed values first, in order. Where none is left the other
/// side has ended.
///
/// It never fails. A value that is no command, or bytes that are no RESP2, end what is asked, as they end a session; what
/// is sent after that is taken and not asked. After want of memory it takes nothing more; what replies there are can
/// still be received.
#[derive(Drop)]
pub struct LocalLink {
    desk: PlainDesk,
    talking: Talking,
    sent: Bytes,
    replies: Bytes,
    at: usize,
    stage: LinkStage,
    ends: u64,
    gains: u64,
    ghost within: { at ≤ length replies },
    ghost emptied: { talking.out.items ≡ [] },
    ghost served: { ∥ ((first : ThePlainDesk) × Serves first desk sent replies talking stage) ∥₁ },
}

impl LocalLink {
    ghost use Rattle.local_links.specs.LocalLinks.{IsNewLink, ServesSince};

    /// A link to this store; takes no memory.
    pub fn new(alloc: Global, store: Store) -> LocalLink
        ensures { IsNewLink store result }
    {
        LocalLink {
            desk: PlainDesk::new(store, CONN),
            talking: Talking::new(alloc),
            sent: Bytes::new(),
            replies: Bytes::new(),
            at: 0,
            stage: LinkStage::Asks,
            ends: 0,
            gains: 0,
        }
    }

    /// The bytes that it sent, in order; takes no memory.
    pub fn sent(&self) -> &[u8]
        ensures { result.now ≡ self.now.sent }
    {
        self.sent.as_slice()
    }

    /// The bytes that were received, in order; takes no memory.
    pub fn received(&self) -> &[u8]
        ensures { result.now ≡ take self.now.at self.now.replies }
    {
        &self.replies.as_slice()[..self.at]
    }

    /// The store that is left, without all that the link's connection had; takes no memory.
    pub fn into_store(self) -> Store
        ensures { result ≡ record self.desk.store { state = gone_of self.desk.store.state self.desk.conn } }
    {
        self.desk.into_store()
    }

    /// Whether it ended.
    pub(crate) fn has_ended(&self) -> bool
        ensures { result ≡ nat_lt 0 self.now.ends }
    {
        self.ends > 0
    }
}

impl Link for LocalLink {
    ghost use Rattle.std.specs.Prelude.{Some, take};
    ghost use Rattle.local_links.specs.LocalLinks.{ServesSince};

    ghost sent = { λ s. Some s.sent };

    ghost received = { λ s. Some (take s.at s.replies) };

    ghost faults = { λ s. 0 };

    ghost ends = { λ s. s.ends };

    ghost gains = { λ s. s.gains };

    fn send(&mut self, alloc: Global, piece: &[u8]) -> Result<usize, NetFault>
        ensures bound { WritesAtMost result piece.now }
        ensures moves { 0 < length piece.now → IfOk result (λ n. 1 ≤ n) }
        ensures sent { WriteAppends (Some self.old.sent) (Some self.new.sent) result piece.now }
        ensures received { Keeps (Some (take self.old.at self.old.replies)) (Some (take self.new.at self.new.replies)) }
        ensures cause { HasNetCause 0 0 result }
        ensures ends { self.new.ends ≡ self.old.ends }
        ensures gains { self.new.gains ≡ self.old.gains }
        ensures whole { IfOk result (λ n. n ≡ length piece.now) }
        ensures kinds { IfErr result (λ f. f ≡ Memory) }
        ensures spent { self.old.stage ≡ Spent → IsErr result }
        ensures stage { IsSentBy self.new.stage (length piece.now) result }
        ensures place { self.new.at ≡ self.old.at }
        ensures serves { (first : ThePlainDesk) → ServesSince first self.old → ServesSince first self.new }
    {
        let taken = take(alloc, &mut self.desk, &mut self.talking, self.stage, piece);
        let out = &mut self.talking.out;
        self.stage = keep(alloc, taken, out, &mut self.replies, &mut self.sent, piece);
        sent_by(self.stage, piece.len())
    }

    fn receive(&mut self, into: &mut [u8]) -> Result<usize, Failed>
        ensures bound { ReadsAtMost result into.new }
        ensures received { WriteAppends (Some (take self.old.at self.old.replies)) (Some (take self.new.at self.new.replies)) result into.new }
        ensures sent { Keeps (Some self.old.sent) (Some self.new.sent) }
        ensures cause { HasCause 0 0 result }
        ensures end { HasEnds self.old.ends self.new.ends (length into.old) result }
        ensures gains { HasGained self.old.gains self.new.gains result }
        ensures never { IsOk result }
        ensures count { IfOk result (λ n. n ≡ min (length (drop self.old.at self.old.replies)) (length into.old)) }
        ensures ended { IfOk result (λ n. self.new.ends ≡ ends_by n (length into.old) self.old.ends) }
        ensures place { IfOk result (λ n. self.new.at ≡ self.old.at + n) }
        ensures replies { self.new.replies ≡ self.old.replies }
        ensures desk { self.new.desk ≡ self.old.desk }
        ensures stage { self.new.stage ≡ self.old.stage }
        ensures serves { (first : ThePlainDesk) → ServesSince first self.old → ServesSince first self.new }
    {
        let left = &self.replies.as_slice()[self.at..];
        let count = left.len().min(into.len());
        into[..count].copy_from_slice(&left[..count]);
        self.at += count;
        count_end(count, into.len(), &mut self.ends);
        count_gain(count, &mut self.gains);
        Ok(count)
    }
}

/// What a send of so many bytes answers.
fn sent_by(stage: LinkStage, length: usize) -> Result<usize, NetFault>
    ensures is { IsSentBy stage length result }
    ensures whole { IfOk result (λ n. n ≡ length) }
    ensures kinds { IfErr result (λ f. f ≡ Memory) }
    ensures cause { HasNetCause 0 0 result }
    ensures spent { stage ≡ Spent → IsErr result }
{
    match stage {
        LinkStage::Asks | LinkStage::Over => Ok(length),
        LinkStage::Spent => Err(NetFault::Memory),
    }
}

/// Counts an end where no byte came into a slice that isn't empty.
fn count_end(count: usize, room: usize, ends: &mut u64)
    ensures { ends.new ≡ ends_by count room ends.old }
{
    if count == 0 && room > 0 {
        raise(ends);
    }
}

/// Counts a receive that gave bytes.
fn count_gain(count: usize, gains: &mut u64)
    ensures zero { count ≡ 0 → gains.new ≡ gains.old }
    ensures some { 0 < count → gains.new ≡ raised gains.old }
{
    if count != 0 {
        raise(gains);
    }
}
