//! The desk.
ghost use Rattle.std.specs.Io.KnownBytes.{Appends, Keeps};
ghost use Rattle.std.specs.Prelude.{IfErr, IfOk, List, OnErr, OnOk, [], false, true, ℕ, ◌<◌, ◌^◌, ◌∷◌, ◌≡◌};
ghost use Rattle.wire_grammar.specs.Fits.{IsWithinLimits};
ghost use Rattle.resp_wire.specs.Stands.{Stands};
ghost use Rattle.desks.specs.Deeds.{DidAsk, DidNote, DidStop};
ghost use Rattle.desks.specs.Faults.{HasCounts, HasShown, HasStopped, IsFaultOf, IsOpen};
ghost use Rattle.link_desk.specs.Exchanges.{HasExchanged, RefusesWords};
ghost use Rattle.link_desk.specs.Hearings.{HasLinkCause};
ghost use Rattle.link_desk.specs.LinkDeeds.{CarriesDeeds, link_desk_view, standing_of};

use crate::hearing::Hearing;
use crate::replying::reply;
use crate::saying::say;
use desks::{Desk, DeskFault, DeskStanding};
use net_links::Link;
use place_model::Heard;
use std::alloc::Global;
use store_model::Reply;
use wire_values::{List, Words};

/// A client's place at a store that is reached over a link. For each command it sends the command once, and receives one
/// reply; after a fault or a stop it neither sends nor receives anything. What came behind a reply is the beginning of
/// what answers the next command.
#[derive(Drop)]
pub struct LinkDesk<L> {
    link: L,
    hearing: Hearing,
    out: Vec<u8>,
    notes: List<Heard>,
    standing: DeskStanding,
}

impl<L> LinkDesk<L> {
    /// A desk over a link; takes no memory.
    pub fn new(alloc: Global, link: L) -> LinkDesk<L>
        ensures link { result.link ≡ link }
        ensures notes { result.notes ≡ [] }
        ensures stands { Stands result.hearing.decoder 0 [] }
        ensures open { IsOpen result.standing.fault result.standing.stopped }
    {
        LinkDesk {
            link,
            hearing: Hearing::new(alloc),
            out: Vec::new(alloc),
            notes: List::new(),
            standing: DeskStanding::new(),
        }
    }

    /// The notes that were told to it, in order; takes no memory.
    pub fn notes(&self) -> &[Heard]
        ensures { result.now ≡ self.now.notes }
    {
        self.notes.as_slice()
    }
}

impl<L: Drop> LinkDesk<L> {
    /// The link; takes no memory.
    pub fn into_link(self) -> L
        ensures { result ≡ self.link }
    {
        self.link
    }
}

/// Sends a command whole, once, and receives one reply: all that an open desk does at an `ask`. `out` is the room for the
/// command's bytes.
///
/// `Link` comes where the link failed or ended, `Wire` at the fault of what came, `Flood` after one pushed value more than
/// may come before a reply, `Memory` where there is no memory; no other fault comes.
pub fn exchange<L: Link>(
    alloc: Global,
    link: &mut L,
    hearing: &mut Hearing,
    out: &mut Vec<u8>,
    words: &Words,
) -> Result<Reply, DeskFault>
    ensures exchanged { HasExchanged (L.sent link.old) (L.sent link.new) (L.received link.old) (L.received link.new)
        hearing.old.decoder hearing.new.decoder words.now result }
    ensures cause { HasLinkCause (L.faults link.old) (L.faults link.new) (L.ends link.old) (L.ends link.new) result }
{
    match say(alloc, link, out, words) {
        Ok(()) => reply(alloc, link, hearing),
        Err(fault) => Err(fault),
    }
}

impl<L: Link> Desk for LinkDesk<L> {
    ghost use Rattle.std.specs.Prelude.{false, true};
    ghost use Rattle.link_desk.specs.CarriesLaws.{CarriesDeeds-stays, CarriesDeeds-joins};

    ghost goes = { λ s l t. CarriesDeeds
        (link_desk_view (standing_of s.standing.fault s.standing.stopped) (L.sent s.link) (L.received s.link) s.hearing.decoder s.notes)
        l
        (link_desk_view (standing_of t.standing.fault t.standing.stopped) (L.sent t.link) (L.received t.link) t.hearing.decoder t.notes) };

    ghost refuses = { λ s words f t. RefusesWords
        (link_desk_view (standing_of s.standing.fault s.standing.stopped) (L.sent s.link) (L.received s.link) s.hearing.decoder s.notes)
        words f
        (link_desk_view (standing_of t.standing.fault t.standing.stopped) (L.sent t.link) (L.received t.link) t.hearing.decoder t.notes) };

    ghost fault = { λ s. s.standing.fault };

    ghost stopped = { λ s. s.standing.stopped };

    ghost faults = { λ s. L.faults s.link };

    ghost ends = { λ s. L.ends s.link };

    ghost remote = { true };

    ghost shared = { false };

    ghost stays = { λ s. CarriesDeeds-stays
        (link_desk_view (standing_of s.standing.fault s.standing.stopped) (L.sent s.link) (L.received s.link) s.hearing.decoder s.notes) };

    ghost joins = { λ s t u. CarriesDeeds-joins
        (link_desk_view (standing_of s.standing.fault s.standing.stopped) (L.sent s.link) (L.received s.link) s.hearing.decoder s.notes)
        (link_desk_view (standing_of t.standing.fault t.standing.stopped) (L.sent t.link) (L.received t.link) t.hearing.decoder t.notes)
        (link_desk_view (standing_of u.standing.fault u.standing.stopped) (L.sent u.link) (L.received u.link) u.hearing.decoder u.notes) };

    fn ask(&mut self, alloc: Global, _at: u64, words: &Words) -> Result<Reply, DeskFault> {
        match self.standing.enter() {
            Ok(()) => {}
            Err(fault) => return Err(fault),
        }
        match exchange(
            alloc,
            &mut self.link,
            &mut self.hearing,
            &mut self.out,
            words,
        ) {
            Ok(reply) => Ok(reply),
            Err(fault) => Err(self.standing.refuse(fault)),
        }
    }

    fn tell(&mut self, alloc: Global, heard: Heard) -> Result<(), DeskFault>
        ensures ok { OnOk result (CarriesDeeds
            (link_desk_view (standing_of self.old.standing.fault self.old.standing.stopped) (L.sent self.old.link) (L.received self.old.link) self.old.hearing.decoder self.old.notes)
            (DidNote heard ∷ [])
            (link_desk_view (standing_of self.new.standing.fault self.new.standing.stopped) (L.sent self.new.link) (L.received self.new.link) self.new.hearing.decoder self.new.notes)) }
        ensures err { OnErr result (CarriesDeeds
            (link_desk_view (standing_of self.old.standing.fault self.old.standing.stopped) (L.sent self.old.link) (L.received self.old.link) self.old.hearing.decoder self.old.notes)
            []
            (link_desk_view (standing_of self.new.standing.fault self.new.standing.stopped) (L.sent self.new.link) (L.received self.new.link) self.new.hearing.decoder self.new.notes)) }
        ensures shown { HasShown self.old.standing.fault self.old.standing.stopped self.new.standing.fault self.new.standing.stopped result }
        ensures kinds { IfErr result (IsFaultOf true false (L.faults self.old.link) (L.faults self.new.link) (L.ends self.old.link) (L.ends self.new.link)) }
        ensures counts { HasCounts (L.faults self.old.link) (L.faults self.new.link) (L.ends self.old.link) (L.ends self.new.link) }
        ensures link { self.new.link ≡ self.old.link }
        ensures hearing { self.new.hearing ≡ self.old.hearing }
    {
        match self.standing.enter() {
            Ok(()) => {}
            Err(fault) => return Err(fault),
        }
        match self.notes.push(alloc, heard) {
            Ok(()) => Ok(()),
            Err(_) => Err(self.standing.refuse(DeskFault::Memory)),
        }
    }

    fn stop(&mut self, _alloc: Global) -> Result<(), DeskFault>
        ensures ok { OnOk result (CarriesDeeds
            (link_desk_view (standing_of self.old.standing.fault self.old.standing.stopped) (L.sent self.old.link) (L.received self.old.link) self.old.hearing.decoder self.old.notes)
            (DidStop ∷ [])
            (link_desk_view (standing_of self.new.standing.fault self.new.standing.stopped) (L.sent self.new.link) (L.received self.new.link) self.new.hearing.decoder self.new.notes)) }
        ensures err { OnErr result (CarriesDeeds
            (link_desk_view (standing_of self.old.standing.fault self.old.standing.stopped) (L.sent self.old.link) (L.received self.old.link) self.old.hearing.decoder self.old.notes)
            []
            (link_desk_view (standing_of self.new.standing.fault self.new.standing.stopped) (L.sent self.new.link) (L.received self.new.link) self.new.hearing.decoder self.new.notes)) }
        ensures shown { HasStopped self.old.standing.fault self.old.standing.stopped self.new.standing.fault self.new.standing.stopped result }
        ensures kinds { IfErr result (IsFaultOf true false (L.faults self.old.link) (L.faults self.new.link) (L.ends self.old.link) (L.ends self.new.link)) }
        ensures counts { HasCounts (L.faults self.old.link) (L.faults self.new.link) (L.ends self.old.link) (L.ends self.new.link) }
        ensures link { self.new.link ≡ self.old.link }
        ensures hearing { self.new.hearing ≡ self.old.hearing }
    {
        match self.standing.enter() {
            Ok(()) => {}
            Err(fault) => return Err(fault),
        }
        self.standing.stopped = true;
        Ok(())
    }
}
