//! A desk that has its store.
ghost use Rattle.std.specs.Prelude.{OnErr, OnOk, IfErr, IfOk, IsErrOf, [], false, true, ◌<◌, ◌^◌, ◌∷◌, ◌≡◌};
ghost use Rattle.store_model.specs.Store.{apply_of, gone_of};
ghost use Rattle.wire_grammar.specs.Fits.{IsWithinLimits};
ghost use Rattle.desks.specs.Deeds.{DidAsk, DidNote, DidStop};
ghost use Rattle.desks.specs.Faults.{HasCounts, HasShown, HasStopped, IsFaultOf, IsOpen};
ghost use Rattle.desks.specs.declared.desk.DeskFault.TheVariants.{Ended, Memory};
ghost use Rattle.plain_desk.specs.PlainAnswers.{IsPlainFault, StaysEnded};
ghost use Rattle.plain_desk.specs.StoreRuns.{LeadsOn, live_state};

use desks::{Desk, DeskFault, DeskStanding};
use mini_store::Store;
use place_model::Heard;
use std::alloc::Global;
use store_model::Reply;
use wire_values::Words;

/// A store with one client at it, by the number of its connection. It answers no fault but `Ended` and `Memory`; after
/// `Memory` the store is spent.
#[derive(Drop)]
pub struct PlainDesk {
    store: Store,
    conn: u32,
    standing: DeskStanding,
}

impl PlainDesk {
    /// A desk at this store; takes no memory.
    pub fn new(store: Store, conn: u32) -> PlainDesk
        ensures store { result.store ≡ store }
        ensures conn { result.conn ≡ conn }
        ensures open { IsOpen (⟦<PlainDesk as Desk>⟧.fault result) (⟦<PlainDesk as Desk>⟧.stopped result) }
    {
        PlainDesk {
            store,
            conn,
            standing: DeskStanding::new(),
        }
    }

    /// The store that is left, without all that the desk's connection had; takes no memory.
    pub fn into_store(self) -> Store
        ensures { result ≡ record self.store { state = gone_of self.store.state self.conn } }
    {
        let PlainDesk {
            mut store,
            conn,
            standing: _,
        } = self;
        store.gone(conn);
        store
    }
}

impl Desk for PlainDesk {
    ghost use Rattle.std.specs.Prelude.{false};
    ghost use Rattle.plain_desk.specs.StoreRuns.{LeadsOn-stays, LeadsOn-joins};

    ghost goes = { λ s l t. LeadsOn s.conn (live_state s.store.spent s.store.state) l t.conn (live_state t.store.spent t.store.state) };

    ghost refuses = { λ s words f t. IsPlainFault f };

    ghost fault = { λ s. s.standing.fault };

    ghost stopped = { λ s. s.standing.stopped };

    ghost faults = { λ s. 0 };

    ghost ends = { λ s. 0 };

    ghost remote = { false };

    ghost shared = { false };

    ghost stays = { λ s. LeadsOn-stays s.conn (live_state s.store.spent s.store.state) };

    ghost joins = { λ s t u. LeadsOn-joins s.conn t.conn u.conn (live_state s.store.spent s.store.state) (live_state t.store.spent t.store.state) (live_state u.store.spent u.store.state) };

    #[tactic(auto, using(crate::proofs::Desking::spent, crate::proofs::Desking::went, crate::proofs::Desking::timely))]
    fn ask(&mut self, alloc: Global, at: u64, words: &Words) -> Result<Reply, DeskFault>
        requires moment { at < 2 ^ 40 }
        requires words { IsWithinLimits words.now }
        ensures ok { IfOk result (λ reply. LeadsOn self.old.conn (live_state self.old.store.spent self.old.store.state) (DidAsk at words.now reply ∷ []) self.new.conn (live_state self.new.store.spent self.new.store.state)) }
        ensures err { OnErr result (LeadsOn self.old.conn (live_state self.old.store.spent self.old.store.state) [] self.new.conn (live_state self.new.store.spent self.new.store.state)) }
        ensures refused { IfErr result IsPlainFault }
        ensures shown { HasShown self.old.standing.fault self.old.standing.stopped self.new.standing.fault self.new.standing.stopped result }
        ensures kinds { IfErr result (IsFaultOf false false 0 0 0 0) }
        ensures counts { HasCounts 0 0 0 0 }
        ensures own { IfErr result IsPlainFault }
        ensures ended { StaysEnded self.old.standing.fault self.old.standing.stopped self.old.store self.new.store result }
        ensures answer { IfOk result (λ reply. (self.new.store.state, reply) ≡ apply_of self.old.store.state at self.old.conn words.now) }
        ensures memory { IsErrOf result Memory → self.new.store.spent ≡ true }
    {
        self.standing.enter()?;
        match self.store.apply(alloc, at, self.conn, words) {
            Ok(reply) => Ok(reply),
            Err(_) => Err(self.standing.refuse(DeskFault::Memory)),
        }
    }

    #[tactic(auto, using(crate::proofs::Desking::noted))]
    fn tell(&mut self, _alloc: Global, _heard: Heard) -> Result<(), DeskFault>
        ensures ok { OnOk result (LeadsOn self.old.conn (live_state self.old.store.spent self.old.store.state) (DidNote _heard ∷ []) self.new.conn (live_state self.new.store.spent self.new.store.state)) }
        ensures err { OnErr result (LeadsOn self.old.conn (live_state self.old.store.spent self.old.store.state) [] self.new.conn (live_state self.new.store.spent self.new.store.state)) }
        ensures shown { HasShown self.old.standing.fault self.old.standing.stopped self.new.standing.fault self.new.standing.stopped result }
        ensures kinds { IfErr result (IsFaultOf false false 0 0 0 0) }
        ensures counts { HasCounts 0 0 0 0 }
        ensures own { IfErr result (λ f. f ≡ Ended) }
        ensures ended { StaysEnded self.old.standing.fault self.old.standing.stopped self.old.store self.new.store result }
        ensures same { self.new.store ≡ self.old.store }
    {
        self.standing.enter()
    }

    #[tactic(auto, using(crate::proofs::Desking::left))]
    fn stop(&mut self, _alloc: Global) -> Result<(), DeskFault>
        ensures ok { OnOk result (LeadsOn self.old.conn (live_state self.old.store.spent self.old.store.state) (DidStop ∷ []) self.new.conn (live_state self.new.store.spent self.new.store.state)) }
        ensures err { OnErr result (LeadsOn self.old.conn (live_state self.old.store.spent self.old.store.state) [] self.new.conn (live_state self.new.store.spent self.new.store.state)) }
        ensures shown { HasStopped self.old.standing.fault self.old.standing.stopped self.new.standing.fault self.new.standing.stopped result }
        ensures kinds { IfErr result (IsFaultOf false false 0 0 0 0) }
        ensures counts { HasCounts 0 0 0 0 }
        ensures own { IfErr result (λ f. f ≡ Ended) }
        ensures ended { StaysEnded self.old.standing.fault self.old.standing.stopped self.old.store self.new.store result }
        ensures left { OnOk result (self.new.store ≡ record self.old.store { state = gone_of self.old.store.state self.old.conn }) }
    {
        self.standing.enter()?;
        self.store.gone(self.conn);
        self.standing.stopped = true;
        Ok(())
    }
}
