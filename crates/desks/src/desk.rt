//! What a desk is.
ghost use Rattle.std.specs.Prelude.{Bool, IfErr, IfOk, List, OnErr, OnOk, Option, [], ℕ, ◌++◌, ◌<◌, ◌∷◌, ◌≡◌};
ghost use Rattle.store_model.specs.Limits.{moment_limit};
ghost use Rattle.store_model.specs.Words.{Words as Said};
ghost use Rattle.wire_grammar.specs.Fits.{IsWithinLimits};
ghost use Rattle.desks.specs.Deeds.{Deed, DidAsk, DidNote, DidStop};
ghost use Rattle.desks.specs.Faults.{HasCounts, HasShown, HasStopped, IsFaultOf};
ghost use Rattle.desks.specs.declared.desk.DeskFault.{DeskFault as Fault};

use place_model::Heard;
use std::alloc::Global;
use store_model::Reply;
use wire_grammar::WireKind;
use wire_values::Words;

/// Why a desk didn't take a command, a note or a stop.
#[derive(Clone, Copy, Drop)]
pub enum DeskFault {
    /// The link to the store failed or ended.
    Link,
    /// What the link gave is no RESP2: what is wrong, and how many bytes stand before the faulty one.
    Wire { kind: WireKind, place: u64 },
    /// 1,025 pushed values came before one reply.
    Flood,
    /// The store's history is full, with so many entries and so many bytes.
    Full { entries: u64, bytes: u64 },
    /// The store's history is closed.
    Closed,
    /// This desk answered a fault before, or was stopped.
    Ended,
    /// There was no memory.
    Memory,
}

/// One client's place at a store. After a fault or a stop a desk answers `Ended` to everything.
pub trait Desk {
    /// These deeds lead from the one state to the other.
    ghost goes: { Self → List Deed → Self → Type 0 };

    /// This command was asked from the one state on, and this fault was answered, which leads to the other.
    ghost refuses: { Self → Said → Fault → Self → Type 0 };

    /// The first fault that it answered.
    ghost fault: { Self → Option Fault };

    /// Whether it was stopped.
    ghost stopped: { Self → Bool };

    /// How often its link failed.
    ghost faults: { Self → ℕ };

    /// How often its link ended.
    ghost ends: { Self → ℕ };

    /// Whether there is a link between it and its store.
    ghost remote: { Bool };

    /// Whether its store has a history that others share, which can be full or closed.
    ghost shared: { Bool };

    /// Hands over a command, with the moment in seconds, which is below 2^40; its words are within the limits of RESP2
    /// here. Each fault comes as `DeskFault` says, and the command that it ends is this one.
    fn ask(&mut self, alloc: Global, at: u64, words: &Words) -> Result<Reply, DeskFault>
        requires moment { at < moment_limit }
        requires words { IsWithinLimits words.now }
        ensures ok { IfOk result (λ reply. goes self.old (DidAsk at words.now reply ∷ []) self.new) }
        ensures err { OnErr result (goes self.old [] self.new) }
        ensures refused { IfErr result (λ f. refuses self.old words.now f self.new) }
        ensures shown { HasShown (fault self.old) (stopped self.old) (fault self.new) (stopped self.new) result }
        ensures kinds { IfErr result (IsFaultOf remote shared (faults self.old) (faults self.new) (ends self.old) (ends self.new)) }
        ensures counts { HasCounts (faults self.old) (faults self.new) (ends self.old) (ends self.new) };

    /// Tells a note. Each fault comes as `DeskFault` says.
    fn tell(&mut self, alloc: Global, heard: Heard) -> Result<(), DeskFault>
        ensures ok { OnOk result (goes self.old (DidNote heard ∷ []) self.new) }
        ensures err { OnErr result (goes self.old [] self.new) }
        ensures shown { HasShown (fault self.old) (stopped self.old) (fault self.new) (stopped self.new) result }
        ensures kinds { IfErr result (IsFaultOf remote shared (faults self.old) (faults self.new) (ends self.old) (ends self.new)) }
        ensures counts { HasCounts (faults self.old) (faults self.new) (ends self.old) (ends self.new) };

    /// Leaves the store. Each fault comes as `DeskFault` says.
    fn stop(&mut self, alloc: Global) -> Result<(), DeskFault>
        ensures ok { OnOk result (goes self.old (DidStop ∷ []) self.new) }
        ensures err { OnErr result (goes self.old [] self.new) }
        ensures shown { HasStopped (fault self.old) (stopped self.old) (fault self.new) (stopped self.new) result }
        ensures kinds { IfErr result (IsFaultOf remote shared (faults self.old) (faults self.new) (ends self.old) (ends self.new)) }
        ensures counts { HasCounts (faults self.old) (faults self.new) (ends self.old) (ends self.new) };

    /// Nothing leads from a state to itself.
    ghost stays: { (s : Self) → goes s [] s };

    /// What leads on from where other deeds led is the one list after the other.
    ghost joins: { (s t u : Self) (l m : List Deed) → goes s l t → goes t m u → goes s (l ++ m) u };
}
