//! Who asks a book.
ghost use Rattle.std.specs.Prelude.{IfOk, List, OnErr, Option, [], ◌++◌, ◌∷◌};
ghost use Rattle.desks.specs.declared.desk.DeskFault.{DeskFault as Fault};
ghost use Rattle.pool_book.specs.Acts.{HasAskedBook, IsBookAnswer, Query, query};

use crate::{BookAnswer, BookAsk};
use std::alloc::Global;
use turn_lock::TurnFault;

/// One that asks a book, which others may ask too. Its faults are shown as the faults of a desk are.
pub trait Asks {
    /// These asks with their answers lead from the one state to the other.
    ghost goes: { Self → List Query → Self → Type 0 };

    /// The first fault that it answered.
    ghost fault: { Self → Option Fault };

    /// Asks the book. Each answer is one that the ask may have.
    ///
    /// # Errors
    /// `Full` and `Closed` where the book's history is so; `Memory` is want of memory.
    fn ask(&mut self, alloc: Global, ask: BookAsk) -> Result<BookAnswer, TurnFault>
        ensures ok { IfOk result (λ answer. goes self.old (query ask answer ∷ []) self.new) }
        ensures kind { IfOk result (λ answer. IsBookAnswer ask answer) }
        ensures err { OnErr result (goes self.old [] self.new) }
        ensures shown { HasAskedBook (fault self.old) (fault self.new) result };

    /// Nothing leads from a state to itself.
    ghost stays: { (s : Self) → goes s [] s };

    /// What leads on from where other asks led is the one list after the other.
    ghost joins: { (s t u : Self) (l m : List Query) → goes s l t → goes t m u → goes s (l ++ m) u };
}
