//! A book of one asker's own.
ghost use Rattle.std.specs.Prelude.{◌≡◌, None, IsTrue};

use crate::{Asks, BookAnswer, BookAsk, PoolBook};
use desks::DeskFault;
use std::alloc::Global;
use turn_lock::TurnFault;

/// A book with one asker. It answers no fault but want of memory, and after that nothing more.
#[derive(Drop)]
pub struct PlainBook {
    book: PoolBook,
    fault: Option<DeskFault>,
}

impl PlainBook {
    /// An asker of this book; takes no memory.
    pub fn new(book: PoolBook) -> PlainBook
        ensures book { result.book ≡ book }
        ensures whole { ⟦<PlainBook as Asks>⟧.fault result ≡ None }
    {
        PlainBook { book, fault: None }
    }

    /// Whether it answered no fault; takes no memory.
    pub fn is_whole(&self) -> bool
        ensures { IsTrue result → ⟦<PlainBook as Asks>⟧.fault self.now ≡ None }
    {
        self.fault.is_none()
    }
}

impl Asks for PlainBook {
    ghost use Rattle.pool_book.specs.Books.{pool_book_of};
    ghost use Rattle.pool_book.specs.BookRuns.{BookGoes, BookGoes-stays, BookGoes-joins, whole_book};

    ghost goes = { λ s l t. BookGoes (whole_book s.fault (pool_book_of s.book)) l (whole_book t.fault (pool_book_of t.book)) };

    ghost fault = { λ s. s.fault };

    ghost stays = { λ s. BookGoes-stays (whole_book s.fault (pool_book_of s.book)) };

    ghost joins = { λ s t u. BookGoes-joins (whole_book s.fault (pool_book_of s.book)) (whole_book t.fault (pool_book_of t.book)) (whole_book u.fault (pool_book_of u.book)) };

    #[tactic(auto, using(crate::proofs::Answering::answered, crate::proofs::Answering::refused, crate::proofs::Answering::shut_out, crate::proofs::Answering::answers_kind))]
    fn ask(&mut self, alloc: Global, ask: BookAsk) -> Result<BookAnswer, TurnFault> {
        if self.fault.is_some() {
            return Err(TurnFault::Memory);
        }
        match self.book.call(alloc, ask) {
            Ok(answer) => Ok(answer),
            Err(_) => {
                self.fault = Some(DeskFault::Memory);
                Err(TurnFault::Memory)
            }
        }
    }
}
