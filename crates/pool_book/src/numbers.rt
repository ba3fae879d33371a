//! The numbers of deliveries.
ghost use Rattle.std.specs.Prelude.{◌≡◌, ◌++◌, ◌∷◌, [], OnErr, OnOk};
ghost use Rattle.pool_book.specs.Books.{was_put};

use std::alloc::{AllocError, Global};
use std::marker::Model;

/// Numbers of deliveries, in the order in which they came. While they rise, none is looked for among the earlier ones.
#[derive(Drop)]
pub struct Numbers {
    kept: Vec<u64>,
    top: u64,
}

impl Model for Numbers {
    ghost use Rattle.std.specs.Prelude.{◌≡◌, List as Listed, nat_le, true, ℕ};
    ghost use Rattle.std.specs.List.{list_all};

    ghost Value = { Listed ℕ };

    ghost view = { λ n. n.kept.items };

    ghost invariant = { λ n. list_all (λ m. nat_le m n.top) n.kept.items ≡ true };
}

impl Numbers {
    /// No numbers; takes no memory.
    pub fn new(alloc: Global) -> Numbers
        ensures { result ≡ [] }
    {
        Numbers {
            kept: Vec::new(alloc),
            top: 0,
        }
    }

    /// Whether a number is among them; takes no memory.
    #[tactic(auto, using(crate::proofs::Topped::above_all))]
    pub fn has(&self, number: u64) -> bool
        ensures { result ≡ was_put number self.now }
    {
        if number > self.top {
            return false;
        }
        self.kept.iter().any(|kept| *kept == number)
    }

    /// Adds a number at the end; without memory nothing changes.
    #[tactic(auto, using(crate::proofs::Topped::with_one))]
    pub fn add(&mut self, number: u64) -> Result<(), AllocError>
        ensures ok { OnOk result (self.new ≡ self.old ++ number ∷ []) }
        ensures err { OnErr result (self.new ≡ self.old) }
    {
        self.kept.push(number)?;
        self.top = self.top.max(number);
        Ok(())
    }
}
