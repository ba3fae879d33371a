//! What a stored task is.
ghost use Rattle.std.specs.Prelude.{List, IsUtf8, ℕ, ◌≡◌};
ghost use Rattle.std.specs.Result.{ForOk};
ghost use Rattle.place_model.specs.declared.heard.Outcome.{Outcome as Ended};
ghost use Rattle.serde_json.specs.Data.{Data};
ghost use Rattle.serde_json.specs.View.{view as data_of};

use envelope::Tree;
use place_model::Outcome;
use std::alloc::AllocError;

/// Which outcomes tasks may have.
pub trait Rule {
    /// Of a task's name, its positional arguments and its keyword arguments, an outcome that is allowed.
    ghost lawful: { List ℕ → Data → Data → Ended → Type 0 };
}

/// A stored task, which keeps the rule for its name.
pub trait Body: Rule + Drop {
    /// Its name.
    ghost name_of: { Self → List ℕ };

    /// The name, UTF-8, as `tasks.add`; takes no memory.
    fn name(&self) -> &[u8]
        ensures name { result.now ≡ name_of self.now }
        ensures text { IsUtf8 result.now };

    /// Runs the task on positional arguments and keyword arguments.
    ///
    /// # Errors
    /// Want of memory.
    fn call(&self, args: &Tree, kwargs: &Tree) -> Result<Outcome, AllocError>
        ensures { ForOk result (λ outcome. ∥ Self.lawful (name_of self.now) (data_of args.now) (data_of kwargs.now) outcome ∥₁) };
}
