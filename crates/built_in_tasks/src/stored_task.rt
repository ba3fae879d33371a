//! A stored closure beside the rule that its answers keep.
ghost use Rattle.std.specs.Prelude.{◌≡◌, string_bytes};
ghost use Rattle.std.specs.Result.{ForOk};
ghost use Rattle.serde_json.specs.View.{view as data_of};
ghost use Rattle.built_in_tasks.specs.BuiltIns.{IsBuiltIn};

use envelope::Tree;
use place_model::Outcome;
use std::alloc::AllocError;
use task_registry::{Body, Rule};

/// What is run for a task, on positional arguments and keyword arguments.
pub type Closure = Box<dyn Fn(&Tree, &Tree) -> Result<Outcome, AllocError> + Send + Sync>;

/// A closure by its name. It may be called on all arguments, and its outcomes keep the rule of the
/// built-in tasks.
#[derive(Drop)]
pub struct StoredTask {
    name: String,
    body: Closure,
    ghost callable: { IsAlwaysCallable body },
    ghost lawful: { (args : _) (kwargs : _) (outcome : _) → post body args kwargs outcome → ForOk outcome (λ o. ∥ IsBuiltIn (string_bytes name) (data_of args.now) (data_of kwargs.now) o ∥₁) },
}

impl StoredTask {
    /// A closure as a task.
    pub fn new(name: String, body: Closure) -> Self
        requires callable { IsAlwaysCallable body }
        requires lawful { (args : _) (kwargs : _) (outcome : _) → post body args kwargs outcome → ForOk outcome (λ o. ∥ IsBuiltIn (string_bytes name) (data_of args.now) (data_of kwargs.now) o ∥₁) }
        ensures { result.name ≡ name }
    {
        StoredTask { name, body }
    }
}

impl Rule for StoredTask {
    ghost lawful = { IsBuiltIn };
}

impl Body for StoredTask {
    ghost use Rattle.std.specs.Prelude.{string_bytes};

    ghost name_of = { λ t. string_bytes t.name };

    fn name(&self) -> &[u8] {
        self.name.as_str().as_bytes()
    }

    fn call(&self, args: &Tree, kwargs: &Tree) -> Result<Outcome, AllocError> {
        (self.body)(args, kwargs)
    }
}
