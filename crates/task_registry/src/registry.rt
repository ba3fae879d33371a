//! The registry.
ghost use Rattle.std.specs.Prelude.{◌≡◌, ◌∷◌, [], ◌++◌, OnErr, OnOk, IfOk, IsErrOf, false, true};
ghost use Rattle.std.specs.Result.{ForOk};
ghost use Rattle.std.specs.List.Sorted.{IsPermutation, IsSorted};
ghost use Rattle.serde_json.specs.View.{view as data_of};
ghost use Rattle.wire_values.specs.Order.{bytes_cmp};
ghost use Rattle.task_registry.specs.Names.{has_name, names_of};
ghost use Rattle.task_registry.specs.declared.registry.RegistryFault.TheVariants.{Known, Memory, Unknown};

use crate::Body;
use envelope::Tree;
use place_model::Outcome;
use std::alloc::{AllocError, Global};
use wire_values::{Bytes, List, Words};

/// Stored tasks, each by its own name.
#[derive(Drop)]
pub struct Registry<B> {
    bodies: Vec<B>,
}

/// Why a task wasn't registered or wasn't run.
#[derive(Clone, Copy, Debug, PartialEq, Eq, Drop)]
pub enum RegistryFault {
    /// A task of this name is registered already.
    Known,
    /// No task of this name is registered.
    Unknown,
    /// There was no memory.
    Memory,
}

impl<B: Body> Registry<B> {
    /// No tasks; takes no memory.
    pub fn new(alloc: Global) -> Self
        ensures { names_of B.name_of result.bodies ≡ [] }
    {
        Registry {
            bodies: Vec::new(alloc),
        }
    }

    /// Whether a task of this name is registered; takes no memory.
    pub fn has(&self, name: &[u8]) -> bool
        ensures { result ≡ has_name name.now (names_of B.name_of self.now.bodies) }
    {
        for body in &self.bodies {
            if name == body.name() {
                return true;
            }
        }
        false
    }

    /// Registers a task.
    ///
    /// # Errors
    /// `Known` exactly where one of its name is registered already. Then, and without memory, nothing changes.
    pub fn register(&mut self, body: B) -> Result<(), RegistryFault>
        ensures ok { OnOk result (names_of B.name_of self.new.bodies ≡ names_of B.name_of self.old.bodies ++ B.name_of body ∷ []) }
        ensures same { OnErr result (self.new.bodies.items ≡ self.old.bodies.items) }
        ensures new { OnOk result (has_name (B.name_of body) (names_of B.name_of self.old.bodies) ≡ false) }
        ensures known { IsErrOf result Known → has_name (B.name_of body) (names_of B.name_of self.old.bodies) ≡ true }
        ensures unknown { IsErrOf result Unknown → ⊥ }
        ensures memory { IsErrOf result Memory → has_name (B.name_of body) (names_of B.name_of self.old.bodies) ≡ false }
    {
        if self.has(body.name()) {
            return Err(RegistryFault::Known);
        }
        match self.bodies.push(body) {
            Ok(()) => Ok(()),
            Err(_) => Err(RegistryFault::Memory),
        }
    }

    /// Runs the task of this name on positional arguments and keyword arguments. Its outcome keeps the rule.
    ///
    /// # Errors
    /// `Unknown` exactly where no task of this name is registered. `Memory` is want of memory.
    pub fn run(&self, name: &[u8], args: &Tree, kwargs: &Tree) -> Result<Outcome, RegistryFault>
        ensures lawful { ForOk result (λ outcome. ∥ B.lawful name.now (data_of args.now) (data_of kwargs.now) outcome ∥₁) }
        ensures there { OnOk result (has_name name.now (names_of B.name_of self.now.bodies) ≡ true) }
        ensures known { IsErrOf result Known → ⊥ }
        ensures unknown { IsErrOf result Unknown → has_name name.now (names_of B.name_of self.now.bodies) ≡ false }
        ensures memory { IsErrOf result Memory → has_name name.now (names_of B.name_of self.now.bodies) ≡ true }
    {
        for body in &self.bodies {
            if name == body.name() {
                return match body.call(args, kwargs) {
                    Ok(outcome) => Ok(outcome),
                    Err(_) => Err(RegistryFault::Memory),
                };
            }
        }
        Err(RegistryFault::Unknown)
    }

    /// The names, in byte order.
    pub fn names(&self, alloc: Global) -> Result<Words, AllocError>
        ensures all { IfOk result (λ names. IsPermutation (names_of B.name_of self.now.bodies) names) }
        ensures order { IfOk result (λ names. IsSorted bytes_cmp names) }
    {
        let mut names = Vec::new(alloc);
        for body in &self.bodies {
            names.push(Bytes::from_slice(alloc, body.name())?)?;
        }
        names.sort_unstable();
        Ok(List::from_vec(names))
    }
}
