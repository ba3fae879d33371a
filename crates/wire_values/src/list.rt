//! A list of values.
ghost use Rattle.std.specs.Prelude.{◌≡◌, [], ◌∷◌, ◌++◌, IfOk, IsTrue, OnOk, OnErr, length, ◌↔◌};

use std::alloc::{AllocError, Global};
use std::marker::Model;

/// A list of values over a vector, seen by contracts as that list. An empty one takes no memory.
#[derive(Debug, Drop)]
pub struct List<T> {
    kept: Option<Vec<T>>,
}

impl<T> Model for List<T> {
    ghost use Rattle.std.specs.Prelude.{List as Listed};
    ghost use Rattle.std.specs.Coded.{coded_list};
    ghost use Rattle.wire_values.specs.Kept.{kept_items};

    ghost Value = { Listed T };

    ghost coded = { coded_list T.code };

    ghost view = { λ l. kept_items l.kept };
}

impl<T> List<T> {
    /// No values.
    pub fn new() -> Self
        ensures { result ≡ [] }
    {
        List { kept: None }
    }

    /// The values of a vector, without a copy.
    pub fn from_vec(items: Vec<T>) -> Self
        ensures { result ≡ items.items }
    {
        List { kept: Some(items) }
    }

    /// The values as a vector, without a copy.
    pub fn into_vec(self, alloc: Global) -> Vec<T>
        ensures { result.items ≡ self }
    {
        match self.kept {
            Some(items) => items,
            None => Vec::new(alloc),
        }
    }

    /// The values in order.
    pub fn as_slice(&self) -> &[T]
        ensures { result.now ≡ self.now }
    {
        match &self.kept {
            Some(items) => items.as_slice(),
            None => &[],
        }
    }
}

impl<T: Drop> List<T> {
    /// Adds a value at the end; without memory nothing changes.
    pub fn push(&mut self, alloc: Global, item: T) -> Result<(), AllocError>
        ensures ok { OnOk result (self.new ≡ self.old ++ item ∷ []) }
        ensures err { OnErr result (self.new ≡ self.old) }
    {
        match &mut self.kept {
            Some(items) => items.push(item)?,
            None => {
                let mut items = Vec::new(alloc);
                items.push(item)?;
                self.kept = Some(items);
            }
        }
        Ok(())
    }
}
