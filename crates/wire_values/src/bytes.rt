//! A byte string.
ghost use Rattle.std.specs.Bool.{nat_eq};
ghost use Rattle.std.specs.Cmp.Lexicographic.{nat_list_cmp_total, nat_list_eq_equiv, pointwise, texts_po, texts_ties};
ghost use Rattle.std.specs.Cmp.{partial_equiv_from_equiv};
ghost use Rattle.std.specs.Prelude.{◌≡◌, [], ◌∷◌, ◌++◌, IfOk, IsTrue, OnOk, OnErr, Some, length, refl, ◌↔◌};
ghost use Rattle.wire_values.specs.Order.{bytes_cmp};

use std::alloc::{AllocError, Global};
use std::cmp::Ordering;
use std::marker::Model;

/// A byte string of any content, seen by contracts as the list of its bytes. An empty one takes no memory.
///
/// Byte strings are ordered byte by byte, a front before what goes on from it, as Redis orders members of a set.
#[derive(Debug, Drop)]
pub struct Bytes {
    kept: Option<Vec<u8>>,
}

impl Model for Bytes {
    ghost use Rattle.std.specs.Prelude.{List as Listed, ℕ};
    ghost use Rattle.wire_values.specs.Kept.{kept_items};

    ghost Value = { Listed ℕ };

    ghost view = { λ b. kept_items b.kept };
}

impl Bytes {
    /// No bytes.
    pub fn new() -> Self
        ensures { result ≡ [] }
    {
        Bytes { kept: None }
    }

    /// The bytes of a vector, without a copy.
    pub fn from_vec(bytes: Vec<u8>) -> Self
        ensures { result ≡ bytes.items }
    {
        Bytes { kept: Some(bytes) }
    }

    /// The bytes as a vector, without a copy.
    pub fn into_vec(self, alloc: Global) -> Vec<u8>
        ensures { result.items ≡ self }
    {
        match self.kept {
            Some(bytes) => bytes,
            None => Vec::new(alloc),
        }
    }

    /// A copy of a slice.
    pub fn from_slice(alloc: Global, bytes: &[u8]) -> Result<Self, AllocError>
        ensures { IfOk result (λ made. made ≡ bytes.now) }
    {
        Ok(Bytes::from_vec(Vec::from_slice(alloc, bytes)?))
    }

    /// Adds a byte at the end; without memory nothing changes.
    pub fn push(&mut self, alloc: Global, byte: u8) -> Result<(), AllocError>
        ensures ok { OnOk result (self.new ≡ self.old ++ byte ∷ []) }
        ensures err { OnErr result (self.new ≡ self.old) }
    {
        match &mut self.kept {
            Some(bytes) => bytes.push(byte)?,
            None => {
                let mut bytes = Vec::new(alloc);
                bytes.push(byte)?;
                self.kept = Some(bytes);
            }
        }
        Ok(())
    }

    /// Adds bytes at the end; without memory nothing changes.
    pub fn extend(&mut self, alloc: Global, more: &[u8]) -> Result<(), AllocError>
        ensures ok { OnOk result (self.new ≡ self.old ++ more.now) }
        ensures err { OnErr result (self.new ≡ self.old) }
    {
        match &mut self.kept {
            Some(bytes) => bytes.extend_from_slice(more)?,
            None => {
                let bytes = Vec::from_slice(alloc, more)?;
                self.kept = Some(bytes);
            }
        }
        Ok(())
    }

    /// The bytes.
    pub fn as_slice(&self) -> &[u8]
        ensures { result.now ≡ self.now }
    {
        match &self.kept {
            Some(bytes) => bytes.as_slice(),
            None => &[],
        }
    }

    /// How many bytes there are.
    pub fn len(&self) -> usize
        ensures { result ≡ length self.now }
    {
        self.as_slice().len()
    }

    /// Whether there is no byte.
    pub fn is_empty(&self) -> bool
        ensures { IsTrue result ↔ (self.now ≡ []) }
    {
        self.as_slice().is_empty()
    }

    /// The same bytes once more.
    pub fn copy(&self, alloc: Global) -> Result<Self, AllocError>
        ensures { IfOk result (λ made. made ≡ self.now) }
    {
        Bytes::from_slice(alloc, self.as_slice())
    }
}

impl PartialEq for Bytes {
    ghost eq = { pointwise nat_eq };

    ghost laws = { partial_equiv_from_equiv nat_list_eq_equiv };

    fn eq(&self, other: &Self) -> bool {
        self.as_slice() == other.as_slice()
    }
}

impl Eq for Bytes {
    ghost laws = { nat_list_eq_equiv };
}

impl PartialOrd for Bytes {
    ghost partial_cmp = { λ x y. Some (bytes_cmp x y) };

    ghost laws = { texts_po };

    fn partial_cmp(&self, other: &Self) -> Option<Ordering> {
        Some(self.cmp(other))
    }
}

impl Ord for Bytes {
    ghost cmp = { bytes_cmp };

    ghost total = { nat_list_cmp_total };

    ghost matches_partial_cmp = { λ x y. refl };

    ghost matches_eq = { texts_ties };

    fn cmp(&self, other: &Self) -> Ordering {
        self.as_slice().cmp(other.as_slice())
    }
}
