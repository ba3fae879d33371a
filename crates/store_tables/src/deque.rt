//! A list that grows and shrinks at both ends.
ghost use Rattle.std.specs.Iterator.Runs.{YieldsRefsInOrder};
ghost use Rattle.std.specs.List.{list_any};
ghost use Rattle.std.specs.VecDeque.Iter.{deque_iter_rest, deque_iter_steps};
ghost use Rattle.std.specs.Prelude.{◌≡◌, [], ◌∷◌, ◌++◌, IfOk, IfSome, IfNone, filter, not, nat_lt, OnOk, OnErr, length, IsTrue, ◌↔◌, bytes_eq};

use std::alloc::{AllocError, Global};
use std::collections::VecDeque;
use std::collections::vec_deque::Iter;
use std::marker::Model;
use wire_values::Bytes;

/// A list of values that grows and shrinks at both ends, seen by contracts as that list.
#[derive(Debug, Drop)]
pub struct Deque<T> {
    kept: VecDeque<T>,
}

impl<T> Model for Deque<T> {
    ghost use Rattle.std.specs.Prelude.{List as Listed};
    ghost use Rattle.std.specs.Coded.{coded_list};

    ghost Value = { Listed T };

    ghost coded = { coded_list T.code };

    ghost view = { λ d. d.kept.items };
}

impl<T> Deque<T> {
    /// No values; takes no memory.
    pub fn new(alloc: Global) -> Self
        ensures { result ≡ [] }
    {
        Deque {
            kept: VecDeque::new(alloc),
        }
    }

    /// Takes the first value.
    pub fn pop_front(&mut self) -> Option<T>
        ensures some { IfSome result (λ item. self.old ≡ item ∷ self.new) }
        ensures none { IfNone result (self.old ≡ []) }
        ensures same { IfNone result (self.new ≡ []) }
    {
        self.kept.pop_front()
    }

    /// Takes the last value.
    pub fn pop_back(&mut self) -> Option<T>
        ensures some { IfSome result (λ item. self.old ≡ self.new ++ item ∷ []) }
        ensures none { IfNone result (self.old ≡ []) }
        ensures same { IfNone result (self.new ≡ []) }
    {
        self.kept.pop_back()
    }
}

impl<T: Drop> Deque<T> {
    /// The values from the front on.
    pub fn iter(&self) -> Iter<'_, T>
        ensures rest { deque_iter_rest result ≡ self.now }
        ensures runs { YieldsRefsInOrder (deque_iter_steps {X = T}) deque_iter_rest }
    {
        self.kept.iter()
    }

    /// How many values there are.
    pub fn len(&self) -> usize
        ensures { result ≡ length self.now }
    {
        self.kept.len()
    }

    /// Whether there is no value.
    pub fn is_empty(&self) -> bool
        ensures { IsTrue result ↔ (length self.now ≡ 0) }
    {
        self.kept.len() == 0
    }

    /// Adds a value at the end; without memory nothing changes.
    pub fn push(&mut self, item: T) -> Result<(), AllocError>
        ensures ok { OnOk result (self.new ≡ self.old ++ item ∷ []) }
        ensures err { OnErr result (self.new ≡ self.old) }
    {
        Ok(self.kept.push_back(item)?)
    }

    /// Adds a value at the front; without memory nothing changes.
    pub fn push_front(&mut self, item: T) -> Result<(), AllocError>
        ensures ok { OnOk result (self.new ≡ item ∷ self.old) }
        ensures err { OnErr result (self.new ≡ self.old) }
    {
        Ok(self.kept.push_front(item)?)
    }
}

impl<T: Drop> Deque<T> {
    /// Adds the values of another list at the end; without memory nothing changes.
    pub fn append(&mut self, mut more: Deque<T>) -> Result<(), AllocError>
        ensures ok { OnOk result (self.new ≡ self.old ++ more) }
        ensures err { OnErr result (self.new ≡ self.old) }
    {
        self.kept.append(&mut more.kept)
    }
}

impl Deque<Bytes> {
    /// Whether one of these texts is among the values.
    pub fn has_any(&self, texts: &Deque<Bytes>) -> bool
        ensures { result ≡ list_any (λ text. list_any (bytes_eq text) self.now) texts.now }
    {
        texts.kept.iter().any(|text| self.has(text))
    }

    /// Whether one of the texts has more bytes than this.
    pub fn has_longer(&self, most: usize) -> bool
        ensures { result ≡ list_any (λ one. nat_lt most (length one)) self.now }
    {
        self.kept.iter().any(|one| one.len() > most)
    }

    /// Copies of these texts.
    pub fn copied(alloc: Global, texts: &[Bytes]) -> Result<Self, AllocError>
        ensures { IfOk result (λ made. made ≡ texts.now) }
    {
        let mut made = Deque::new(alloc);
        for text in texts {
            made.push(text.copy(alloc)?)?;
        }
        Ok(made)
    }

    /// Takes out each value that is this text.
    pub fn take_out(&mut self, text: &Bytes)
        ensures { self.new ≡ filter (λ one. not (bytes_eq text.now one)) self.old }
    {
        self.kept.retain(|one| *text != *one);
    }

    /// Whether this text is among the values.
    pub fn has(&self, text: &Bytes) -> bool
        ensures { result ≡ list_any (bytes_eq text.now) self.now }
    {
        self.kept.iter().any(|one| *text == *one)
    }
}
