//! A source in memory, which gives pieces and fails at the calls that it is told.
ghost use Rattle.std.specs.Io.KnownBytes.{ReadConsumes};
ghost use Rattle.std.specs.Io.{ReadsAtMost};
ghost use Rattle.std.specs.Prelude.{◌≡◌, ◌↔◌, ◌≤◌, IfOk, IsErr, IsTrue, Some, length, drop};
ghost use Rattle.links.specs.Causes.{HasCause, HasEnds};
ghost use Rattle.links.specs.Memory.{MemorySourceView, read_count, read_fails, source_after};

use crate::counts::{fails_now, raise};
use crate::{Failed, Source};
use std::marker::Model;
use wire_values::Bytes;

/// A source over bytes. Each read gives at most `piece` bytes; the k-th read, counted from 0, fails where k is
/// in `fails`, and then moves nothing.
#[derive(Debug, Drop)]
pub struct MemorySource {
    bytes: Bytes,
    at: usize,
    piece: u64,
    fails: Vec<u64>,
    calls: u64,
    faults: u64,
    ends: u64,
}

impl Model for MemorySource {
    ghost Value = { MemorySourceView };

    ghost view = { λ s. record {
      left = drop s.at s.bytes;
      piece = s.piece;
      fails = s.fails.items;
      calls = s.calls;
      faults = s.faults;
      ends = s.ends;
    } };

    ghost invariant = { λ s. (s.at ≤ length s.bytes) × (1 ≤ s.piece) };
}

impl MemorySource {
    /// A source of these bytes, in pieces of at most `piece`, at least 1. It takes no memory.
    pub fn new(bytes: Bytes, piece: u64, fails: Vec<u64>) -> MemorySource
        requires { 1 ≤ piece }
        ensures { result ≡ record {
          left = bytes;
          piece = piece;
          fails = fails.items;
          calls = 0;
          faults = 0;
          ends = 0;
        } }
    {
        MemorySource {
            bytes,
            at: 0,
            piece,
            fails,
            calls: 0,
            faults: 0,
            ends: 0,
        }
    }
}

impl Source for MemorySource {
    ghost left = { λ s. Some s.left };

    ghost read_faults = { λ s. s.faults };

    ghost ends = { λ s. s.ends };

    fn read(&mut self, into: &mut [u8]) -> Result<usize, Failed>
        ensures bound { ReadsAtMost result into.new }
        ensures bytes { ReadConsumes (Some self.old.left) (Some self.new.left) result into.new }
        ensures cause { HasCause self.old.faults self.new.faults result }
        ensures end { HasEnds self.old.ends self.new.ends (length into.old) result }
        ensures fails { IsErr result ↔ IsTrue (read_fails self.old) }
        ensures count { IfOk result (λ n. n ≡ read_count self.old (length into.old)) }
        ensures after { self.new ≡ source_after self.old (length into.old) }
    {
        if fails_now(&mut self.calls, &self.fails) {
            raise(&mut self.faults);
            return Err(Failed);
        }
        let left = &self.bytes.as_slice()[self.at..];
        let count = left.len().min(into.len()).min(self.piece as usize);
        into[..count].copy_from_slice(&left[..count]);
        self.at += count;
        if count == 0 && !into.is_empty() {
            raise(&mut self.ends);
        }
        Ok(count)
    }
}
