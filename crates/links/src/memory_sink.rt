//! A sink in memory, which takes pieces, has so much room, and fails at the calls that it is told.
ghost use Rattle.std.specs.Io.KnownBytes.{WriteAppends};
ghost use Rattle.std.specs.Io.{WritesAtMost};
ghost use Rattle.std.specs.Prelude.{[], ◌-◌, ◌<◌, ◌≡◌, ◌↔◌, ◌≤◌, IfOk, IsErr, IsTrue, Some, length, take};
ghost use Rattle.links.specs.Causes.{HasCause};
ghost use Rattle.links.specs.Memory.{MemorySinkView, sink_after, write_count, write_fails};

use crate::counts::{fails_now, raise};
use crate::{Failed, Sink};
use std::alloc::{AllocError, Global};
use std::marker::Model;

/// A sink with room for so many bytes. Each write takes at most `piece` bytes; the k-th write, counted from 0,
/// fails where k is in `fails`, and a write of a piece that isn't empty fails where the room is full.
#[derive(Debug, Drop)]
pub struct MemorySink {
    kept: Vec<u8>,
    at: usize,
    piece: u64,
    fails: Vec<u64>,
    calls: u64,
    faults: u64,
}

impl Model for MemorySink {
    ghost Value = { MemorySinkView };

    ghost view = { λ s. record {
      taken = take s.at s.kept.items;
      room = length s.kept.items - s.at;
      piece = s.piece;
      fails = s.fails.items;
      calls = s.calls;
      faults = s.faults;
    } };

    ghost invariant = { λ s. (s.at ≤ length s.kept.items) × (1 ≤ s.piece) };
}

impl MemorySink {
    /// A sink that took nothing, with room for `room` bytes, which are taken here, and pieces of at least 1.
    pub fn new(
        alloc: Global,
        room: u64,
        piece: u64,
        fails: Vec<u64>,
    ) -> Result<MemorySink, AllocError>
        requires { 1 ≤ piece }
        ensures { IfOk result (λ sink. sink ≡ record {
          taken = [];
          room = room;
          piece = piece;
          fails = fails.items;
          calls = 0;
          faults = 0;
        }) }
    {
        Ok(MemorySink {
            kept: vec![in alloc; 0; room as usize]?,
            at: 0,
            piece,
            fails,
            calls: 0,
            faults: 0,
        })
    }

    /// The bytes that it took, in order.
    pub fn taken(&self) -> &[u8]
        ensures { result.now ≡ self.now.taken }
    {
        &self.kept[..self.at]
    }
}

impl Sink for MemorySink {
    ghost taken = { λ s. Some s.taken };

    ghost write_faults = { λ s. s.faults };

    /// It takes no memory.
    fn write(&mut self, piece: &[u8]) -> Result<usize, Failed>
        ensures bound { WritesAtMost result piece.now }
        ensures moves { 0 < length piece.now → IfOk result (λ n. 1 ≤ n) }
        ensures bytes { WriteAppends (Some self.old.taken) (Some self.new.taken) result piece.now }
        ensures cause { HasCause self.old.faults self.new.faults result }
        ensures fails { IsErr result ↔ IsTrue (write_fails self.old (length piece.now)) }
        ensures count { IfOk result (λ n. n ≡ write_count self.old (length piece.now)) }
        ensures after { self.new ≡ sink_after self.old piece.now }
    {
        let room = self.kept.len() - self.at;
        if fails_now(&mut self.calls, &self.fails) || (room == 0 && !piece.is_empty()) {
            raise(&mut self.faults);
            return Err(Failed);
        }
        let count = piece.len().min(room).min(self.piece as usize);
        self.kept[self.at..self.at + count].copy_from_slice(&piece[..count]);
        self.at += count;
        Ok(count)
    }
}
