//! What a decoder answers.
ghost use Rattle.std.specs.Prelude.{◌≡◌, ◌<◌, ◌≤◌, ◌++◌, [], ℕ, List, Err, IsErr, IsOk, None, false, length, IfOk, OnOk, OnErr, OnSome};
ghost use Rattle.wire_grammar.specs.declared.kind.WireKind.{WireKind as TheKind};
ghost use Rattle.resp_wire.specs.declared.decoder.WireFault.TheVariants.{Bad, Memory};
ghost use Rattle.resp_wire.specs.Stands.{HasMet, HasNext, IsSpentDecoder, Stands, held_to};
ghost use Rattle.resp_wire.specs.Moves.{HasCleared, HasCounted, HasFed, ahead_of, unread_of};

use crate::decoder::{Decoder, FoundFault, WireFault};
use crate::state::{Core, Phase, StepFault, WireSpot};
use std::alloc::{AllocError, Global};
use std::collections::VecDeque;
use wire_grammar::VALUE_LIMIT;
use wire_values::{Bytes, Value};

// The most bytes of room that are kept for the next piece.
const KEPT: usize = 65_536;

impl Decoder {
    /// A decoder at the beginning of a stream. It takes no memory.
    pub fn new(alloc: Global) -> Self
        ensures { Stands result 0 [] }
    {
        Decoder {
            core: Core {
                phase: Phase::At(WireSpot::Begin),
                number: 0,
                bytes: Bytes::new(),
                opens: VecDeque::new(alloc),
            },
            unread: Vec::new(alloc),
            at: 0,
            start: 0,
            held: 0,
            later: 0,
            fault: None,
            spent: false,
        }
    }

    /// Takes the next piece of the stream. Without memory the decoder is spent. After a fault it is counted, and takes
    /// no memory.
    pub fn feed(&mut self, alloc: Global, piece: &[u8]) -> Result<(), AllocError>
        ensures ok { OnOk result ((before : ℕ) (rest : List ℕ) → Stands self.old before rest → Stands self.new before (rest ++ piece.now)) }
        ensures err { OnErr result (IsSpentDecoder self.new) }
        ensures spent { IsSpentDecoder self.old → IsErr result }
        ensures again { (kind : TheKind) (place : ℕ) → HasMet self.old kind place → IsOk result × HasMet self.new kind place }
    {
        if self.spent {
            return Err(AllocError);
        }
        if self.fault.is_some() {
            self.count(piece.len() as u64);
            return Ok(());
        }
        if self.append(alloc, piece).is_err() {
            self.spent = true;
            return Err(AllocError);
        }
        Ok(())
    }

    fn count(&mut self, bytes: u64)
        ensures { HasCounted self.old self.new bytes }
    {
        self.later = self.later.saturating_add(bytes);
    }

    fn append(&mut self, alloc: Global, piece: &[u8]) -> Result<(), AllocError>
        ensures { OnOk result (HasFed self.old self.new piece.now) }
    {
        if self.at > self.unread.len() - self.at {
            self.shift(alloc)?;
        }
        self.unread.extend_from_slice(piece)?;
        Ok(())
    }

    /// Gives the room of the bytes that were taken free, once they are more than those that are left.
    fn shift(&mut self, alloc: Global) -> Result<(), AllocError>
        ensures { OnOk result (HasFed self.old self.new []) }
    {
        let rest = Vec::from_slice(alloc, &self.unread[self.at..])?;
        self.unread = rest;
        self.at = 0;
        Ok(())
    }

    /// How many bytes were fed after the last value; 2^64 - 1 for all numbers above.
    ///
    /// After `next` answered that there is no value yet, they are fewer than `VALUE_LIMIT`.
    pub fn pending(&self) -> u64
        ensures { (before : ℕ) (rest : List ℕ) → Stands self.now before rest → result ≡ held_to (length rest) }
    {
        self.held
            .saturating_add((self.unread.len() - self.at) as u64)
            .saturating_add(self.later)
    }

    /// The next value of the stream; none where what was fed since the last one is a front of a value.
    ///
    /// Where it is neither, the answer is the fault, at this call and at each later one, which take no memory. Without
    /// memory the decoder is spent: each later call answers that again.
    pub fn next(&mut self, alloc: Global) -> Result<Option<Value>, WireFault>
        ensures less { IfOk result (λ value. OnSome value (unread_of self.new < unread_of self.old)) }
        ensures next { (before : ℕ) (rest : List ℕ) → Stands self.old before rest → HasNext before rest self.new result }
        ensures spent { IsSpentDecoder self.old → (result ≡ Err Memory) × IsSpentDecoder self.new }
        ensures again { (kind : TheKind) (place : ℕ) → HasMet self.old kind place → (result ≡ Err (Bad kind place)) × HasMet self.new kind place }
    {
        if self.spent {
            return Err(WireFault::Memory);
        }
        if let Some(fault) = self.broken() {
            return Err(bad(fault));
        }
        self.scan(alloc)
    }

    fn broken(&self) -> Option<FoundFault>
        ensures { result ≡ self.now.fault }
    {
        self.fault
    }

    fn scan(&mut self, alloc: Global) -> Result<Option<Value>, WireFault>
        requires sound { self.old.fault ≡ None }
        requires fresh { self.old.spent ≡ false }
        ensures less { IfOk result (λ value. OnSome value (unread_of self.new < unread_of self.old)) }
        ensures next { (before : ℕ) (rest : List ℕ) → Stands self.old before rest → HasNext before rest self.new result }
    {
        'bytes: while self.at < self.unread.len() {
            let span = self.span();
            match self.advance(alloc, span) {
                Ok(None) => {
                    if span + self.held == VALUE_LIMIT {
                        return Err(bad(self.fail_long()));
                    }
                    self.take(span);
                }
                Ok(Some(value)) => {
                    self.end();
                    return Ok(Some(value));
                }
                Err(StepFault::Bad(kind)) => return Err(bad(self.fail(kind))),
                Err(StepFault::Memory) => {
                    self.spent = true;
                    return Err(WireFault::Memory);
                }
            }
        }
        self.clear(alloc);
        Ok(None)
    }

    /// All bytes were taken: their room is kept where it is small.
    fn clear(&mut self, alloc: Global)
        ensures { HasCleared self.old self.new }
    {
        self.at = 0;
        if self.unread.len() > KEPT {
            self.unread = Vec::new(alloc);
        } else {
            self.unread.clear();
        }
    }
}

fn bad(fault: FoundFault) -> WireFault
    ensures { result ≡ Bad fault.kind fault.place }
{
    WireFault::Bad {
        kind: fault.kind,
        place: fault.place,
    }
}
