//! How a decoder takes the next span of its unread bytes.
ghost use Rattle.std.specs.Prelude.{◌≡◌, ◌≤◌, ◌<◌, ◌+◌, Some, None, drop, get_or, length, take, OnOk, OnErr};
ghost use Rattle.wire_grammar.specs.Limits.{value_limit};
ghost use Rattle.wire_grammar.specs.declared.kind.WireKind.TheVariants.{TooLong};
ghost use Rattle.resp_wire.specs.declared.state.Phase.TheVariants.{At, Content};
ghost use Rattle.resp_wire.specs.declared.state.WireSpot.{WireSpot as TheSpot};
ghost use Rattle.resp_wire.specs.Steps.{StepIs, state, step};
ghost use Rattle.resp_wire.specs.Stands.{held_to};
ghost use Rattle.resp_wire.specs.Moves.{Advances, HasGivenOne, HasOnlyMarked, HasMoved, HasStayed, IsSpan, ahead_of, ran, unread_of};

use crate::decoder::{Decoder, FoundFault};
use crate::machine::step;
use crate::state::{Phase, StepFault, WireSpot};
use std::alloc::{AllocError, Global};
use wire_grammar::{VALUE_LIMIT, WireKind};
use wire_values::Value;

impl Decoder {
    /// How many bytes the next step takes: one, or all of a content that are there and within the limit of a value.
    pub(crate) fn span(&self) -> u64
        requires { 0 < unread_of self.now }
        ensures span { IsSpan self.now result }
        ensures content { self.now.core.phase ≡ Content → result ≤ self.now.core.number + 1 }
        ensures one { (spot : TheSpot) → self.now.core.phase ≡ At spot → result ≡ 1 }
    {
        match self.core.phase {
            Phase::At(_) => 1,
            Phase::Content => {
                let there = (self.unread.len() - self.at) as u64;
                let room = VALUE_LIMIT - self.held;
                Ord::min(Ord::min(self.core.number + 1, room), there)
            }
        }
    }

    /// Takes the span into the value at hand.
    pub(crate) fn advance(&mut self, alloc: Global, span: u64) -> Result<Option<Value>, StepFault>
        requires span { IsSpan self.old span }
        requires content { self.old.core.phase ≡ Content → span ≤ self.old.core.number + 1 }
        requires one { (spot : TheSpot) → self.old.core.phase ≡ At spot → span ≡ 1 }
        ensures means { Advances self.old self.new span result }
        ensures stayed { HasStayed self.old self.new }
    {
        match self.core.phase {
            Phase::Content => {
                self.content(alloc, span)?;
                Ok(None)
            }
            Phase::At(spot) => self.byte(alloc, spot),
        }
    }

    fn byte(&mut self, alloc: Global, spot: WireSpot) -> Result<Option<Value>, StepFault>
        requires { 0 < unread_of self.old }
        ensures step { StepIs (step spot (state self.old.core) (get_or self.old.unread.items self.old.at 0)) (state self.new.core) result }
        ensures stayed { HasStayed self.old self.new }
    {
        let byte = self.unread[self.at];
        step(&mut self.core, alloc, spot, byte)
    }

    fn content(&mut self, alloc: Global, span: u64) -> Result<(), AllocError>
        requires { span ≤ unread_of self.old }
        ensures ran { OnOk result (state self.new.core ≡ ran (state self.old.core) span (take span (ahead_of self.old))) }
        ensures stayed { HasStayed self.old self.new }
    {
        let end = self.at + span as usize;
        self.core.bytes.extend(alloc, &self.unread[self.at..end])?;
        if span <= self.core.number {
            self.core.number -= span;
            self.core.phase = Phase::Content;
        } else {
            self.core.phase = Phase::At(WireSpot::Return);
        }
        Ok(())
    }

    /// Counts a span that didn't end the value at hand.
    pub(crate) fn take(&mut self, span: u64)
        requires within { span ≤ unread_of self.old }
        requires short { span + self.old.held < value_limit }
        ensures { HasMoved self.old self.new span }
    {
        self.at += span as usize;
        self.held += span;
    }

    /// Counts the byte that ended the value at hand.
    pub(crate) fn end(&mut self)
        requires { 0 < unread_of self.old }
        ensures { HasGivenOne self.old self.new }
    {
        self.at += 1;
        self.start = self.start.saturating_add(self.held + 1);
        self.held = 0;
    }

    /// The next byte is wrong.
    pub(crate) fn fail(&mut self, kind: WireKind) -> FoundFault
        ensures fault { self.new.fault ≡ Some result }
        ensures kind { result.kind ≡ kind }
        ensures place { result.place ≡ held_to (self.old.start + self.old.held) }
        ensures kept { HasOnlyMarked self.old self.new }
    {
        let fault = FoundFault {
            kind,
            place: self.start.saturating_add(self.held),
        };
        self.fault = Some(fault);
        fault
    }

    /// The value at hand passes its limit.
    pub(crate) fn fail_long(&mut self) -> FoundFault
        ensures fault { self.new.fault ≡ Some result }
        ensures kind { result.kind ≡ TooLong }
        ensures place { result.place ≡ held_to (self.old.start + value_limit) }
        ensures kept { HasOnlyMarked self.old self.new }
    {
        let fault = FoundFault {
            kind: WireKind::TooLong,
            place: self.start.saturating_add(VALUE_LIMIT),
        };
        self.fault = Some(fault);
        fault
    }
}
