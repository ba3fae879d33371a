//! A stage of a block: its next command, and what the answer to it brings.
ghost use Rattle.std.specs.Prelude.{List as Listed, ◌≡◌, ◌∷◌, [], ◌++◌, ℕ, true, IfOk, Some};
ghost use Rattle.wire_grammar.specs.Fits.{IsWithinLimits};
ghost use Rattle.command_blocks.specs.Calls.{Call};
ghost use Rattle.command_blocks.specs.Cores.{IsAnswered, is_saying};
ghost use Rattle.command_blocks.specs.Scripts.{Plan, Script, next_words};
ghost use Rattle.block_core.specs.Stages.{TellsOn, progress_left};

use std::alloc::{AllocError, Global};
use wire_values::{Value, Words};

/// What an answer brings to a block of stages `S` and ends `E`.
#[derive(Drop)]
pub enum Progress<S, E> {
    /// The next command may be sent.
    Next(S),
    /// The block is over.
    Over(E),
    /// The answer isn't a listed one.
    Refused,
}

/// A stage of a block, at which a command is next.
pub trait Stage: Drop {
    /// How the block ends.
    type End: Drop;

    /// What is left to say.
    ghost left: { Self → Script };

    /// What it holds tells of the calls so far of a block of this plan.
    ghost had: { Plan → Listed Call → Self → Type 0 };

    /// The end tells of the calls of a block of this plan.
    ghost tells: { Plan → Listed Call → Self.End → Type 0 };

    /// The words of the next command at this moment, in seconds.
    ///
    /// # Errors
    /// Want of memory.
    fn words(&self, alloc: Global, at: u64) -> Result<Words, AllocError>
        ensures words { IfOk result (λ words. Some words ≡ next_words (left self.now) at) }
        ensures limits { IfOk result (λ words. IsWithinLimits words) };

    /// What the answer to it brings.
    ///
    /// # Errors
    /// Want of memory.
    fn answered(
        self,
        alloc: Global,
        answer: &Value,
    ) -> Result<Progress<Self, Self::End>, AllocError>
        ensures left { IfOk result (λ progress. (at : ℕ)
            → IsAnswered (left self) (progress_left left progress) at answer.now) }
        ensures tells { IfOk result (λ progress. (plan : Plan) (calls : Listed Call) (last : Call)
            → last.answer ≡ answer.now → had plan calls self
            → TellsOn (had plan) (tells plan) (calls ++ last ∷ []) progress) };

    /// A command is next.
    ghost says: { (stage : Self) → is_saying (left stage) ≡ true };
}
