//! A pass: what stands in the table for long goes back to its queues.
ghost use Rattle.std.specs.Prelude.{◌≡◌, [], ℕ, suc, None};
ghost use Rattle.queue_keys.specs.Texts.{token as token_of};
ghost use Rattle.wire_grammar.specs.Fits.{IsShort};
ghost use Rattle.command_blocks.specs.EnvelopeTexts.{plain_setting};
ghost use Rattle.command_blocks.specs.Scripts.{Pass, pass_script};
ghost use Rattle.block_core.specs.Cores.{core_end};
ghost use Rattle.block_laws.specs.Rows.{IsLawfulPlan};
ghost use Rattle.passes.specs.Passes.{HasPassing, pass_left};

use crate::ended::PassEnd;
use crate::passing::{PassStage, Passing};
use crate::terms::Terms;
use crate::words::{due_words, lock_words, release_words};
use block_core::{BlockCore, Progress, Stage};
use std::alloc::{AllocError, Global};
use wire_values::{Bytes, Value, Words};

/// A pass over the messages that have stood in the table for the visibility timeout or longer: the ten youngest of them
/// return to their queues, where they are popped next.
pub type PassCore = BlockCore<PassStage, PassEnd>;

impl Stage for PassStage {
    ghost use Rattle.passes.specs.Passes.{PassHad, pass_stage_left, passing_says};
    ghost use Rattle.passes.specs.Told.{TellsPass};

    type End = PassEnd;

    ghost left = { pass_stage_left };

    ghost had = { λ plan calls stage. PassHad calls stage };

    ghost tells = { λ plan calls end. TellsPass calls end };

    fn words(&self, alloc: Global, at: u64) -> Result<Words, AllocError> {
        match &self.at {
            Passing::Lock => lock_words(alloc, &self.terms),
            Passing::Range => due_words(alloc, &self.terms, at),
            Passing::Returning(trying, _) => trying.command(alloc),
            Passing::Releasing(release, _) => release_words(alloc, &self.terms, *release),
        }
    }

    fn answered(
        self,
        alloc: Global,
        answer: &Value,
    ) -> Result<Progress<PassStage, PassEnd>, AllocError> {
        let terms = self.terms;
        match self.at {
            Passing::Lock => Ok(terms.locked(answer)),
            Passing::Range => terms.ranged(alloc, answer),
            Passing::Returning(trying, returns) => terms.tried(alloc, trying, returns, answer),
            Passing::Releasing(release, end) => Ok(terms.released(release, end, answer)),
        }
    }

    ghost says = { λ stage. passing_says stage.terms stage.at };
}

/// A pass under this visibility timeout in seconds, which has the mutex under this token, a short one as `pass_token`
/// makes it; takes no memory.
pub fn pass_core(visibility: u32, token: Bytes) -> PassCore
    requires short { IsShort token }
    ensures left { pass_left result ≡ pass_script plain_setting token visibility }
    ensures end { core_end result ≡ None }
    ensures lawful { (s n : ℕ) → IsLawfulPlan plain_setting s n (Pass visibility) }
    // It is the pass of each client whose next token is this one.
    ensures traced { (s p : ℕ) → token ≡ token_of s (suc p) → HasPassing s p visibility [] result }
{
    BlockCore::new(PassStage {
        terms: Terms { token, visibility },
        at: Passing::Lock,
    })
}
