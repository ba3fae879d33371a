//! An acknowledgement: a message is taken out of the table of messages that are not acknowledged, for good.
ghost use Rattle.std.specs.Prelude.{◌≡◌, [], ℕ, IfOk, Some, None};
ghost use Rattle.delivery_tags.specs.Tags.{tag_text};
ghost use Rattle.wire_grammar.specs.Fits.{IsWithinLimits};
ghost use Rattle.command_blocks.specs.EnvelopeTexts.{plain_setting};
ghost use Rattle.command_blocks.specs.Scripts.{End, end_script, next_words};
ghost use Rattle.block_core.specs.Cores.{core_end};
ghost use Rattle.block_laws.specs.Rows.{IsLawfulPlan};
ghost use Rattle.unacked.specs.Ends.{HasEnding, end_left, unindex_words, untable_words};
ghost use Rattle.unacked.specs.Steps.{steps_left};

use crate::step::{Course, Step};
use block_core::{BlockCore, Progress, Stage};
use block_words::{one_word, three_words};
use envelope::Tag;
use std::alloc::{AllocError, Global};
use wire_values::{Value, Words};

/// The acknowledgement of a message by its tag, one transaction on the table and its index.
pub type EndCore = BlockCore<EndStage, Acked>;

/// The end of an acknowledgement: whether the message stood in the table until then.
#[derive(Clone, Copy, Debug, Drop)]
pub struct Acked {
    pub removed: bool,
}

/// A command of an acknowledgement.
#[derive(Debug, Drop)]
pub struct EndStage {
    tag: Tag,
    step: Step,
}

impl Stage for EndStage {
    ghost use Rattle.unacked.specs.Ends.{TellsEnd, end_says, end_stage_left};

    type End = Acked;

    ghost left = { end_stage_left };

    ghost had = { λ plan calls stage. Unit {0} };

    ghost tells = { λ plan calls end. TellsEnd calls end };

    fn words(&self, alloc: Global, _at: u64) -> Result<Words, AllocError> {
        end_words(alloc, self.tag, self.step)
    }

    fn answered(
        self,
        _alloc: Global,
        answer: &Value,
    ) -> Result<Progress<EndStage, Acked>, AllocError> {
        match self.step.answered(answer) {
            Course::Next(step) => Ok(Progress::Next(EndStage {
                tag: self.tag,
                step,
            })),
            Course::Ran(removed) => Ok(Progress::Over(Acked { removed })),
            Course::Refused => Ok(Progress::Refused),
        }
    }

    ghost says = { λ stage. end_says stage.tag.0 stage.step };
}

/// The acknowledgement of this tag; takes no memory.
pub fn end_core(tag: Tag) -> EndCore
    ensures left { end_left result ≡ end_script plain_setting (tag_text tag.0) }
    ensures end { core_end result ≡ None }
    ensures lawful { (s n : ℕ) → IsLawfulPlan plain_setting s n (End (tag_text tag.0)) }
    ensures traced { (s p : ℕ) → HasEnding s p tag.0 [] result }
{
    end_of(tag.0)
}

/// The acknowledgement of the tag of this number.
fn end_of(number: u128) -> EndCore
    ensures left { end_left result ≡ end_script plain_setting (tag_text number) }
    ensures end { core_end result ≡ None }
    ensures lawful { (s n : ℕ) → IsLawfulPlan plain_setting s n (End (tag_text number)) }
    ensures traced { (s p : ℕ) → HasEnding s p number [] result }
{
    BlockCore::new(EndStage {
        tag: Tag(number),
        step: Step::Begin,
    })
}

/// The words of a command of the transaction.
fn end_words(alloc: Global, tag: Tag, step: Step) -> Result<Words, AllocError>
    ensures words { IfOk result (λ words. (at : ℕ) → Some words
        ≡ next_words (steps_left (unindex_words tag.0) (untable_words tag.0) step) at) }
    ensures limits { IfOk result (λ words. IsWithinLimits words) }
{
    match step {
        Step::Begin => one_word(alloc, b"MULTI"),
        Step::Index => three_words(alloc, b"ZREM", b"unacked_index", tag.text().as_slice()),
        Step::Table => three_words(alloc, b"HDEL", b"unacked", tag.text().as_slice()),
        Step::Run => one_word(alloc, b"EXEC"),
    }
}
