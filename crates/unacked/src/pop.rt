//! A pop: a message goes from the list of its queue into the table of messages that are not acknowledged.
ghost use Rattle.std.specs.Prelude.{◌≡◌, ◌≤◌, [], ℕ, length, IfOk, Some, None};
ghost use Rattle.envelope.specs.Bodies.{tag_of_bytes};
ghost use Rattle.store_model.specs.Replies.{pair};
ghost use Rattle.wire_grammar.specs.Fits.{IsWithinLimits};
ghost use Rattle.command_blocks.specs.EnvelopeTexts.{plain_setting};
ghost use Rattle.command_blocks.specs.Scripts.{Pop, kept_by, next_words, on_popped, pop_script};
ghost use Rattle.serde_json.specs.View.{view as data_of};
ghost use Rattle.block_core.specs.Cores.{core_end};
ghost use Rattle.block_core.specs.Stages.{progress_left};
ghost use Rattle.block_laws.specs.Rows.{IsLawfulPlan};
ghost use Rattle.unacked.specs.Pops.{FoundTells, HasKept, HasPopping, index_words, pop_left, pop_stage_left, table_words};
ghost use Rattle.unacked.specs.Steps.{steps_left};

use crate::queues::Queues;
use crate::step::{Course, Step};
use crate::words::{decimal_text, four_words};
use block_core::{BlockCore, Progress, Stage};
use block_words::one_word;
use command_blocks::answer::{is_null_array, pair};
use envelope::{Envelope, EnvelopeFault, read, write_entry};
use queue_keys::{QueueName, pop_keys};
use std::alloc::{AllocError, Global};
use wire_values::{Bytes, List, Value, Words};

/// A pop of some queues, which BRPOP begins; a message that it gives goes into the table and its index by one
/// transaction.
pub type PopCore = BlockCore<PopStage, PopEnd>;

/// How a pop ended.
#[derive(Drop)]
pub enum PopEnd {
    /// No message was there to pop.
    Empty,
    /// A message was popped, and put into the table of those that aren't acknowledged.
    Popped(Box<Delivery>),
    /// What was popped is no envelope.
    Unreadable,
}

/// A message that was popped from the list under a key.
#[derive(Drop)]
pub struct Delivery {
    pub envelope: Envelope,
    pub key: Bytes,
}

/// A command of a pop.
#[derive(Drop)]
pub struct PopStage {
    at: Popping,
}

/// Which command of a pop is next.
#[derive(Drop)]
pub(crate) enum Popping {
    /// BRPOP.
    Asking(Queues),
    /// A command of the transaction.
    Keeping(Box<Delivery>, Step),
}

impl Stage for PopStage {
    ghost use Rattle.unacked.specs.Pops.{PopHad, TellsPop, popping_says, pop_stage_left};

    type End = PopEnd;

    ghost left = { pop_stage_left };

    ghost had = { λ plan calls stage. PopHad calls stage };

    ghost tells = { λ plan calls end. TellsPop calls end };

    fn words(&self, alloc: Global, at: u64) -> Result<Words, AllocError> {
        match &self.at {
            Popping::Asking(queues) => pop_words(alloc, queues),
            Popping::Keeping(delivery, step) => keep_words(alloc, delivery, *step, at),
        }
    }

    fn answered(
        self,
        alloc: Global,
        answer: &Value,
    ) -> Result<Progress<PopStage, PopEnd>, AllocError> {
        match self.at {
            Popping::Asking(_) => popped(alloc, answer),
            Popping::Keeping(delivery, step) => Ok(kept(delivery, step.answered(answer))),
        }
    }

    ghost says = { λ stage. popping_says stage.at };
}

/// A pop over these queues, 1 to 1,023 of them; takes no memory.
pub fn pop_core(queues: List<QueueName>) -> PopCore
    requires some { 1 ≤ length queues }
    requires few { length queues ≤ 1023 }
    ensures left { pop_left result ≡ pop_script plain_setting queues }
    ensures end { core_end result ≡ None }
    ensures lawful { (s n : ℕ) → IsLawfulPlan plain_setting s n (Pop queues) }
    ensures traced { (s p : ℕ) → HasPopping s p queues [] result }
{
    BlockCore::new(PopStage {
        at: Popping::Asking(Queues::new(queues)),
    })
}

/// What the answer to a command of the transaction brings.
fn kept(delivery: Box<Delivery>, course: Course) -> Progress<PopStage, PopEnd>
    ensures { HasKept delivery.value course result }
{
    match course {
        Course::Next(step) => Progress::Next(PopStage {
            at: Popping::Keeping(delivery, step),
        }),
        Course::Ran(_) => Progress::Over(PopEnd::Popped(delivery)),
        Course::Refused => Progress::Refused,
    }
}

/// What an answer to BRPOP brings.
fn popped(alloc: Global, answer: &Value) -> Result<Progress<PopStage, PopEnd>, AllocError>
    ensures left { IfOk result (λ progress. progress_left pop_stage_left progress ≡ on_popped plain_setting answer.now) }
    ensures tells { IfOk result (λ progress. FoundTells progress answer.now) }
{
    if is_null_array(answer) {
        return Ok(Progress::Over(PopEnd::Empty));
    }
    match pair(answer) {
        Some((key, element)) => delivered(alloc, key, element),
        None => Ok(Progress::Refused),
    }
}

/// What an element that was popped from the list under a key brings.
fn delivered(
    alloc: Global,
    key: &[u8],
    element: &[u8],
) -> Result<Progress<PopStage, PopEnd>, AllocError>
    ensures left { IfOk result (λ progress. progress_left pop_stage_left progress
        ≡ kept_by plain_setting element.now (tag_of_bytes element.now)) }
    ensures tells { IfOk result (λ progress. FoundTells progress (pair key.now element.now)) }
{
    match read(alloc, element) {
        Ok(envelope) => {
            let key = Bytes::from_slice(alloc, key)?;
            let delivery = Box::new(alloc, Delivery { envelope, key })?;
            Ok(Progress::Next(PopStage {
                at: Popping::Keeping(delivery, Step::Begin),
            }))
        }
        Err(EnvelopeFault::Memory) => Err(AllocError),
        Err(_) => Ok(Progress::Over(PopEnd::Unreadable)),
    }
}

/// The words of BRPOP.
fn pop_words(alloc: Global, queues: &Queues) -> Result<Words, AllocError>
    ensures words { IfOk result (λ words. (at : ℕ)
        → Some words ≡ next_words (pop_script plain_setting queues.now.names) at) }
    ensures limits { IfOk result (λ words. IsWithinLimits words) }
{
    let keys = pop_keys(alloc, queues.names.as_slice())?;
    let mut words = keys.into_vec(alloc);
    words.insert(0, Bytes::from_slice(alloc, b"BRPOP")?)?;
    words.push(Bytes::from_slice(alloc, b"1")?)?;
    Ok(Words::from_vec(words))
}

/// The words of a command of the transaction.
fn keep_words(alloc: Global, delivery: &Delivery, step: Step, at: u64) -> Result<Words, AllocError>
    ensures words { IfOk result (λ words. let d = data_of delivery.now.envelope in Some words
        ≡ next_words (steps_left (index_words d) (table_words d) step) at) }
    ensures limits { IfOk result (λ words. IsWithinLimits words) }
{
    match step {
        Step::Begin => one_word(alloc, b"MULTI"),
        Step::Index => {
            let moment = decimal_text(alloc, at)?;
            let tag = Bytes::from_slice(alloc, delivery.envelope.tag().text().as_slice())?;
            four_words(alloc, b"ZADD", b"unacked_index", moment.as_bytes(), tag)
        }
        Step::Table => {
            let tag = delivery.envelope.tag().text();
            let entry = write_entry(alloc, &delivery.envelope)?;
            four_words(alloc, b"HSET", b"unacked", tag.as_slice(), entry)
        }
        Step::Run => one_word(alloc, b"EXEC"),
    }
}
