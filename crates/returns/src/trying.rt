//! A return: at most eight tries to move a message from the table to its queues.
ghost use Rattle.std.specs.Prelude.{List as Listed, ◌≡◌, ◌++◌, [], ◌∷◌, ℕ, codes, drop, IfOk, None, Some, if◌then◌else◌};
ghost use Rattle.wire_values.specs.Layer.{layer};
ghost use Rattle.wire_values.specs.declared.value.Value.TheVariants.{NullArray};
ghost use Rattle.delivery_tags.specs.Tags.{tag_text};
ghost use Rattle.queue_keys.specs.Names.{Bytes as Text};
ghost use Rattle.wire_grammar.specs.Fits.{IsWithinLimits};
ghost use Rattle.command_blocks.specs.Calls.{Call, call};
ghost use Rattle.command_blocks.specs.EnvelopeTexts.{plain_setting};
ghost use Rattle.command_blocks.specs.Scripts.{Return, Script, after_call, next_words, on_ran, return_script, status_in, tries_script};
ghost use Rattle.block_core.specs.Cores.{core_end};
ghost use Rattle.block_core.specs.Stages.{TellsOn};
ghost use Rattle.block_core.specs.declared.stage.Progress.TheVariants as found;
ghost use Rattle.block_laws.specs.Rows.{IsLawfulPlan};
ghost use Rattle.returns.specs.Returns.{AnswerTells, HasReturning, TellsReturned, TryingHad, end_of, return_left};
ghost use Rattle.returns.specs.Spots.{HasTried, failed_left, point_left, push_left, tried_left, trying_left};
ghost use Rattle.returns.specs.declared.spot.Spot.TheVariants.{Leave};

use crate::answers::are_integers;
use crate::carried::{Carried, Keys};
use crate::read::{asked, read};
use crate::returned::Returned;
use crate::spot::{Aim, Point, Spot, Unmoved};
use crate::words::spot_words;
use block_core::{BlockCore, Progress, Stage};
use command_blocks::Side;
use command_blocks::answer::{is_null_array, is_status};
use envelope::Tag;
use std::alloc::{AllocError, Global};
use wire_values::{Value, Words};

/// The return of a message by its tag to its queues, by the exchange and the routing key of its entry.
pub type ReturnCore = BlockCore<Trying, Returned>;

/// A command of a return: a try stands at a spot, and so many tries may come after it.
#[derive(Drop)]
pub struct Trying {
    pub(crate) aim: Aim,
    pub(crate) spot: Spot,
}

impl Stage for Trying {
    ghost use Rattle.command_blocks.specs.Scripts.{Over};
    ghost use Rattle.returns.specs.Returns.{ReturnHad, TellsReturn, return_stage_left, spots_say};

    type End = Returned;

    ghost left = { return_stage_left };

    ghost had = { ReturnHad };

    ghost tells = { TellsReturn };

    fn words(&self, alloc: Global, _at: u64) -> Result<Words, AllocError> {
        self.command(alloc)
    }

    fn answered(
        self,
        alloc: Global,
        answer: &Value,
    ) -> Result<Progress<Trying, Returned>, AllocError> {
        self.took(alloc, answer)
    }

    ghost says = { λ trying. spots_say Over Over trying.aim trying.spot };
}

/// The return of the message of this tag, at this side of its queues; takes no memory.
pub fn return_core(tag: Tag, side: Side) -> ReturnCore
    ensures left { return_left result ≡ return_script plain_setting side (tag_text tag.0) }
    ensures end { core_end result ≡ None }
    ensures lawful { (s n : ℕ) → IsLawfulPlan plain_setting s n (Return side (tag_text tag.0)) }
    ensures traced { (s p : ℕ) → HasReturning s p side (tag_text tag.0) [] result }
{
    return_of(tag.0, side)
}

/// The return of the message of the tag of this number.
fn return_of(number: u128, side: Side) -> ReturnCore
    ensures left { return_left result ≡ return_script plain_setting side (tag_text number) }
    ensures end { core_end result ≡ None }
    ensures lawful { (s n : ℕ) → IsLawfulPlan plain_setting s n (Return side (tag_text number)) }
    ensures traced { (s p : ℕ) → HasReturning s p side (tag_text number) [] result }
{
    BlockCore::new(Trying::new(Tag(number), side))
}

impl Trying {
    /// A return of which nothing was said; takes no memory.
    pub fn new(tag: Tag, side: Side) -> Trying
        ensures left { (ended stuck : Script) → trying_left ended stuck result
            ≡ tries_script plain_setting side (tag_text tag.0) ended stuck 8 }
        ensures had { TryingHad (tag_text tag.0) [] result }
    {
        Trying {
            aim: Aim { tag, side, more: 7 },
            spot: Spot::Watch,
        }
    }

    /// The words of the next command, which don't tell the moment.
    ///
    /// # Errors
    /// Want of memory.
    pub fn command(&self, alloc: Global) -> Result<Words, AllocError>
        ensures words { IfOk result (λ words. (ended stuck : Script) (at : ℕ)
            → Some words ≡ next_words (trying_left ended stuck self.now) at) }
        ensures limits { IfOk result (λ words. IsWithinLimits words) }
    {
        spot_words(alloc, self.aim, &self.spot)
    }

    /// What the answer to it brings, whatever follows the return.
    ///
    /// # Errors
    /// Want of memory.
    pub fn took(
        self,
        alloc: Global,
        answer: &Value,
    ) -> Result<Progress<Trying, Returned>, AllocError>
        ensures left { IfOk result (λ p. HasTried self answer.now p) }
        ensures tells { IfOk result (λ p. (t : Text) (calls : Listed Call) (last : Call)
            → last.answer ≡ answer.now → TryingHad t calls self
            → TellsOn (TryingHad t) (TellsReturned t) (calls ++ last ∷ []) p) }
    {
        let aim = self.aim;
        match self.spot {
            Spot::Watch => Ok(aim.if_listed(is_status(answer, b"OK"), Spot::Read)),
            Spot::Read => read(alloc, aim, answer),
            Spot::Ask(carried) => asked(alloc, aim, carried, answer),
            Spot::Take(carried, keys, point) => Ok(aim.taken(carried, keys, point, answer)),
            Spot::Leave(why) => Ok(why.left(answer)),
        }
    }
}

impl Unmoved {
    /// What the answer to UNWATCH brings.
    fn left(self, answer: &Value) -> Progress<Trying, Returned>
        ensures { result ≡ (if status_in (codes "OK") (layer answer.now) then found.Over (end_of self) else found.Refused) }
    {
        if is_status(answer, b"OK") {
            Progress::Over(self.end())
        } else {
            Progress::Refused
        }
    }

    /// How a return that leaves ends.
    fn end(self) -> Returned
        ensures { result ≡ end_of self }
    {
        match self {
            Unmoved::Gone => Returned::Gone,
            Unmoved::Stayed => Returned::Stayed,
        }
    }
}

impl Aim {
    /// The try goes on at a spot.
    pub(crate) fn at(self, spot: Spot) -> Progress<Trying, Returned>
        ensures { result ≡ found.Next (record { aim = self; spot = spot }) }
    {
        Progress::Next(Trying { aim: self, spot })
    }

    /// The try leaves.
    pub(crate) fn leaves(self, why: Unmoved) -> Progress<Trying, Returned>
        ensures { result ≡ found.Next (record { aim = self; spot = Leave why }) }
    {
        self.at(Spot::Leave(why))
    }

    /// The try goes on at a spot, where the answer is a listed one.
    fn if_listed(self, listed: bool, spot: Spot) -> Progress<Trying, Returned>
        ensures { result ≡ (if listed then found.Next (record { aim = self; spot = spot }) else found.Refused) }
    {
        if listed {
            self.at(spot)
        } else {
            Progress::Refused
        }
    }

    /// What the answer to a command of the transaction brings.
    fn taken(
        self,
        carried: Box<Carried>,
        keys: Keys,
        point: Point,
        answer: &Value,
    ) -> Progress<Trying, Returned>
        ensures left { (ended stuck : Script) → tried_left ended stuck result
            ≡ after_call (point_left ended stuck self carried.value.text keys.words point) (call 0 [] answer.now) }
        ensures tells { AnswerTells self answer.now result }
    {
        match point {
            Point::Begin => self.if_listed(
                is_status(answer, b"OK"),
                Spot::Take(carried, keys, Point::Index),
            ),
            Point::Index => self.if_listed(
                is_status(answer, b"QUEUED"),
                Spot::Take(carried, keys, Point::Table),
            ),
            Point::Table => self.if_listed(
                is_status(answer, b"QUEUED"),
                Spot::Take(carried, keys, Point::After(0)),
            ),
            Point::After(count) => self.pushed(carried, keys, count, answer),
        }
    }

    /// What the answer to the push after so many brings, or that to EXEC after all.
    fn pushed(
        self,
        carried: Box<Carried>,
        keys: Keys,
        count: usize,
        answer: &Value,
    ) -> Progress<Trying, Returned>
        ensures left { (ended stuck : Script) → tried_left ended stuck result
            ≡ after_call (push_left ended stuck self carried.value.text (drop count keys.words)) (call 0 [] answer.now) }
        ensures tells { AnswerTells self answer.now result }
    {
        if count < keys.words.as_slice().len() {
            self.if_listed(
                is_status(answer, b"QUEUED"),
                Spot::Take(carried, keys, Point::After(count + 1)),
            )
        } else {
            self.ran(answer)
        }
    }

    /// What the answer to EXEC brings.
    fn ran(self, answer: &Value) -> Progress<Trying, Returned>
        ensures left { (ended stuck : Script) → tried_left ended stuck result
            ≡ on_ran ended (failed_left ended stuck self) answer.now }
        ensures tells { AnswerTells self answer.now result }
    {
        if is_null_array(answer) {
            return self.failed();
        }
        if are_integers(answer) {
            Progress::Over(Returned::Moved)
        } else {
            Progress::Refused
        }
    }

    /// A new try after one whose EXEC failed, or the end after the eighth.
    fn failed(self) -> Progress<Trying, Returned>
        ensures left { (ended stuck : Script) → tried_left ended stuck result ≡ failed_left ended stuck self }
        ensures tells { AnswerTells self NullArray result }
    {
        match self.more.checked_sub(1) {
            Some(more) => Progress::Next(Trying {
                aim: Aim { more, ..self },
                spot: Spot::Watch,
            }),
            None => Progress::Over(Returned::Contended(self.tag)),
        }
    }
}
