//! A block, said command by command.
ghost use Rattle.std.specs.Prelude.{List as Listed, ◌≡◌, [], ◌∷◌, ◌++◌, ◌<◌, ℕ, true, false, IfOk, IfSome, IsSome, Some, None, alloc_error};
ghost use Rattle.store_model.specs.Limits.{moment_limit};
ghost use Rattle.store_model.specs.Words.{Words as Said};
ghost use Rattle.wire_grammar.specs.Fits.{IsWithinLimits};
ghost use Rattle.command_blocks.specs.Calls.{Call, call};
ghost use Rattle.command_blocks.specs.Cores.{is_off, is_saying};
ghost use Rattle.command_blocks.specs.EnvelopeTexts.{plain_setting};
ghost use Rattle.command_blocks.specs.Scripts.{Over, Plan, next_words, script_of};
ghost use Rattle.block_laws.specs.Rows.{IsLawfulPlan, IsPlanBlock};
ghost use Rattle.block_core.specs.Cores.{HasHad, HasHadOn, HasTaken, IsListed, core_end, core_left, is_spent};
ghost use Rattle.block_core.specs.Goings.{HasGone, IsRefused, IsSpent};
ghost use Rattle.block_core.specs.declared.fault.ReplyFault.TheVariants.{Memory};

use crate::fault::ReplyFault;
use crate::stage::{Progress, Stage};
use std::alloc::{AllocError, Global};
use std::mem;
use store_model::Reply;
use wire_values::Words;

/// A core of a block of stages `S` and ends `E`, which says its commands one by one.
///
/// Contracts see what is left to say, and the end that wasn't given yet. After want of memory in `took` the core is
/// spent: `next` and `took` answer want of memory from then on, and there is no end.
#[derive(Drop)]
pub struct BlockCore<S, E> {
    state: CoreState<S, E>,
}

/// How far a block is.
#[derive(Drop)]
pub(crate) enum CoreState<S, E> {
    /// A command is next.
    Saying(S),
    /// The block is over, with its end where that wasn't given yet.
    Over(Option<E>),
    /// An answer wasn't a listed one.
    Off,
    /// Memory was wanting.
    Spent,
}

impl<S: Stage> BlockCore<S, S::End> {
    /// A block from this stage on; takes no memory.
    pub fn new(stage: S) -> BlockCore<S, S::End>
        ensures left { core_left S.left result ≡ S.left stage }
        ensures end { core_end result ≡ None }
        ensures spent { is_spent result ≡ false }
        ensures traced { (s p : ℕ) (plan : Plan) → S.left stage ≡ script_of plain_setting s p plan → S.had plan [] stage
            → HasHad S.left S.had S.tells s p plan [] result }
    {
        BlockCore {
            state: CoreState::Saying(stage),
        }
    }

    /// The next command, by the moment at which it is sent, in seconds; None where the block is over, or an answer
    /// wasn't a listed one.
    ///
    /// The words are within the limits of a command.
    ///
    /// # Errors
    /// Want of memory, now or in an earlier `took`.
    pub fn next(&self, alloc: Global, at: u64) -> Result<Option<Words>, AllocError>
        ensures words { IfOk result (λ words. words ≡ next_words (core_left S.left self.now) at) }
        ensures limits { IfOk result (λ words. IfSome words IsWithinLimits) }
        ensures spent { is_spent self.now ≡ true → result ≡ Err alloc_error }
    {
        match &self.state {
            CoreState::Saying(stage) => Ok(Some(stage.words(alloc, at)?)),
            CoreState::Over(_) | CoreState::Off => Ok(None),
            CoreState::Spent => Err(AllocError),
        }
    }

    /// Takes the reply to the command that was next at this moment.
    ///
    /// # Errors
    /// `Refused` with the reply exactly where the block lists no such answer there; nothing is said after it. `Memory` is
    /// want of memory, now or in an earlier call, and nothing is said after it either.
    pub fn took(&mut self, alloc: Global, at: u64, reply: &Reply) -> Result<(), ReplyFault>
        requires moment { at < moment_limit }
        requires asked { is_spent self.old ≡ false → IsSome (next_words (core_left S.left self.old) at) }
        // It goes on, or is over with its end.
        ensures taken { HasTaken S.left self.old self.new at reply.now result }
        ensures spent { is_spent self.old ≡ true → result ≡ Err Memory }
        // Whatever calls a core had before, now it has had one more.
        ensures traced { (s p : ℕ) (plan : Plan) (calls : Listed Call) (words : Said)
            → HasHad S.left S.had S.tells s p plan calls self.old
            → next_words (core_left S.left self.old) at ≡ Some words
            → HasHadOn (HasHad S.left S.had S.tells s p plan) calls (call at words reply.now.answer) self.new result }
        // The reply was refused exactly where no block of the plan goes on with it.
        ensures listed { (s n p : ℕ) (plan : Plan) (calls : Listed Call) (words : Said)
            → IsLawfulPlan plain_setting s n plan
            → HasHad S.left S.had S.tells s p plan calls self.old
            → next_words (core_left S.left self.old) at ≡ Some words
            → IsListed (IsPlanBlock plain_setting s n p plan) (calls ++ call at words reply.now.answer ∷ []) result }
    {
        match mem::replace(&mut self.state, CoreState::Spent) {
            CoreState::Saying(stage) => match stage.answered(alloc, &reply.answer) {
                Ok(progress) => self.go(alloc, reply, progress),
                Err(_) => Err(ReplyFault::Memory),
            },
            CoreState::Spent => Err(ReplyFault::Memory),
            CoreState::Over(_) | CoreState::Off => unreachable!(),
        }
    }

    /// Goes on by what the answer of a reply brought.
    fn go(
        &mut self,
        alloc: Global,
        reply: &Reply,
        progress: Progress<S, S::End>,
    ) -> Result<(), ReplyFault>
        ensures { HasGone reply.now progress self.new result }
    {
        match progress {
            Progress::Next(stage) => {
                self.put(CoreState::Saying(stage));
                Ok(())
            }
            Progress::Over(end) => {
                self.put(CoreState::Over(Some(end)));
                Ok(())
            }
            Progress::Refused => self.refuse(alloc, reply),
        }
    }

    /// How the block ended, once, after its last reply.
    pub fn end(&mut self) -> Option<S::End>
        ensures given { result ≡ core_end self.old }
        ensures once { core_end self.new ≡ None }
        ensures left { core_left S.left self.new ≡ core_left S.left self.old }
        ensures spent { is_spent self.new ≡ is_spent self.old }
        // What is given tells of the calls that the core has had, after which nothing is left to say.
        ensures traced { (s p : ℕ) (plan : Plan) (calls : Listed Call)
            → HasHad S.left S.had S.tells s p plan calls self.old
            → HasHad S.left S.had S.tells s p plan calls self.new
            × IfSome result (λ end. (core_left S.left self.new ≡ Over) × S.tells plan calls end) }
        // They are a whole block of a lawful plan.
        ensures whole { (s n p : ℕ) (plan : Plan) (calls : Listed Call) → IsLawfulPlan plain_setting s n plan
            → HasHad S.left S.had S.tells s p plan calls self.old
            → IfSome result (λ _. IsPlanBlock plain_setting s n p plan calls) }
    {
        match &mut self.state {
            CoreState::Over(end) => end.take(),
            CoreState::Saying(_) | CoreState::Off | CoreState::Spent => None,
        }
    }

    /// Whether a command is next.
    pub fn is_busy(&self) -> bool
        ensures { result ≡ is_saying (core_left S.left self.now) }
    {
        match &self.state {
            CoreState::Saying(_) => true,
            CoreState::Over(_) | CoreState::Off | CoreState::Spent => false,
        }
    }

    /// Whether the block can't be said to its end: an answer wasn't a listed one, or memory was wanting.
    pub fn is_off(&self) -> bool
        ensures { result ≡ is_off (core_left S.left self.now) }
    {
        match &self.state {
            CoreState::Saying(_) | CoreState::Over(_) => false,
            CoreState::Off | CoreState::Spent => true,
        }
    }

    /// Goes to a state.
    fn put(&mut self, state: CoreState<S, S::End>)
        ensures { self.new.state ≡ state }
    {
        self.state = state;
    }

    /// Says nothing any more, after a reply whose answer isn't a listed one.
    fn refuse(&mut self, alloc: Global, reply: &Reply) -> Result<(), ReplyFault>
        ensures { IsRefused reply.now self.new result }
    {
        self.put(CoreState::Off);
        match ReplyFault::refused(alloc, reply) {
            Ok(fault) => Err(fault),
            Err(_) => self.spend(),
        }
    }

    /// Says nothing any more, for want of memory.
    fn spend(&mut self) -> Result<(), ReplyFault>
        ensures { IsSpent self.new result }
    {
        self.put(CoreState::Spent);
        Err(ReplyFault::Memory)
    }
}
