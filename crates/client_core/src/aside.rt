//! A command that concerns no message: it is said once, and anything but an error answers it.
ghost use Rattle.std.specs.Prelude.{◌≡◌, [], IfOk, IfSome, None};
ghost use Rattle.wire_grammar.specs.Fits.{IsWithinLimits};
ghost use Rattle.command_blocks.specs.Scripts.{next_words};
ghost use Rattle.client_core.specs.Asides.{AsideHeard, HasAside, HasKeptReply, aside_end, aside_left};
ghost use Rattle.schedule_model.specs.Faults.{has_more, is_script_off};

use crate::aside_words::AsideWords;
use crate::asides::is_error;
use block_core::ReplyFault;
use std::alloc::{AllocError, Global};
use steps::BlockEnd;
use store_model::Reply;
use wire_values::{Words, copy_values, copy_words};

/// A command that concerns no message.
#[derive(Drop)]
pub(crate) struct AsideCore {
    state: AsideState,
}

/// How far such a command is.
#[derive(Drop)]
pub(crate) enum AsideState {
    /// It is next.
    Saying(AsideWords),
    /// It is over, with the reply where that wasn't told yet.
    Over(Option<Box<Reply>>),
    /// It was answered an error.
    Off,
}

impl AsideCore {
    /// This command, which is within the limits of one.
    pub(crate) fn new(words: Words) -> AsideCore
        requires { IsWithinLimits words }
        ensures had { HasAside words [] result }
        ensures end { aside_end result ≡ None }
    {
        AsideCore {
            state: AsideState::Saying(AsideWords { words }),
        }
    }

    /// The command, where it wasn't said yet.
    pub(crate) fn next(&self, alloc: Global, _at: u64) -> Result<Option<Words>, AllocError>
        ensures words { IfOk result (λ words. words ≡ next_words (aside_left self.now) _at) }
        ensures limits { IfOk result (λ words. IfSome words IsWithinLimits) }
    {
        match &self.state {
            AsideState::Saying(command) => Ok(Some(copy_words(alloc, &command.words)?)),
            AsideState::Over(_) | AsideState::Off => Ok(None),
        }
    }

    /// Takes the reply to it.
    pub(crate) fn took(&mut self, alloc: Global, reply: &Reply) -> Result<(), ReplyFault>
        ensures { AsideHeard self.new reply.now result }
    {
        let Ok(told) = copy_reply(alloc, reply) else {
            return Err(ReplyFault::Memory);
        };
        if is_error(&reply.answer) {
            self.state = AsideState::Off;
            return Err(ReplyFault::Refused(told));
        }
        self.keep(alloc, told)
    }

    /// Keeps the reply until it is told.
    fn keep(&mut self, alloc: Global, told: Reply) -> Result<(), ReplyFault>
        ensures { HasKeptReply self.new told result }
    {
        match Box::new(alloc, told) {
            Ok(told) => {
                self.state = AsideState::Over(Some(told));
                Ok(())
            }
            Err(_) => Err(ReplyFault::Memory),
        }
    }

    /// The reply, once.
    pub(crate) fn end(&mut self) -> Option<BlockEnd>
        ensures given { result ≡ aside_end self.old }
        ensures once { aside_end self.new ≡ None }
        ensures left { aside_left self.new ≡ aside_left self.old }
    {
        match &mut self.state {
            AsideState::Over(told) => Some(BlockEnd::Neutral(told.take()?)),
            AsideState::Saying(_) | AsideState::Off => None,
        }
    }

    /// Whether it was answered an error.
    pub(crate) fn is_off(&self) -> bool
        ensures { result ≡ is_script_off (aside_left self.now) }
    {
        match &self.state {
            AsideState::Off => true,
            AsideState::Saying(_) | AsideState::Over(_) => false,
        }
    }

    /// Whether it is still to be said.
    pub(crate) fn has_more(&self) -> bool
        ensures { result ≡ has_more (aside_left self.now) }
    {
        match &self.state {
            AsideState::Saying(_) => true,
            AsideState::Over(_) | AsideState::Off => false,
        }
    }
}

/// The same reply once more.
fn copy_reply(alloc: Global, reply: &Reply) -> Result<Reply, AllocError>
    ensures { IfOk result (λ made. made ≡ reply.now) }
{
    Ok(Reply {
        pushed: copy_values(alloc, &reply.pushed)?,
        answer: reply.answer.copy(alloc)?,
    })
}
