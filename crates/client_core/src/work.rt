//! What a client is about.
ghost use Rattle.std.specs.Prelude.{◌≡◌, ◌<◌, IfOk, IfSome, IsSome, None};
ghost use Rattle.store_model.specs.Limits.{moment_limit};
ghost use Rattle.wire_grammar.specs.Fits.{IsWithinLimits};
ghost use Rattle.command_blocks.specs.Scripts.{next_words};
ghost use Rattle.schedule_model.specs.Faults.{has_more, is_script_off};
ghost use Rattle.client_core.specs.Works.{HeardWork, work_end, work_left};

use crate::aside::AsideCore;
use crate::told::{end_of, hear};
use block_core::ReplyFault;
use client_blocks::BlockLeft;
use std::alloc::{AllocError, Global};
use steps::BlockEnd;
use store_model::Reply;
use wire_values::Words;

/// What a client is about: a block, or none, or a command that concerns no message.
#[derive(Drop)]
pub(crate) enum Work {
    Block(BlockLeft),
    Beside(AsideCore),
}

impl Work {
    /// Whether a reply was refused.
    pub(crate) fn is_off(&self) -> bool
        ensures { result ≡ is_script_off (work_left self.now) }
    {
        match self {
            Work::Block(left) => left.is_off(),
            Work::Beside(core) => core.is_off(),
        }
    }

    /// Whether there is a command to come.
    pub(crate) fn has_more(&self) -> bool
        ensures { result ≡ has_more (work_left self.now) }
    {
        match self {
            Work::Block(left) => left.has_more(),
            Work::Beside(core) => core.has_more(),
        }
    }

    /// The next command, at this moment in seconds.
    pub(crate) fn next(&self, alloc: Global, at: u64) -> Result<Option<Words>, AllocError>
        ensures words { IfOk result (λ words. words ≡ next_words (work_left self.now) at) }
        ensures limits { IfOk result (λ words. IfSome words IsWithinLimits) }
    {
        match self {
            Work::Block(left) => left.next(alloc, at),
            Work::Beside(core) => core.next(alloc, at),
        }
    }

    /// Takes the reply to it.
    pub(crate) fn took(&mut self, alloc: Global, at: u64, reply: &Reply) -> Result<(), ReplyFault>
        requires moment { at < moment_limit }
        requires asked { IsSome (next_words (work_left self.old) at) }
        ensures { HeardWork self.old self.new at reply.now result }
    {
        match self {
            Work::Block(left) => hear(alloc, at, reply, left),
            Work::Beside(core) => core.took(alloc, reply),
        }
    }

    /// How it ended, once.
    pub(crate) fn end(&mut self) -> Option<BlockEnd>
        ensures given { result ≡ work_end self.old }
        ensures once { work_end self.new ≡ None }
        ensures left { work_left self.new ≡ work_left self.old }
    {
        match self {
            Work::Block(left) => end_of(left),
            Work::Beside(core) => core.end(),
        }
    }
}
