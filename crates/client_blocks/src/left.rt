//! What is left of a client's block.
ghost use Rattle.std.specs.Prelude.{◌≡◌, IfOk, IfSome};
ghost use Rattle.command_blocks.specs.Scripts.{next_words};
ghost use Rattle.schedule_model.specs.Faults.{has_more, is_script_off};
ghost use Rattle.client_blocks.specs.Blocks.{script_left};
ghost use Rattle.wire_grammar.specs.Fits.{IsWithinLimits};

use passes::PassCore;
use returns::ReturnCore;
use routes::{DeclareCore, PublishCore};
use std::alloc::{AllocError, Global};
use unacked::{EndCore, PopCore};
use wire_values::Words;

/// What is left of a client's block: nothing, or what a core has to say.
#[derive(Drop)]
pub enum BlockLeft {
    Over,
    Declare(Box<DeclareCore>),
    Publish(Box<PublishCore>),
    Pop(Box<PopCore>),
    End(Box<EndCore>),
    Return(Box<ReturnCore>),
    Pass(Box<PassCore>),
}

impl BlockLeft {
    /// Whether an answer wasn't listed.
    pub fn is_off(&self) -> bool
        ensures { result ≡ is_script_off (script_left self.now) }
    {
        match self {
            BlockLeft::Over => false,
            BlockLeft::Declare(core) => core.is_off(),
            BlockLeft::Publish(core) => core.is_off(),
            BlockLeft::Pop(core) => core.is_off(),
            BlockLeft::End(core) => core.is_off(),
            BlockLeft::Return(core) => core.is_off(),
            BlockLeft::Pass(core) => core.is_off(),
        }
    }

    /// Whether there is a command to come.
    pub fn has_more(&self) -> bool
        ensures { result ≡ has_more (script_left self.now) }
    {
        match self {
            BlockLeft::Over => false,
            BlockLeft::Declare(core) => core.is_busy(),
            BlockLeft::Publish(core) => core.is_busy(),
            BlockLeft::Pop(core) => core.is_busy(),
            BlockLeft::End(core) => core.is_busy(),
            BlockLeft::Return(core) => core.is_busy(),
            BlockLeft::Pass(core) => core.is_busy(),
        }
    }

    /// The words of the next command, at this moment. None where none is left.
    pub fn next(&self, alloc: Global, at: u64) -> Result<Option<Words>, AllocError>
        ensures words { IfOk result (λ words. words ≡ next_words (script_left self.now) at) }
        ensures limits { IfOk result (λ words. IfSome words IsWithinLimits) }
    {
        match self {
            BlockLeft::Over => Ok(None),
            BlockLeft::Declare(core) => core.next(alloc, at),
            BlockLeft::Publish(core) => core.next(alloc, at),
            BlockLeft::Pop(core) => core.next(alloc, at),
            BlockLeft::End(core) => core.next(alloc, at),
            BlockLeft::Return(core) => core.next(alloc, at),
            BlockLeft::Pass(core) => core.next(alloc, at),
        }
    }
}
