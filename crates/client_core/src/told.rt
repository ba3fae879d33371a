//! The reply to a block's command, and the end of a block, by its core.
ghost use Rattle.std.specs.Prelude.{◌≡◌, ◌<◌, IsSome, Option, None};
ghost use Rattle.store_model.specs.Limits.{moment_limit};
ghost use Rattle.command_blocks.specs.Scripts.{next_words};
ghost use Rattle.client_blocks.specs.Blocks.{script_left};
ghost use Rattle.client_core.specs.Lefts.{HeardLeft, left_end};

use block_core::ReplyFault;
use client_blocks::BlockLeft;
use std::alloc::Global;
use steps::BlockEnd;
use store_model::Reply;

/// Has the core of a block take the reply to its next command.
pub(crate) fn hear(
    alloc: Global,
    at: u64,
    reply: &Reply,
    left: &mut BlockLeft,
) -> Result<(), ReplyFault>
    requires moment { at < moment_limit }
    requires asked { IsSome (next_words (script_left left.old) at) }
    ensures { HeardLeft left.old left.new at reply.now result }
{
    match left {
        BlockLeft::Over => unreachable!(),
        BlockLeft::Declare(core) => core.took(alloc, at, reply),
        BlockLeft::Publish(core) => core.took(alloc, at, reply),
        BlockLeft::Pop(core) => core.took(alloc, at, reply),
        BlockLeft::End(core) => core.took(alloc, at, reply),
        BlockLeft::Return(core) => core.took(alloc, at, reply),
        BlockLeft::Pass(core) => core.took(alloc, at, reply),
    }
}

/// How a block ended, once, after its last reply.
pub(crate) fn end_of(left: &mut BlockLeft) -> Option<BlockEnd>
    ensures given { result ≡ left_end left.old }
    ensures once { left_end left.new ≡ None }
    ensures left { script_left left.new ≡ script_left left.old }
{
    match left {
        BlockLeft::Over => None,
        BlockLeft::Declare(core) => core.end().map(BlockEnd::Declare),
        BlockLeft::Publish(core) => core.end().map(BlockEnd::Publish),
        BlockLeft::Pop(core) => core.end().map(BlockEnd::Pop),
        BlockLeft::End(core) => core.end().map(BlockEnd::End),
        BlockLeft::Return(core) => core.end().map(BlockEnd::Return),
        BlockLeft::Pass(core) => core.end().map(BlockEnd::Pass),
    }
}
