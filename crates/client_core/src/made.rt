//! The blocks that a client begins, made.
ghost use Rattle.std.specs.Prelude.{◌≡◌, ◌≤◌, IfOk, Some, length, suc};
ghost use Rattle.serde_json.specs.View.{view as data_of};
ghost use Rattle.serde_json.specs.Written.{compact_text};
ghost use Rattle.delivery_tags.specs.Tags.{tag_text};
ghost use Rattle.command_blocks.specs.EnvelopeTexts.{plain_setting};
ghost use Rattle.command_blocks.specs.Scripts.{End, Pass, Pop, Publish, Return};
ghost use Rattle.routes.specs.Declares.{declaration_plan};
ghost use Rattle.routes.specs.Publishes.{IsPublishable};
ghost use Rattle.steps.specs.declared.counts.ClientCounts.{ClientCounts};
ghost use Rattle.client_core.specs.Begun.{IsMade};

use client_blocks::BlockLeft;
use command_blocks::Side;
use envelope::{Envelope, Tag};
use passes::{pass_core, pass_token};
use queue_keys::QueueName;
use returns::return_core;
use routes::{Declaration, declare_core, publish_core};
use std::alloc::{AllocError, Global};
use unacked::{end_core, pop_core};
use wire_values::List;

/// A declaration of a binding.
pub(crate) fn declaring(alloc: Global, declaration: Declaration) -> Result<BlockLeft, AllocError>
    ensures { IfOk result (λ left. (c : ClientCounts) → IsMade c (declaration_plan declaration) left) }
{
    Ok(BlockLeft::Declare(Box::new(alloc, declare_core(declaration))?))
}

/// A publication of an envelope. On the empty exchange its routing key is the lawful name of a queue.
pub(crate) fn publishing(alloc: Global, envelope: Envelope) -> Result<BlockLeft, AllocError>
    requires { IsPublishable (data_of envelope) }
    ensures { let v = compact_text (data_of envelope) in IfOk result (λ left. (c : ClientCounts)
        → plain_setting.written_tag v ≡ Some (plain_setting.tag c.seed (suc c.drawn)) → IsMade c (Publish v) left) }
{
    Ok(BlockLeft::Publish(Box::new(alloc, publish_core(envelope))?))
}

/// A pop over queues.
pub(crate) fn popping(alloc: Global, queues: List<QueueName>) -> Result<BlockLeft, AllocError>
    requires some { 1 ≤ length queues }
    requires few { length queues ≤ 1023 }
    ensures { IfOk result (λ left. (c : ClientCounts) → IsMade c (Pop queues) left) }
{
    Ok(BlockLeft::Pop(Box::new(alloc, pop_core(queues))?))
}

/// An acknowledgement of a tag.
pub(crate) fn ending(alloc: Global, tag: Tag) -> Result<BlockLeft, AllocError>
    ensures { IfOk result (λ left. (c : ClientCounts) → IsMade c (End (tag_text tag.0)) left) }
{
    Ok(BlockLeft::End(Box::new(alloc, end_core(tag))?))
}

/// A return of a tag's message to its queues, at this side of them.
pub(crate) fn returning(alloc: Global, tag: Tag, side: Side) -> Result<BlockLeft, AllocError>
    ensures { IfOk result (λ left. (c : ClientCounts) → IsMade c (Return side (tag_text tag.0)) left) }
{
    Ok(BlockLeft::Return(Box::new(alloc, return_core(tag, side))?))
}

/// A pass of a client of this seed, by the number of the pass, from 1.
pub(crate) fn passing(
    alloc: Global,
    seed: u64,
    number: u64,
    visibility: u32,
) -> Result<BlockLeft, AllocError>
    ensures { IfOk result (λ left. (c : ClientCounts) → c.seed ≡ seed → suc c.passes ≡ number → IsMade c (Pass visibility) left) }
{
    let token = pass_token(alloc, seed, number)?;
    Ok(BlockLeft::Pass(Box::new(alloc, pass_core(visibility, token))?))
}
