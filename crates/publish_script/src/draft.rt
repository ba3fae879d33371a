//! The task that a publish line drafts, with its moments, and its sealed envelope (Celery's message protocol, version 2).
ghost use Rattle.std.specs.Prelude.{◌≡◌, ◌≤◌, ◌<◌, ◌^◌, IfOk, IfSome, IsUtf8, Some, length, option_map, true};
ghost use Rattle.std.specs.Result.{result_ok};
ghost use Rattle.serde_json.specs.View.{view as data_of};
ghost use Rattle.serde_json.specs.Written.{compact_text};
ghost use Rattle.delivery_tags.specs.Tags.{tag_text};
ghost use Rattle.sealed_drafts.specs.Sealed.{seal_of};
ghost use Rattle.command_blocks.specs.EnvelopeTexts.{plain_setting};
ghost use Rattle.queue_keys.specs.Names.{Bytes};
ghost use Rattle.task_message.specs.Drafted.{is_writable};
ghost use Rattle.task_message.specs.Shown.{micros_if, task_view};
ghost use Rattle.schedule_model.specs.Drafts.{are_texts, arguments_of, if_arguments};
ghost use Rattle.client_plans.specs.Tasks.{Names, envelope_text};
ghost use Rattle.publish_script.specs.Drafts.{IsTimedDraft, timed_parts, timed_task};
ghost use Rattle.publish_script.specs.Readings.{times_of};

use client_plans::is_text;
use envelope::{Envelope, EnvelopeFault, Tag, Tree};
use moments::Moment;
use sealed_drafts::{Draft, seal};
use serde_json::{Map, Value};
use std::alloc::{AllocError, Global};
use task_message::{Task, draft};
use wire_values::Bytes;

/// What a publish line sends, beside the arguments.
#[derive(Drop)]
pub(crate) struct Sending<'a> {
    /// The exchange; empty for a message that goes to its queue directly.
    pub(crate) exchange: &'a [u8],
    /// The routing key.
    pub(crate) routing_key: &'a [u8],
    /// The priority.
    pub(crate) priority: u8,
    /// The name of the task.
    pub(crate) task: &'a [u8],
    /// The moment before which the task waits.
    pub(crate) eta: Option<Moment>,
    /// The moment after which it is expired.
    pub(crate) expires: Option<Moment>,
}

/// The sealed envelope of a task with these arguments, under the tag of a seed and a counter. None where it is refused: a
/// name that isn't UTF-8, an exchange or a routing key of more than 255 bytes, or a text that is too long.
pub(crate) fn sealed_task(
    alloc: Global,
    seed: u64,
    counter: u64,
    asked: &Sending,
    arguments: Tree,
) -> Result<Option<Envelope>, AllocError>
    requires named { 1 ≤ length asked.now.task.now }
    requires lawful { if_arguments (data_of arguments) ≡ Some (data_of arguments) }
    requires eta { is_writable (micros_if asked.now.eta) ≡ true }
    requires expires { is_writable (micros_if asked.now.expires) ≡ true }
    // Whatever text spells the arguments.
    ensures text { IfOk result (λ made. (j : Bytes) → arguments_of j ≡ Some (data_of arguments)
        → option_map envelope_text made ≡ timed_task (times_of asked.now) seed counter
        asked.now.exchange.now asked.now.routing_key.now asked.now.priority asked.now.task.now j) }
    ensures names { IfOk result (λ made. IfSome made (λ e.
        Names asked.now.exchange.now asked.now.routing_key.now (data_of e))) }
    ensures tag { IfOk result (λ made. IfSome made (λ e.
        plain_setting.written_tag (compact_text (data_of e)) ≡ Some (plain_setting.tag seed counter))) }
{
    if !are_texts(asked) {
        return Ok(None);
    }
    let tag = Tag::of(seed, counter);
    let draft = draft_of(alloc, tag, asked, arguments)?;
    sealed_under(alloc, &draft, tag)
}

/// Whether the names of what is sent are UTF-8.
fn are_texts(asked: &Sending) -> bool
    ensures { result ≡ are_texts asked.now.exchange.now asked.now.routing_key.now asked.now.task.now }
{
    is_text(asked.exchange) && is_text(asked.routing_key) && is_text(asked.task)
}

/// The draft of a task with these arguments, whose id is the text of its tag.
fn draft_of(alloc: Global, tag: Tag, asked: &Sending, arguments: Tree) -> Result<Draft, AllocError>
    requires text { IsUtf8 asked.now.task.now }
    requires named { 1 ≤ length asked.now.task.now }
    requires lawful { if_arguments (data_of arguments) ≡ Some (data_of arguments) }
    requires eta { is_writable (micros_if asked.now.eta) ≡ true }
    requires expires { is_writable (micros_if asked.now.expires) ≡ true }
    ensures { IfOk result (IsTimedDraft
        (timed_parts (tag_text tag.0) asked.now.task.now (data_of arguments) (times_of asked.now))
        asked.now.exchange.now asked.now.routing_key.now asked.now.priority) }
{
    let task = task_of(alloc, tag, asked, arguments)?;
    draft(
        alloc,
        &task,
        asked.exchange,
        asked.routing_key,
        asked.priority as i64,
    )
}

/// The task with these arguments, whose id is the text of a tag.
fn task_of(alloc: Global, tag: Tag, asked: &Sending, arguments: Tree) -> Result<Task, AllocError>
    ensures { IfOk result (λ t. task_view t
        ≡ timed_parts (tag_text tag.0) asked.now.task.now (data_of arguments) (times_of asked.now)) }
{
    let id = Bytes::from_slice(alloc, &tag.text())?;
    let name = Bytes::from_slice(alloc, asked.task)?;
    Ok(Task {
        version: 2,
        name,
        id,
        args: arguments,
        kwargs: Value::Object(Map::new(alloc)),
        retries: 0,
        eta: asked.eta,
        expires: asked.expires,
    })
}

/// The envelope of a draft under a tag. None where it is refused.
fn sealed_under(alloc: Global, draft: &Draft, tag: Tag) -> Result<Option<Envelope>, AllocError>
    requires tag { tag.0 < 2 ^ 128 }
    requires id { IsUtf8 draft.now.id }
    requires exchange { IsUtf8 draft.now.exchange }
    requires routing_key { IsUtf8 draft.now.routing_key }
    ensures tree { IfOk result (λ made. option_map data_of made ≡ result_ok (seal_of draft.now tag.0)) }
    ensures names { IfOk result (λ made. IfSome made (λ e.
        Names draft.now.exchange draft.now.routing_key (data_of e))) }
    ensures tag { IfOk result (λ made. IfSome made (λ e.
        plain_setting.written_tag (compact_text (data_of e)) ≡ Some (tag_text tag.0))) }
{
    match seal(alloc, draft, tag) {
        Ok(envelope) => {
            // Each envelope's tree is one that can be read, and its text is read again as the same tree.
            let _tree = envelope.tree();
            let _text = envelope.text();
            Ok(Some(envelope))
        }
        Err(EnvelopeFault::Memory) => Err(AllocError),
        Err(_) => Ok(None),
    }
}
