//! The draft of what an entry sends.
ghost use Rattle.std.specs.Prelude.{◌≡◌, IfOk};
ghost use Rattle.serde_json.specs.View.{view as data_of};
ghost use Rattle.task_message.specs.Shown.{task_view};
ghost use Rattle.beat_round.specs.Rounds.{IsDrafting, entry_task};

use beat_files::BeatTask;
use client_plans::is_text;
use envelope::Tag;
use sealed_drafts::Draft;
use serde_json::{Map, Value};
use std::alloc::{AllocError, Global};
use task_message::{Task, can_draft, draft};
use wire_values::Bytes;

/// The draft of an entry's task, sent to the entry's queue directly with priority 0; its id is the text of the tag. None
/// where the task can't be drafted.
pub(crate) fn entry_draft(
    alloc: Global,
    entry: &BeatTask,
    tag: Tag,
) -> Result<Option<Draft>, AllocError>
    ensures { IfOk result (IsDrafting entry.now tag.0) }
{
    let task = entry_task(alloc, entry, tag)?;
    if !is_text(entry.queue.bytes()) || !can_draft(&task) {
        return Ok(None);
    }
    let made = draft(alloc, &task, b"".as_slice(), entry.queue.bytes(), 0)?;
    Ok(Some(made))
}

/// The task that an entry sends under a tag.
fn entry_task(alloc: Global, entry: &BeatTask, tag: Tag) -> Result<Task, AllocError>
    ensures { IfOk result (λ t. task_view t ≡ entry_task entry.now tag.0) }
{
    let id = Bytes::from_slice(alloc, &tag.text())?;
    let name = Bytes::from_slice(alloc, entry.task.as_slice())?;
    let args = entry.args.clone()?;
    Ok(Task {
        version: 2,
        name,
        id,
        args,
        kwargs: Value::Object(Map::new(alloc)),
        retries: 0,
        eta: None,
        expires: None,
    })
}
