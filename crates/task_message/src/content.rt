//! The content of a drafted task.
ghost use Rattle.std.specs.Prelude.{◌≡◌, IfOk, OnOk, true};
ghost use Rattle.serde_json.specs.Data.{array, item, no_items};
ghost use Rattle.serde_json.specs.View.{members_view, view as data_of};
ghost use Rattle.task_message.specs.Drafted.{call_tree, can_draft, drafted_content, nothing_after, told_tree};
ghost use Rattle.task_message.specs.Put.{with_arguments, with_names, with_settings};
ghost use Rattle.task_message.specs.Shown.{task_view};

use crate::members::{put_settings, put_text, text_of};
use crate::task::Task;
use serde_json::{Map, Value, json, put};
use std::alloc::{AllocError, Global};

/// The tree of a task's content.
pub(crate) fn content_tree(alloc: Global, t: &Task) -> Result<Value, AllocError>
    requires { can_draft (task_view t.now) ≡ true }
    ensures { IfOk result (λ v. data_of v ≡ drafted_content (task_view t.now)) }
{
    if t.version == 1 {
        told_tree(alloc, t)
    } else {
        call_tree(alloc, t)
    }
}

/// The content of version 2: an array of the arguments, the keywords, and what is called after the task.
fn call_tree(alloc: Global, t: &Task) -> Result<Value, AllocError>
    ensures { IfOk result (λ v. data_of v ≡ call_tree (task_view t.now)) }
{
    let kwargs = t.kwargs.clone()?;
    let after = nothing_after(alloc)?;
    let args = t.args.clone()?;
    array_of(alloc, args, kwargs, after)
}

/// Nothing is called after the task.
fn nothing_after(alloc: Global) -> Result<Value, AllocError>
    ensures { IfOk result (λ v. data_of v ≡ nothing_after) }
{
    json!(in alloc; {"callbacks": null, "chain": null, "chord": null, "errbacks": null})
}

/// An array of three values.
fn array_of(alloc: Global, a: Value, b: Value, c: Value) -> Result<Value, AllocError>
    ensures { IfOk result (λ v. data_of v
        ≡ array (item (data_of a) (item (data_of b) (item (data_of c) no_items)))) }
{
    let items = vec![in alloc; a, b, c]?;
    Ok(Value::Array(items))
}

/// The content of version 1: an object that tells all of the task.
fn told_tree(alloc: Global, t: &Task) -> Result<Value, AllocError>
    requires { can_draft (task_view t.now) ≡ true }
    ensures { IfOk result (λ v. data_of v ≡ told_tree (task_view t.now)) }
{
    let mut members = Map::new(alloc);
    put_arguments(alloc, &mut members, t)?;
    put_settings(alloc, &mut members, t)?;
    put_names(alloc, &mut members, t)?;
    Ok(Value::Object(members))
}

/// Puts the arguments and the keywords of a task.
fn put_arguments(
    alloc: Global,
    members: &mut Map<String, Value>,
    t: &Task,
) -> Result<(), AllocError>
    ensures { OnOk result (members_view members.new.entries
        ≡ with_arguments (task_view t.now) (members_view members.old.entries)) }
{
    put(members, alloc, "args", t.args.clone()?)?;
    put(members, alloc, "kwargs", t.kwargs.clone()?)
}

/// Puts the id and the name of a task, and that its moments are in UTC.
fn put_names(alloc: Global, members: &mut Map<String, Value>, t: &Task) -> Result<(), AllocError>
    requires { can_draft (task_view t.now) ≡ true }
    ensures { OnOk result (members_view members.new.entries
        ≡ with_names (task_view t.now) (members_view members.old.entries)) }
{
    put_text(alloc, members, "id", text_of(t.id.as_slice()))?;
    put_text(alloc, members, "task", text_of(t.name.as_slice()))?;
    put(members, alloc, "utc", Value::Bool(true))
}
