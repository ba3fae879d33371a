//! The headers of a drafted task.
ghost use Rattle.std.specs.Prelude.{◌≡◌, IfOk, OnOk, false, true};
ghost use Rattle.serde_json.specs.Data.{array, item, no_items, null, put as with_member, string};
ghost use Rattle.serde_json.specs.Written.{compact_text, has_float};
ghost use Rattle.serde_json.specs.View.{members_view, view as data_of};
ghost use Rattle.task_message.specs.Drafted.{can_draft, drafted_headers, headers_of};
ghost use Rattle.task_message.specs.Put.{with_fixed, with_ids, with_spellings};
ghost use Rattle.task_message.specs.Shown.{task_view};

use crate::members::{put_settings, put_text, text_of};
use crate::task::Task;
use serde_json::{Map, Value, json, put};
use std::alloc::{AllocError, Global};

/// The headers of a task: none in version 1.
pub(crate) fn headers_tree(alloc: Global, t: &Task) -> Result<Value, AllocError>
    requires { can_draft (task_view t.now) ≡ true }
    ensures { IfOk result (λ v. data_of v ≡ drafted_headers (task_view t.now)) }
{
    if t.version == 1 {
        Ok(Value::Object(Map::new(alloc)))
    } else {
        headers_of(alloc, t)
    }
}

/// The headers of version 2.
fn headers_of(alloc: Global, t: &Task) -> Result<Value, AllocError>
    requires { can_draft (task_view t.now) ≡ true }
    ensures { IfOk result (λ v. data_of v ≡ headers_of (task_view t.now)) }
{
    let mut members = Map::new(alloc);
    put_fixed(alloc, &mut members)?;
    put_settings(alloc, &mut members, t)?;
    put_spellings(alloc, &mut members, t)?;
    put_ids(alloc, &mut members, t)?;
    Ok(Value::Object(members))
}

/// Puts the headers that each task has alike.
fn put_fixed(alloc: Global, members: &mut Map<String, Value>) -> Result<(), AllocError>
    ensures { OnOk result (members_view members.new.entries
        ≡ with_fixed (members_view members.old.entries)) }
{
    put(members, alloc, "group", Value::Null)?;
    put_text(alloc, members, "lang", "py")?;
    put_text(alloc, members, "origin", "node")?;
    put(members, alloc, "parent_id", Value::Null)?;
    put(members, alloc, "timelimit", no_limits(alloc)?)
}

/// No limits of time.
fn no_limits(alloc: Global) -> Result<Value, AllocError>
    ensures { IfOk result (λ v. data_of v ≡ array (item null (item null no_items))) }
{
    json!(in alloc; [null, null])
}

/// Puts the spellings of a task's arguments and keywords, for those who look at a message.
fn put_spellings(
    alloc: Global,
    members: &mut Map<String, Value>,
    t: &Task,
) -> Result<(), AllocError>
    requires { can_draft (task_view t.now) ≡ true }
    ensures { OnOk result (members_view members.new.entries
        ≡ with_spellings (task_view t.now) (members_view members.old.entries)) }
{
    put_spelling(alloc, members, "argsrepr", &t.args)?;
    put_spelling(alloc, members, "kwargsrepr", &t.kwargs)
}

/// Puts the compact text of a tree.
fn put_spelling(
    alloc: Global,
    members: &mut Map<String, Value>,
    name: &str,
    tree: &Value,
) -> Result<(), AllocError>
    requires { has_float (data_of tree.now) ≡ false }
    ensures { OnOk result (members_view members.new.entries
        ≡ with_member name.now (string (compact_text (data_of tree.now)))
        (members_view members.old.entries)) }
{
    let text = tree.to_string(alloc)?;
    put_text(alloc, members, name, text.as_str())
}

/// Puts the id and the name of a task.
fn put_ids(alloc: Global, members: &mut Map<String, Value>, t: &Task) -> Result<(), AllocError>
    requires { can_draft (task_view t.now) ≡ true }
    ensures { OnOk result (members_view members.new.entries
        ≡ with_ids (task_view t.now) (members_view members.old.entries)) }
{
    let id = text_of(t.id.as_slice());
    put_text(alloc, members, "id", id)?;
    put_text(alloc, members, "root_id", id)?;
    put_text(alloc, members, "task", text_of(t.name.as_slice()))
}
