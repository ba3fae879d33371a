//! Reading the task that an envelope carries.
ghost use Rattle.std.specs.Prelude.{◌≡◌, IfOk, IsUtf8, Ok, option_map};
ghost use Rattle.serde_json.specs.Find.{as_array};
ghost use Rattle.serde_json.specs.View.{items_view, view as data_of};
ghost use Rattle.envelope.specs.Envelopes.{json_at};
ghost use Rattle.task_message.specs.Reading.{GivesTask, needed};
ghost use Rattle.task_message.specs.Shown.{call_view, found_view, settings_view, task_view};
ghost use Rattle.task_message.specs.Tasks.{call_in, call_of_items, content_in, first_task, fit_call, headers_in, is_second, second_task, settings_in, task_in, task_of, told_name};
ghost use Rattle.task_message.specs.declared.fault.Part.TheVariants as part;
ghost use Rattle.task_message.specs.declared.fault.TaskFault.TheVariants.{BadField};

use crate::fault::{Part, TaskFault};
use crate::found::{Call, Found, Settings};
use crate::members::{
    array, if_array, if_object, moment, needed, needed_name, needed_retries, needed_word,
    some_word, want, word,
};
use crate::task::Task;
use envelope::Envelope;
use envelope_trees::find::{object, text};
use envelope_trees::walk::{holds_float, nests_within};
use serde_json::Value;
use std::alloc::{AllocError, Global};
use wire_values::Bytes;

/// The deepest nesting of a content.
const MAX_LEVELS: u32 = 100;

/// The task that an envelope carries. A message is of version 2 exactly where its headers have a member `task`.
///
/// # Errors
/// The first that holds: `BadField(Body)` where the content is no JSON or nests more than 100 deep; `Float`; `NoTask`;
/// `BadField` of the first part in the order of `Part`; `BadMoment`. `Memory` is want of memory; `TooLong` never comes.
#[tactic(auto, unfolding(crate::specs::Tasks::task_of))]
pub fn read(alloc: Global, e: &Envelope) -> Result<Task, TaskFault>
    ensures task { GivesTask task_view result (task_of (data_of e.now)) }
    // The name and the id are UTF-8.
    ensures texts { IfOk result (λ t. IsUtf8 t.name × IsUtf8 t.id) }
{
    let content = content_of(alloc, e.content())?;
    let found = found_in(e.tree(), &content)?;
    taken(alloc, &found)
}

/// The tree of a content.
#[tactic(auto, unfolding(crate::specs::Tasks::content_in))]
fn content_of(alloc: Global, content: &[u8]) -> Result<Value, TaskFault>
    ensures { GivesTask data_of result (content_in content.now) }
{
    let tree = json(alloc, content)?;
    want(
        nests_within(&tree, MAX_LEVELS),
        TaskFault::BadField(Part::Body),
    )?;
    want(!holds_float(&tree), TaskFault::Float)?;
    Ok(tree)
}

/// The JSON tree of a content.
fn json(alloc: Global, content: &[u8]) -> Result<Value, TaskFault>
    ensures { GivesTask data_of result (needed (BadField part.Body) (json_at content.now)) }
{
    match Value::from_slice(alloc, content) {
        Ok(value) => Ok(value),
        Err(e) => if e.is_memory() {
            Err(TaskFault::Memory)
        } else {
            Err(TaskFault::BadField(Part::Body))
        },
    }
}

/// The task of an envelope's tree and of a content's tree.
fn found_in<'a>(tree: &'a Value, content: &'a Value) -> Result<Found<'a>, TaskFault>
    ensures { GivesTask found_view result
        (task_in (headers_in (data_of tree.now)) (data_of content.now)) }
{
    match tree.get("headers") {
        Some(headers) => found_by(headers, content),
        None => first(content),
    }
}

/// The task of headers and of a content's tree.
fn found_by<'a>(headers: &'a Value, content: &'a Value) -> Result<Found<'a>, TaskFault>
    ensures { GivesTask found_view result (task_in (data_of headers.now) (data_of content.now)) }
{
    if is_second(headers) {
        second(headers, content)
    } else {
        first(content)
    }
}

/// Whether a message with these headers is of version 2.
fn is_second(headers: &Value) -> bool
    ensures { result ≡ is_second (data_of headers.now) }
{
    headers.get("task").is_some()
}

/// The task of version 2.
#[tactic(auto, unfolding(crate::specs::Tasks::second_task))]
fn second<'a>(headers: &'a Value, content: &'a Value) -> Result<Found<'a>, TaskFault>
    ensures { GivesTask found_view result
        (second_task (data_of headers.now) (data_of content.now)) }
{
    let call = needed_call(content)?;
    let name = needed_word(word(headers, "task"), Part::Name)?;
    let id = needed_word(word(headers, "id"), Part::Id)?;
    let fit = fit_call(&call)?;
    let settings = settings(headers)?;
    Ok(Found {
        version: 2,
        name,
        id,
        args: fit.args,
        kwargs: fit.kwargs,
        settings,
    })
}

/// The call, where its three parts are of the right kinds.
#[tactic(auto, unfolding(crate::specs::Tasks::fit_call))]
fn fit_call<'a>(call: &Call<'a>) -> Result<Call<'a>, TaskFault>
    ensures { GivesTask call_view result (fit_call (call_view call.now)) }
{
    let args = needed(if_array(call.args), Part::Args)?;
    let kwargs = needed(if_object(call.kwargs), Part::Kwargs)?;
    let embed = needed(if_object(call.embed), Part::Embed)?;
    Ok(Call {
        args,
        kwargs,
        embed,
    })
}

/// The call of a content of version 2, an array of three.
fn needed_call(content: &Value) -> Result<Call<'_>, TaskFault>
    ensures { GivesTask call_view result (needed (BadField part.Body) (call_in (data_of content.now))) }
{
    match call(content) {
        Some(found) => Ok(found),
        None => Err(TaskFault::BadField(Part::Body)),
    }
}

/// The call of a content of version 2, where it is an array of three.
fn call(content: &Value) -> Option<Call<'_>>
    ensures { option_map call_view result ≡ call_in (data_of content.now) }
{
    three_of(content.as_array()?)
}

/// The call of three items.
fn three_of(items: &[Value]) -> Option<Call<'_>>
    ensures { option_map call_view result ≡ call_of_items (items_view items.now) }
{
    match items {
        [] | [_] | [_, _] => None,
        [args, kwargs, embed] => Some(Call {
            args,
            kwargs,
            embed,
        }),
        [_, _, _, _, ..] => None,
    }
}

/// The task of version 1.
#[tactic(auto, unfolding(crate::specs::Tasks::first_task))]
fn first(content: &Value) -> Result<Found<'_>, TaskFault>
    ensures { GivesTask found_view result (first_task (data_of content.now)) }
{
    let name = told_name(content)?;
    let id = needed_word(word(content, "id"), Part::Id)?;
    let args = needed(array(content, "args"), Part::Args)?;
    let kwargs = needed(object(content, "kwargs"), Part::Kwargs)?;
    let settings = settings(content)?;
    Ok(Found {
        version: 1,
        name,
        id,
        args,
        kwargs,
        settings,
    })
}

/// The name that a content of version 1 tells.
#[tactic(auto, unfolding(crate::specs::Tasks::told_name))]
fn told_name(content: &Value) -> Result<&str, TaskFault>
    ensures { GivesTask (λ s. s.now) result (told_name (data_of content.now)) }
{
    let told = needed_name(text(content, "task"))?;
    needed_word(some_word(told), Part::Name)
}

/// The settings that an object tells.
#[tactic(auto, unfolding(crate::specs::Tasks::settings_in))]
fn settings(object: &Value) -> Result<Settings, TaskFault>
    ensures { GivesTask settings_view result (settings_in (data_of object.now)) }
{
    let retries = needed_retries(object)?;
    let eta = moment(object, "eta")?;
    let expires = moment(object, "expires")?;
    Ok(Settings {
        retries,
        eta,
        expires,
    })
}

/// A task of its own.
fn taken(alloc: Global, found: &Found<'_>) -> Result<Task, TaskFault>
    ensures task { GivesTask task_view result (Ok (found_view found.now)) }
    ensures texts { IfOk result (λ t. IsUtf8 t.name × IsUtf8 t.id) }
{
    let name = Bytes::from_slice(alloc, found.name.as_bytes())?;
    let id = Bytes::from_slice(alloc, found.id.as_bytes())?;
    let trees = trees_of(found)?;
    Ok(Task {
        version: found.version,
        name,
        id,
        args: trees.args,
        kwargs: trees.kwargs,
        retries: found.settings.retries,
        eta: found.settings.eta,
        expires: found.settings.expires,
    })
}

/// The arguments and the keywords of a task.
#[derive(Drop)]
struct Trees {
    args: Value,
    kwargs: Value,
}

/// Copies of the arguments and the keywords of a task.
fn trees_of(found: &Found<'_>) -> Result<Trees, AllocError>
    ensures args { IfOk result (λ made. data_of made.args ≡ data_of found.now.args.now) }
    ensures kwargs { IfOk result (λ made. data_of made.kwargs ≡ data_of found.now.kwargs.now) }
{
    let args = found.args.clone()?;
    let kwargs = found.kwargs.clone()?;
    Ok(Trees { args, kwargs })
}
