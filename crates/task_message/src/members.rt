//! Looking for the members of a task, and putting members into an object.
ghost use Rattle.std.specs.Prelude.{◌≡◌, IfOk, IsUtf8, None, OnOk, Some, option_and_then, option_map, string_bytes, true};
ghost use Rattle.serde_json.specs.Data.{put as with_member, string};
ghost use Rattle.serde_json.specs.View.{members_view, view as data_of};
ghost use Rattle.envelope_trees.specs.Members.{if_object};
ghost use Rattle.task_message.specs.Drafted.{can_draft, is_writable, moment_data};
ghost use Rattle.task_message.specs.Put.{with_settings};
ghost use Rattle.task_message.specs.Reading.{GivesTask, needed, wanted};
ghost use Rattle.task_message.specs.Shown.{micros_if, task_view};
ghost use Rattle.task_message.specs.Tasks.{array_at, if_32_bits, if_array, if_word, moment_at, retries_at, spelled_moment, word_at};
ghost use Rattle.task_message.specs.declared.fault.Part.TheVariants as part;
ghost use Rattle.task_message.specs.declared.fault.TaskFault.TheVariants.{BadField, BadMoment, NoTask};
ghost use Rattle.moments.specs.MomentTexts.{moment_of};
ghost use Rattle.envelope_trees.specs.Members.{text_at};

use crate::fault::{Part, TaskFault};
use crate::task::Task;
use envelope::Tree;
use envelope_trees::find::{is_nothing_at, text};
use moments::Moment;
use serde_json::{Map, Value, put};
use std::alloc::{AllocError, Global};

/// The fault, unless the fact holds.
pub(crate) fn want(holds: bool, fault: TaskFault) -> Result<(), TaskFault>
    ensures { GivesTask (λ x. x) result (wanted fault holds) }
{
    if holds { Ok(()) } else { Err(fault) }
}

/// The value, where it is an array.
pub(crate) fn if_array(value: &Value) -> Option<&Value>
    ensures { option_map (λ v. data_of v.now) result ≡ if_array (data_of value.now) }
{
    if value.is_array() { Some(value) } else { None }
}

/// The value, where it is an object.
pub(crate) fn if_object(value: &Value) -> Option<&Value>
    ensures { option_map (λ v. data_of v.now) result ≡ if_object (data_of value.now) }
{
    if value.is_object() { Some(value) } else { None }
}

/// The array at a name.
pub(crate) fn array<'a>(value: &'a Value, name: &str) -> Option<&'a Value>
    ensures { option_map (λ v. data_of v.now) result ≡ array_at name.now (data_of value.now) }
{
    if_array(value.get(name)?)
}

/// The text, where it isn't empty.
pub(crate) fn some_word(text: &str) -> Option<&str>
    ensures { option_map (λ s. s.now) result ≡ if_word text.now }
{
    if text.is_empty() { None } else { Some(text) }
}

/// The text at a name that isn't empty.
pub(crate) fn word<'a>(value: &'a Value, name: &str) -> Option<&'a str>
    ensures { option_map (λ s. s.now) result ≡ word_at name.now (data_of value.now) }
{
    some_word(text(value, name)?)
}

/// The value that was found, or the fault of its part.
pub(crate) fn needed(found: Option<&Value>, part: Part) -> Result<&Value, TaskFault>
    ensures { GivesTask (λ v. data_of v.now) result
        (needed (BadField part) (option_map (λ v. data_of v.now) found.entry)) }
{
    match found {
        Some(value) => Ok(value),
        None => Err(TaskFault::BadField(part)),
    }
}

/// The text that was found, or the fault of its part.
pub(crate) fn needed_word(found: Option<&str>, part: Part) -> Result<&str, TaskFault>
    ensures { GivesTask (λ s. s.now) result
        (needed (BadField part) (option_map (λ s. s.now) found.entry)) }
{
    match found {
        Some(word) => Ok(word),
        None => Err(TaskFault::BadField(part)),
    }
}

/// The text that names the task of a message of version 1.
pub(crate) fn needed_name(found: Option<&str>) -> Result<&str, TaskFault>
    ensures { GivesTask (λ s. s.now) result (needed NoTask (option_map (λ s. s.now) found.entry)) }
{
    match found {
        Some(name) => Ok(name),
        None => Err(TaskFault::NoTask),
    }
}

/// How often a task was retried.
fn retries(value: &Value) -> Option<u32>
    ensures { result ≡ retries_at (data_of value.now) }
{
    if is_nothing_at(value, "retries") {
        return Some(0);
    }
    if_32_bits(value.get("retries")?.as_u64()?)
}

/// The number, where it has 32 bits.
fn if_32_bits(number: u64) -> Option<u32>
    ensures { result ≡ if_32_bits number }
{
    if number <= u32::MAX as u64 {
        Some(number as u32)
    } else {
        None
    }
}

/// How often a task was retried, or the fault.
pub(crate) fn needed_retries(value: &Value) -> Result<u32, TaskFault>
    ensures { GivesTask (λ n. n) result
        (needed (BadField part.Retries) (retries_at (data_of value.now))) }
{
    match retries(value) {
        Some(number) => Ok(number),
        None => Err(TaskFault::BadField(Part::Retries)),
    }
}

/// The moment of the text at a name, none where nothing or null stands.
pub(crate) fn moment(value: &Value, name: &str) -> Result<Option<Moment>, TaskFault>
    ensures { GivesTask micros_if result (moment_at name.now (data_of value.now)) }
{
    if is_nothing_at(value, name) {
        return Ok(None);
    }
    match spelled(value, name) {
        Some(moment) => Ok(Some(moment)),
        None => Err(TaskFault::BadMoment),
    }
}

/// The moment of the text at a name.
fn spelled(value: &Value, name: &str) -> Option<Moment>
    ensures { micros_if result ≡ option_and_then moment_of (text_at name.now (data_of value.now)) }
{
    Moment::read(text(value, name)?.as_bytes())
}

/// A moment as it stands in a message: its text, or null.
pub fn moment_tree(alloc: Global, moment: Option<Moment>) -> Result<Tree, AllocError>
    requires { is_writable (micros_if moment) ≡ true }
    ensures { IfOk result (λ v. data_of v ≡ moment_data (micros_if moment)) }
{
    match moment {
        Some(moment) => {
            let text = moment.write(alloc)?;
            let text = String::from_str(alloc, text_of(text.as_slice()))?;
            Ok(Value::String(text))
        }
        None => Ok(Value::Null),
    }
}

/// Bytes of UTF-8 as a text.
pub(crate) fn text_of(bytes: &[u8]) -> &str
    requires { IsUtf8 bytes.now }
    ensures { result.now ≡ bytes.now }
{
    match str::from_utf8(bytes) {
        Ok(text) => text,
        Err(_) => unreachable!(),
    }
}

/// Puts a text at a name.
pub(crate) fn put_text(
    alloc: Global,
    map: &mut Map<String, Value>,
    name: &str,
    text: &str,
) -> Result<(), AllocError>
    ensures { OnOk result (members_view map.new.entries
        ≡ with_member name.now (string text.now) (members_view map.old.entries)) }
{
    let value = Value::String(String::from_str(alloc, text)?);
    put(map, alloc, name, value)
}

/// Puts the settings of a task.
pub(crate) fn put_settings(
    alloc: Global,
    members: &mut Map<String, Value>,
    t: &Task,
) -> Result<(), AllocError>
    requires { can_draft (task_view t.now) ≡ true }
    ensures { OnOk result (members_view members.new.entries
        ≡ with_settings (task_view t.now).settings (members_view members.old.entries)) }
{
    let eta = moment_tree(alloc, t.eta)?;
    put(members, alloc, "eta", eta)?;
    let expires = moment_tree(alloc, t.expires)?;
    put(members, alloc, "expires", expires)?;
    put(members, alloc, "retries", Value::from(t.retries as u64))
}
