//! Changes of an envelope's tree.
ghost use Rattle.std.specs.Prelude.{◌≡◌, ◌+◌, ◌<◌, ◌^◌, IsUtf8, OnOk, codes, suc, true};
ghost use Rattle.serde_json.specs.Data.{number, put as with_put, string, unsigned};
ghost use Rattle.serde_json.specs.View.{members_view, view as data_of};
ghost use Rattle.envelope_trees.specs.Marks.{on_object, with_member};
ghost use Rattle.delivery_tags.specs.Tags.{tag_text};
ghost use Rattle.moments.specs.CivilTimes.{is_within_years};
ghost use Rattle.moments.specs.MomentTexts.{moment_text};
ghost use Rattle.task_message.specs.Again.{headers_again, properties_again, retried, unmarked};

use envelope::Tag;
use serde_json::{Map, Value, put};
use std::alloc::{AllocError, Global};
use task_message::{Moment, moment_tree};

/// A retry that is to be written into a message.
#[derive(Clone, Copy)]
pub(crate) struct Retry {
    /// The number of retries so far.
    pub(crate) retries: u32,
    /// The moment before which the task waits.
    pub(crate) eta: Moment,
    ghost more: { retries + 1 < 2 ^ 32 },
    ghost writable: { is_within_years eta.0 ≡ true },
}

/// Takes the mark of an object out.
fn unmark(value: &mut Value)
    ensures { data_of value.new ≡ unmarked (data_of value.old) }
{
    if let Some(map) = value.as_object_mut() {
        map.remove("redelivered");
    }
}

/// Takes the mark of the object at a name out.
fn unmark_at(value: &mut Value, name: &str)
    ensures { data_of value.new ≡ with_member name.now unmarked (data_of value.old) }
{
    if let Some(map) = value.as_object_mut() {
        if let Some(member) = map.get_mut(name) {
            unmark(member);
        }
    }
}

/// Writes a retry into an object.
pub(crate) fn write_retry(alloc: Global, value: &mut Value, next: Retry) -> Result<(), AllocError>
    ensures { OnOk result (data_of value.new
        ≡ retried next.retries next.eta.0 (data_of value.old)) }
{
    if let Some(map) = value.as_object_mut() {
        put_retry(alloc, map, next)?;
    }
    Ok(())
}

/// Puts the settings of a retry.
fn put_retry(alloc: Global, map: &mut Map<String, Value>, next: Retry) -> Result<(), AllocError>
    ensures { OnOk result (members_view map.new.entries
        ≡ with_put (codes "eta") (string (moment_text next.eta.0))
        (with_put (codes "retries") (number (unsigned (suc next.retries)))
        (members_view map.old.entries))) }
{
    put(map, alloc, "retries", Value::from(next.retries as u64 + 1))?;
    let eta = moment_tree(alloc, Some(next.eta))?;
    put(map, alloc, "eta", eta)
}

/// Writes a retry into the headers of a message.
fn renew_headers(
    alloc: Global,
    headers: &mut Value,
    version: u8,
    next: Retry,
) -> Result<(), AllocError>
    ensures { OnOk result (data_of headers.new
        ≡ headers_again version next.retries next.eta.0 (data_of headers.old)) }
{
    unmark(headers);
    if version == 1 {
        Ok(())
    } else {
        write_retry(alloc, headers, next)
    }
}

/// Writes a retry into the headers of an envelope's tree.
pub(crate) fn renew_headers_in(
    alloc: Global,
    tree: &mut Value,
    version: u8,
    next: Retry,
) -> Result<(), AllocError>
    ensures { OnOk result (data_of tree.new
        ≡ with_member (codes "headers") (headers_again version next.retries next.eta.0)
        (data_of tree.old)) }
{
    if let Some(map) = tree.as_object_mut() {
        if let Some(headers) = map.get_mut("headers") {
            renew_headers(alloc, headers, version, next)?;
        }
    }
    Ok(())
}

/// Puts a text at a name of an object.
pub(crate) fn put_text(
    alloc: Global,
    value: &mut Value,
    name: &str,
    text: &str,
) -> Result<(), AllocError>
    ensures { OnOk result (data_of value.new
        ≡ on_object (with_put name.now (string text.now)) (data_of value.old)) }
{
    if let Some(map) = value.as_object_mut() {
        let text = Value::String(String::from_str(alloc, text)?);
        put(map, alloc, name, text)?;
    }
    Ok(())
}

/// Puts another tag into the properties of a message, and takes the mark of its delivery_info out.
fn renew_properties(alloc: Global, properties: &mut Value, tag: Tag) -> Result<(), AllocError>
    ensures { OnOk result (data_of properties.new
        ≡ properties_again tag.0 (data_of properties.old)) }
{
    unmark_at(properties, "delivery_info");
    let text = tag.text();
    put_text(alloc, properties, "delivery_tag", text_of(&text))?;
    Ok(())
}

/// Puts another tag into the properties of an envelope's tree.
pub(crate) fn renew_properties_in(
    alloc: Global,
    tree: &mut Value,
    tag: Tag,
) -> Result<(), AllocError>
    ensures { OnOk result (data_of tree.new
        ≡ with_member (codes "properties") (properties_again tag.0) (data_of tree.old)) }
{
    if let Some(map) = tree.as_object_mut() {
        if let Some(properties) = map.get_mut("properties") {
            renew_properties(alloc, properties, tag)?;
        }
    }
    Ok(())
}

/// Bytes of UTF-8 as a text.
fn text_of(bytes: &[u8]) -> &str
    requires { IsUtf8 bytes.now }
    ensures { result.now ≡ bytes.now }
{
    match str::from_utf8(bytes) {
        Ok(text) => text,
        Err(_) => unreachable!(),
    }
}
