//! The two marks of a message that is delivered again, in an envelope's tree.
ghost use Rattle.std.specs.Prelude.{◌≡◌, IfOk, OnOk, codes, option_and_then, option_map, true};
ghost use Rattle.serde_json.specs.Find.{get};
ghost use Rattle.serde_json.specs.View.{view};
ghost use Rattle.envelope_trees.specs.Marks.{is_marked, is_marked_in_headers, is_marked_in_info, marked, marked_object, with_member};

use crate::find::is_set_at;
use serde_json::Value;
use std::alloc::{AllocError, Global};

/// Sets the mark of an object.
fn mark(alloc: Global, value: &mut Value) -> Result<(), AllocError>
    ensures { OnOk result (view value.new ≡ marked_object (view value.old)) }
{
    if let Some(map) = value.as_object_mut() {
        map.insert(String::from_str(alloc, "redelivered")?, Value::Bool(true))?;
    }
    Ok(())
}

/// Sets the mark of the object at a name.
fn mark_at(alloc: Global, value: &mut Value, name: &str) -> Result<(), AllocError>
    ensures { OnOk result (view value.new ≡ with_member name.now marked_object (view value.old)) }
{
    if let Some(map) = value.as_object_mut() {
        if let Some(member) = map.get_mut(name) {
            mark(alloc, member)?;
        }
    }
    Ok(())
}

/// Sets the mark of the object at a name of the object at a name.
fn mark_in(alloc: Global, value: &mut Value, outer: &str, inner: &str) -> Result<(), AllocError>
    ensures { OnOk result (view value.new
        ≡ with_member outer.now (with_member inner.now marked_object) (view value.old)) }
{
    if let Some(map) = value.as_object_mut() {
        if let Some(member) = map.get_mut(outer) {
            mark_at(alloc, member, inner)?;
        }
    }
    Ok(())
}

/// A copy of a tree with both marks.
pub fn marked_copy(alloc: Global, tree: &Value) -> Result<Value, AllocError>
    ensures { IfOk result (λ v. view v ≡ marked (view tree.now)) }
{
    let mut copy = tree.clone()?;
    mark_at(alloc, &mut copy, "headers")?;
    mark_in(alloc, &mut copy, "properties", "delivery_info")?;
    Ok(copy)
}

/// Whether both marks of a tree are true.
pub fn has_marks(tree: &Value) -> bool
    ensures { result ≡ is_marked (view tree.now) }
{
    has_mark_in_headers(tree) && has_mark_in_info(tree)
}

/// Whether the mark in the headers of a tree is true.
fn has_mark_in_headers(tree: &Value) -> bool
    ensures { result ≡ is_marked_in_headers (view tree.now) }
{
    match tree.get("headers") {
        Some(headers) => is_set_at(headers, "redelivered"),
        None => false,
    }
}

/// Whether the mark in the delivery_info of a tree is true.
fn has_mark_in_info(tree: &Value) -> bool
    ensures { result ≡ is_marked_in_info (view tree.now) }
{
    match delivery_info(tree) {
        Some(info) => is_set_at(info, "redelivered"),
        None => false,
    }
}

/// The delivery_info of a tree.
fn delivery_info(tree: &Value) -> Option<&Value>
    ensures { option_map (λ v. view v.now) result
        ≡ option_and_then (get (codes "delivery_info")) (get (codes "properties") (view tree.now)) }
{
    tree.get("properties")?.get("delivery_info")
}
