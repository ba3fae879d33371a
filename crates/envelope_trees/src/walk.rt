//! What a JSON tree has at any depth.
ghost use Rattle.std.specs.Prelude.{◌≡◌, nat_le};
ghost use Rattle.serde_json.specs.Data.{depth, items_depth, members_depth};
ghost use Rattle.serde_json.specs.Written.{has_float, items_have_float, members_have_float};
ghost use Rattle.serde_json.specs.View.{view, items_view, members_view};

use serde_json::{Map, Value};

/// Whether arrays and objects nest at most `limit` deep; a value that is neither nests 0 deep.
#[cycle(nests)]
pub fn nests_within(value: &Value, limit: u32) -> bool
    ensures { result ≡ nat_le (depth (view value.now)) limit }
{
    match value {
        Value::Array(items) => limit > 0 && items_nest(items, limit - 1),
        Value::Object(members) => limit > 0 && members_nest(members, limit - 1),
        _ => true,
    }
}

#[cycle(nests)]
fn items_nest(items: &Vec<Value>, limit: u32) -> bool
    ensures { result ≡ nat_le (items_depth (items_view items.now.items)) limit }
{
    for item in items {
        if !nests_within(item, limit) {
            return false;
        }
    }
    true
}

#[cycle(nests)]
fn members_nest(members: &Map<String, Value>, limit: u32) -> bool
    ensures { result ≡ nat_le (members_depth (members_view members.now.entries)) limit }
{
    for (_, member) in members.iter() {
        if !nests_within(member, limit) {
            return false;
        }
    }
    true
}

/// Whether a number is held as a float: one that is no whole number from -2^63 to 2^64 - 1.
#[cycle(floats)]
pub fn holds_float(value: &Value) -> bool
    ensures { result ≡ has_float (view value.now) }
{
    match value {
        Value::Number(n) => n.is_f64(),
        Value::Array(items) => items_hold(items),
        Value::Object(members) => members_hold(members),
        _ => false,
    }
}

#[cycle(floats)]
fn items_hold(items: &Vec<Value>) -> bool
    ensures { result ≡ items_have_float (items_view items.now.items) }
{
    for item in items {
        if holds_float(item) {
            return true;
        }
    }
    false
}

#[cycle(floats)]
fn members_hold(members: &Map<String, Value>) -> bool
    ensures { result ≡ members_have_float (members_view members.now.entries) }
{
    for (_, member) in members.iter() {
        if holds_float(member) {
            return true;
        }
    }
    false
}
