//! What a task is called with.
ghost use Rattle.std.specs.Prelude.{◌≡◌, option_map};
ghost use Rattle.serde_json.specs.View.{items_view, view as data_of};
ghost use Rattle.built_in_tasks.specs.BuiltIns.{has_no_member, positional, whole_in};

use envelope::Tree;
use serde_json::Value;

/// The positional arguments, where there are no keyword arguments.
pub(crate) fn positional<'a>(args: &'a Tree, kwargs: &Tree) -> Option<&'a [Value]>
    ensures { option_map (λ items. items_view items.now) result ≡ positional (data_of args.now) (data_of kwargs.now) }
{
    if !has_no_member(kwargs) {
        return None;
    }
    match args.as_array() {
        Some(items) => Some(items.as_slice()),
        None => None,
    }
}

/// Whether a tree is an object without members.
#[tactic(auto, using(crate::proofs::Shapes::no_members))]
fn has_no_member(tree: &Tree) -> bool
    ensures { result ≡ has_no_member (data_of tree.now) }
{
    match tree.as_object() {
        Some(members) => members.len() == 0,
        None => false,
    }
}

/// The whole number of 64 bits that a tree is.
pub(crate) fn whole(tree: &Tree) -> Option<i128>
    ensures { result ≡ whole_in (data_of tree.now) }
{
    match tree.as_number() {
        Some(number) => number.as_i128(),
        None => None,
    }
}
