//! The arguments that a publish line gives its task.
ghost use Rattle.std.specs.Prelude.{◌≡◌, IfOk, option_map};
ghost use Rattle.serde_json.specs.View.{view as data_of};
ghost use Rattle.schedule_model.specs.Drafts.{arguments_of, if_arguments};

use envelope::Tree;
use envelope_trees::walk::{holds_float, nests_within};
use serde_json::Value;
use std::alloc::{AllocError, Global};

/// The deepest nesting of a task's arguments.
const MAX_LEVELS: u32 = 90;

/// The arguments that a JSON text spells: an array without a float, nested at most 90 deep. None where it is no such
/// array. Of a key that stands twice the last counts.
pub fn arguments_of(alloc: Global, text: &[u8]) -> Result<Option<Tree>, AllocError>
    ensures { IfOk result (λ found. option_map data_of found ≡ arguments_of text.now) }
{
    match Value::from_slice(alloc, text) {
        Ok(tree) => Ok(if_arguments(tree)),
        Err(e) => if e.is_memory() {
            Err(AllocError)
        } else {
            Ok(None)
        },
    }
}

/// The tree, where it may be a task's arguments.
fn if_arguments(tree: Tree) -> Option<Tree>
    ensures { option_map data_of result ≡ if_arguments (data_of tree) }
{
    if tree.is_array() && !holds_float(&tree) && nests_within(&tree, MAX_LEVELS) {
        Some(tree)
    } else {
        None
    }
}
