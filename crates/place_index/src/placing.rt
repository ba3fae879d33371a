//! Where messages are after a history.
ghost use Rattle.std.specs.Prelude.{◌≡◌, IfOk, map};
ghost use Rattle.std.specs.FinMap.{empty};
ghost use Rattle.delivery_tags.specs.Tags.{tag_text};
ghost use Rattle.place_model.specs.Accepted.{places};
ghost use Rattle.command_blocks.specs.EnvelopeTexts.{plain_setting};
ghost use Rattle.place_model.specs.Histories.{History as Told, after};
ghost use Rattle.place_index.specs.Indexed.{IsIndexOf};
ghost use Rattle.place_model.specs.PlaceOf.{place_of};
ghost use Rattle.place_model.specs.Placed.{all_placed};
ghost use Rattle.place_model.specs.Shown.{history_of};
ghost use Rattle.place_model.specs.declared.heard.Heard.{Heard};

use crate::index::Index;
use crate::stored::store_after;
use crate::tagged::first_numbers;
use envelope::Tag;
use letters::Letters;
use mini_store::Store;
use place_model::{History, Place};
use std::alloc::{AllocError, Global};
use store_keys::Keyspace;

/// The place of a tag after a history.
///
/// `Copies` is for a tag that one publication or one return pushed more than once, and `Never` for one that wasn't
/// accepted. `AllocError` is want of memory.
pub fn place_of(alloc: Global, history: &History, tag: Tag) -> Result<Place, AllocError>
    ensures { IfOk result (λ place. place ≡ place_of plain_setting (history_of history.now) (tag_text tag.0)) }
{
    let store = store_after(alloc, history)?;
    place_over(alloc, history, store.keys(), tag.0)
}

/// The place of the tag of a number, beside the keys that the history leaves.
fn place_over(
    alloc: Global,
    history: &History,
    keys: &Keyspace,
    number: u128,
) -> Result<Place, AllocError>
    requires { keys.now ≡ (after (history_of history.now)).store.keys }
    ensures { IfOk result (λ place. place ≡ place_of plain_setting (history_of history.now) (tag_text number)) }
{
    let index = Index::of(alloc, &mut Letters::new(alloc), history, keys)?;
    index.place(alloc, keys, number)
}

/// The accepted tags in the order of their first push, each with its place after a history.
///
/// `AllocError` is want of memory.
pub fn places(alloc: Global, history: &History) -> Result<Vec<(Tag, Place)>, AllocError>
    ensures { IfOk result (λ found. all_placed found.items ≡ places plain_setting (history_of history.now)) }
{
    let store = store_after(alloc, history)?;
    places_over(alloc, &mut Letters::new(alloc), history, store.keys())
}

/// The same as `places`, beside the store that the history leaves, and what is known of texts; what is read is noted
/// there.
pub fn places_beside(
    alloc: Global,
    letters: &mut Letters,
    history: &History,
    store: Store,
) -> Result<Vec<(Tag, Place)>, AllocError>
    requires { store.state ≡ (after (history_of history.now)).store }
    ensures { IfOk result (λ found. all_placed found.items ≡ places plain_setting (history_of history.now)) }
{
    places_over(alloc, letters, history, store.keys())
}

/// The same, beside the keys that the history leaves.
fn places_over(
    alloc: Global,
    letters: &mut Letters,
    history: &History,
    keys: &Keyspace,
) -> Result<Vec<(Tag, Place)>, AllocError>
    requires { keys.now ≡ (after (history_of history.now)).store.keys }
    ensures { IfOk result (λ found. all_placed found.items ≡ places plain_setting (history_of history.now)) }
{
    let index = Index::of(alloc, letters, history, keys)?;
    placed_once(alloc, &index, keys)
}

/// The accepted messages, each where it was pushed first, with their places, beside the keys that the history leaves.
fn placed_once(
    alloc: Global,
    index: &Index,
    keys: &Keyspace,
) -> Result<Vec<(Tag, Place)>, AllocError>
    ensures { IfOk result (λ found. (h : Told Heard) → IsIndexOf h index.now → keys.now ≡ (after h).store.keys → h.start ≡ empty
        → all_placed found.items ≡ places plain_setting h) }
{
    let numbers = first_numbers(alloc, index.walked.accepted.as_slice())?;
    placed(alloc, index, keys, numbers.as_slice())
}

/// The messages with their places, beside the keys that the history leaves.
fn placed(
    alloc: Global,
    index: &Index,
    keys: &Keyspace,
    numbers: &[u128],
) -> Result<Vec<(Tag, Place)>, AllocError>
    ensures { IfOk result (λ found. (h : Told Heard) → IsIndexOf h index.now → keys.now ≡ (after h).store.keys → h.start ≡ empty
        → all_placed found.items ≡ map (λ n. (tag_text n, place_of plain_setting h (tag_text n))) numbers.now) }
{
    let mut places = Vec::new(alloc);
    for number in numbers {
        let place = index.place(alloc, keys, *number)?;
        places.push((Tag(*number), place))?;
    }
    Ok(places)
}
