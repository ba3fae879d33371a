//! Entries of the table of messages that are not acknowledged yet: an envelope beside where it was sent.
ghost use Rattle.std.specs.Prelude.{◌≡◌, [], ◌∷◌, ◌++◌, IfOk, IsUtf8, OnOk, Ok, option_map};
ghost use Rattle.serde_json.specs.Data.{string};
ghost use Rattle.serde_json.specs.View.{items_view, view as data_of};
ghost use Rattle.serde_json.specs.Written.{compact_text};
ghost use Rattle.envelope.specs.Entries.{entry_at, entry_data, entry_for, entry_in, of_items, of_three};
ghost use Rattle.envelope.specs.Relations.{IsEntry};
ghost use Rattle.envelope_trees.specs.Reading.{Gives, needed};
ghost use Rattle.envelope.specs.ShownEntry.{entry_view, parts_of_items};
ghost use Rattle.envelope.specs.Steps.{named_entry, value_entry};
ghost use Rattle.envelope_trees.specs.declared.fault.EnvelopeFault.TheVariants.{NotJson};

use crate::envelope::Envelope;
use crate::reading::{json, of_tree, short_names};
use envelope_trees::EnvelopeFault;
use envelope_trees::find::want;
use serde_json::Value;
use std::alloc::{AllocError, Global};
use wire_values::Bytes;

/// The longest bytes of an entry.
const MAX_ENTRY: usize = 1_048_576;

/// An entry of the table: an envelope, and the exchange and the routing key by which it is returned.
#[derive(Debug, Drop)]
pub struct UnackedEntry {
    /// The envelope.
    pub envelope: Envelope,
    /// The exchange, at most 255 bytes.
    pub exchange: Bytes,
    /// The routing key, at most 255 bytes.
    pub routing_key: Bytes,
}

/// The entry that the bytes are: a JSON array of an envelope's tree, an exchange and a routing key.
///
/// # Errors
/// The first that holds: `TooLong` above 1,048,576 bytes; `NotJson`, also where it is no array of three whose last
/// two are texts; each fault of the envelope's tree, as `read` gives it; `TooLong` where one of the two texts has
/// more than 255 bytes. `Memory` is want of memory.
pub fn read_entry(alloc: Global, bytes: &[u8]) -> Result<UnackedEntry, EnvelopeFault>
    ensures value { Gives entry_view result (entry_at bytes.now) }
    // What is read is an entry's array, whose envelope has what an envelope has.
    ensures members { IfOk result (λ e. IsEntry (entry_view e) bytes.now) }
{
    entry_told(alloc, bytes)
}

/// The entry that the bytes are, as their first fault is looked for.
#[tactic(auto, unfolding(crate::specs::Entries::entry_at))]
fn entry_told(alloc: Global, bytes: &[u8]) -> Result<UnackedEntry, EnvelopeFault>
    ensures { Gives entry_view result (entry_at bytes.now) }
{
    want(bytes.len() <= MAX_ENTRY, EnvelopeFault::TooLong)?;
    let value = json(alloc, bytes)?;
    entry_of(alloc, &value)
}

/// The entry that a JSON value is.
fn entry_of(alloc: Global, value: &Value) -> Result<UnackedEntry, EnvelopeFault>
    ensures { Gives entry_view result (value_entry (data_of value.now)) }
{
    let items = needed_items(value)?;
    let envelope = of_tree(alloc, items.tree.clone()?)?;
    with_names(alloc, envelope, items.exchange, items.routing_key)
}

/// The entry of an envelope under two names.
fn with_names(
    alloc: Global,
    envelope: Envelope,
    exchange: &str,
    routing_key: &str,
) -> Result<UnackedEntry, EnvelopeFault>
    ensures { Gives entry_view result
        (named_entry (data_of envelope) exchange.now routing_key.now) }
{
    let (exchange, routing_key) = short_names(alloc, exchange, routing_key)?;
    Ok(UnackedEntry {
        envelope,
        exchange: Bytes::from_vec(exchange.into_bytes()),
        routing_key: Bytes::from_vec(routing_key.into_bytes()),
    })
}

/// The entry of an envelope, by its own exchange and routing key: the compact text of the array of the three.
pub fn write_entry(alloc: Global, e: &Envelope) -> Result<Bytes, AllocError>
    ensures text { IfOk result (λ b. b ≡ compact_text (entry_data (entry_for (data_of e.now)))) }
    // What was written is read again as the same entry.
    ensures again { IfOk result (λ b. entry_at b ≡ Ok (entry_for (data_of e.now))) }
{
    let exchange = quoted(alloc, e.found.exchange.as_str())?;
    let routing_key = quoted(alloc, e.found.routing_key.as_str())?;
    array_text(alloc, e.text(), exchange.as_slice(), routing_key.as_slice())
}

/// A text as it stands in JSON.
fn quoted(alloc: Global, text: &str) -> Result<Bytes, AllocError>
    ensures text { IfOk result (λ b. b ≡ compact_text (string text.now)) }
    ensures utf8 { IfOk result (λ b. IsUtf8 b) }
{
    let value = Value::String(String::from_str(alloc, text)?);
    Ok(Bytes::from_vec(value.to_vec(alloc)?))
}

/// The text of an array of three texts.
fn array_text(alloc: Global, first: &[u8], second: &[u8], third: &[u8]) -> Result<Bytes, AllocError>
    ensures { IfOk result (λ b. b
        ≡ 91 ∷ (first.now ++ 44 ∷ (second.now ++ 44 ∷ (third.now ++ 93 ∷ [])))) }
{
    let mut text = Vec::with_capacity(alloc, first.len())?;
    text.push(b'[')?;
    text.extend_from_slice(first)?;
    add_item(&mut text, second)?;
    add_item(&mut text, third)?;
    text.push(b']')?;
    Ok(Bytes::from_vec(text))
}

/// Adds a text with a comma before it.
fn add_item(text: &mut Vec<u8>, item: &[u8]) -> Result<(), AllocError>
    ensures { OnOk result (text.new.items ≡ text.old.items ++ 44 ∷ item.now) }
{
    text.push(b',')?;
    text.extend_from_slice(item)?;
    Ok(())
}

/// The three items of an entry, as they stand in its array.
#[derive(Drop)]
pub(crate) struct Items<'a> {
    pub(crate) tree: &'a Value,
    pub(crate) exchange: &'a str,
    pub(crate) routing_key: &'a str,
}

/// The items of an entry, or the fault that it is none.
fn needed_items(value: &Value) -> Result<Items<'_>, EnvelopeFault>
    ensures { Gives parts_of_items result (needed NotJson (entry_in (data_of value.now))) }
{
    match found_items(value) {
        Some(found) => Ok(found),
        None => Err(EnvelopeFault::NotJson),
    }
}

/// The items of an entry.
fn found_items(value: &Value) -> Option<Items<'_>>
    ensures { option_map parts_of_items result ≡ entry_in (data_of value.now) }
{
    three_of(value.as_array()?.as_slice())
}

/// The items of a slice that has three of them.
fn three_of(values: &[Value]) -> Option<Items<'_>>
    ensures { option_map parts_of_items result ≡ of_items (items_view values.now) }
{
    match values {
        [] | [_] | [_, _] => None,
        [tree, exchange, routing_key] => texts_of(tree, exchange, routing_key),
        [_, _, _, _, ..] => None,
    }
}

/// The items, where the last two are texts.
fn texts_of<'a>(tree: &'a Value, exchange: &'a Value, routing_key: &'a Value) -> Option<Items<'a>>
    ensures { option_map parts_of_items result
        ≡ of_three (data_of tree.now) (data_of exchange.now) (data_of routing_key.now) }
{
    let exchange = exchange.as_str()?;
    let routing_key = routing_key.as_str()?;
    Some(Items {
        tree,
        exchange,
        routing_key,
    })
}
