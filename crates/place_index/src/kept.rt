//! Whether a message is in the table of those that aren't acknowledged.
ghost use Rattle.std.specs.Prelude.{◌≡◌, IfOk, Some};
ghost use Rattle.store_model.specs.Keys.{value_at, value_of};
ghost use Rattle.delivery_tags.specs.Tags.{tag_text};
ghost use Rattle.place_model.specs.Counts.{has_field, has_member};
ghost use Rattle.command_blocks.specs.EnvelopeTexts.{plain_setting};
ghost use Rattle.place_index.specs.Kept.{is_kept};

use envelope::Tag;
use std::alloc::{AllocError, Global};
use store_keys::Keyspace;
use store_model::{Held, Stored};
use wire_values::Bytes;

/// Whether a message is a field of the table and a member of the table's index.
pub(crate) fn is_kept(alloc: Global, keys: &Keyspace, number: u128) -> Result<bool, AllocError>
    ensures { IfOk result (λ kept. kept ≡ is_kept keys.now number) }
{
    let text = text_of(alloc, number)?;
    let table = table_key(alloc)?;
    let index = index_key(alloc)?;
    let field = has_field(keys, &table, &text);
    let member = has_member(keys, &index, &text);
    Ok(field && member)
}

/// The text of a tag.
fn text_of(alloc: Global, number: u128) -> Result<Bytes, AllocError>
    ensures { IfOk result (λ text. text ≡ tag_text number) }
{
    let text = Tag(number).text();
    Bytes::from_slice(alloc, text.as_slice())
}

/// The key of the table.
fn table_key(alloc: Global) -> Result<Bytes, AllocError>
    ensures { IfOk result (λ key. key ≡ plain_setting.unacked) }
{
    Bytes::from_slice(alloc, b"unacked")
}

/// The key of the table's index.
fn index_key(alloc: Global) -> Result<Bytes, AllocError>
    ensures { IfOk result (λ key. key ≡ plain_setting.index) }
{
    Bytes::from_slice(alloc, b"unacked_index")
}

/// Whether a key holds a hash with this field.
fn has_field(keys: &Keyspace, key: &Bytes, field: &Bytes) -> bool
    ensures { result ≡ has_field (value_at keys.now key.now) field.now }
{
    match keys.get(key) {
        Some(held) => is_field(held, field),
        None => false,
    }
}

/// Whether it is a hash with this field.
fn is_field(held: &Held, field: &Bytes) -> bool
    ensures { result ≡ has_field (value_of (Some held.now)) field.now }
{
    match &held.value {
        Stored::Hash(fields) => fields.has(field),
        Stored::Text(_) | Stored::Items(_) | Stored::Members(_) | Stored::Scores(_) => false,
    }
}

/// Whether a key holds a sorted set with this member.
fn has_member(keys: &Keyspace, key: &Bytes, member: &Bytes) -> bool
    ensures { result ≡ has_member (value_at keys.now key.now) member.now }
{
    match keys.get(key) {
        Some(held) => is_member(held, member),
        None => false,
    }
}

/// Whether it is a sorted set with this member.
fn is_member(held: &Held, member: &Bytes) -> bool
    ensures { result ≡ has_member (value_of (Some held.now)) member.now }
{
    match &held.value {
        Stored::Scores(scores) => scores.has(member),
        Stored::Text(_) | Stored::Items(_) | Stored::Members(_) | Stored::Hash(_) => false,
    }
}
