//! Reading envelopes: from bytes to a tree, from a tree to what it says.
ghost use Rattle.std.specs.Prelude.{◌≡◌, ◌≤◌, IfOk, IsUtf8, Some, codes, false, length, nat_le, option_and_then, option_map, string_bytes};
ghost use Rattle.serde_json.specs.Data.{depth};
ghost use Rattle.serde_json.specs.Read.{max_depth, read as json_in};
ghost use Rattle.serde_json.specs.View.{view as data_of};
ghost use Rattle.serde_json.specs.Written.{compact_text, has_float};
ghost use Rattle.envelope.specs.Envelopes.{Parts, are_short, content_of, envelope_at, envelope_of, json_at, max_text, parts_of, properties_said, said_by, tree_at};
ghost use Rattle.envelope.specs.Relations.{IsEnvelope};
ghost use Rattle.envelope_trees.specs.Marks.{marked};
ghost use Rattle.envelope_trees.specs.Members.{text_at};
ghost use Rattle.envelope_trees.specs.Reading.{Gives, needed, wanted};
ghost use Rattle.envelope.specs.Shown.{parts_view, properties_view};
ghost use Rattle.envelope.specs.Steps.{checked_parts, held_parts, short_parts};
ghost use Rattle.delivery_tags.specs.Tags.{tag_of_text};
ghost use Rattle.envelope_trees.specs.declared.fault.EnvelopeFault.TheVariants.{BadBody, Missing, NotJson, TooLong};
ghost use Rattle.envelope_trees.specs.declared.fault.Field.TheVariants as field;

use crate::envelope::{Envelope, Found, Tree};
use base64::DecodeAllocError;
use base64::engine::general_purpose::STANDARD;
use delivery_tags::Tag;
use envelope_trees::find::{
    is_nothing_at, is_word_any_case_at, is_word_at, needed_object, needed_text, text, want,
};
use envelope_trees::marks::marked_copy;
use envelope_trees::walk::{holds_float, nests_within};
use envelope_trees::{EnvelopeFault, Field};
use serde_json::Value;
use std::alloc::{AllocError, Global};
use wire_values::Bytes;

/// The longest bytes of an envelope, and of its compact text.
const MAX_BYTES: usize = 1_040_000;

/// The longest compact text with both redelivered marks.
const MAX_TEXT: usize = 1_000_000;

/// The longest exchange and routing key.
const MAX_NAME: usize = 255;

/// The deepest nesting of arrays and objects.
const MAX_LEVELS: u32 = 100;

/// The envelope that the bytes are. Members that no rule speaks of are kept.
///
/// # Errors
/// The first that holds: `TooLong` above 1,040,000 bytes; `NotJson`; `TooDeep` above 100 levels; `Float`;
/// `Missing` of the first member in the order of `Field`; `Compressed`; `BadBody`; `TooLong` where the exchange or
/// the routing key has more than 255 bytes, or the compact text more than 1,040,000, or more than 1,000,000 with
/// both redelivered marks. `Memory` is want of memory.
pub fn read(alloc: Global, bytes: &[u8]) -> Result<Envelope, EnvelopeFault>
    ensures value { Gives data_of result (envelope_at bytes.now) }
    // What is read has, member by member, what an envelope has.
    ensures members { IfOk result (λ e. IsEnvelope (data_of e) bytes.now) }
{
    read_told(alloc, bytes)
}

/// The envelope that the bytes are, as their first fault is looked for.
#[tactic(auto, unfolding(crate::specs::Envelopes::envelope_at))]
fn read_told(alloc: Global, bytes: &[u8]) -> Result<Envelope, EnvelopeFault>
    ensures { Gives data_of result (envelope_at bytes.now) }
{
    let tree = tree_of(alloc, bytes)?;
    of_tree(alloc, tree)
}

/// The tree of the bytes.
#[tactic(auto, unfolding(crate::specs::Envelopes::tree_at))]
fn tree_of(alloc: Global, bytes: &[u8]) -> Result<Value, EnvelopeFault>
    ensures { Gives data_of result (tree_at bytes.now) }
{
    want(bytes.len() <= MAX_BYTES, EnvelopeFault::TooLong)?;
    json(alloc, bytes)
}

/// The JSON tree of the bytes, of any length.
pub(crate) fn json(alloc: Global, bytes: &[u8]) -> Result<Value, EnvelopeFault>
    ensures { Gives data_of result (needed NotJson (json_at bytes.now)) }
{
    match Value::from_slice(alloc, bytes) {
        Ok(value) => Ok(value),
        Err(e) => if e.is_memory() {
            Err(EnvelopeFault::Memory)
        } else {
            Err(EnvelopeFault::NotJson)
        },
    }
}

/// The envelope of a JSON tree, as where a tree was changed.
///
/// # Errors
/// As `read`, from `TooDeep` on.
#[tactic(auto, unfolding(crate::specs::Envelopes::envelope_of))]
pub fn of_tree(alloc: Global, tree: Tree) -> Result<Envelope, EnvelopeFault>
    ensures { Gives data_of result (envelope_of (data_of tree)) }
{
    let told = told_by(alloc, &tree)?;
    Ok(Envelope::whole(tree, told.found, told.text))
}

/// What a tree says as an envelope, beside its compact text.
#[derive(Drop)]
pub(crate) struct Told {
    pub(crate) found: Found,
    pub(crate) text: Bytes,
}

/// What a tree says as an envelope, and its compact text.
#[tactic(auto, unfolding(crate::specs::Envelopes::said_by))]
fn told_by(alloc: Global, tree: &Value) -> Result<Told, EnvelopeFault>
    ensures said { Gives (λ t. parts_view t.found) result (said_by (data_of tree.now)) }
    ensures text { IfOk result (λ t. has_float (data_of tree.now) ≡ false
        → t.text ≡ compact_text (data_of tree.now)) }
    ensures utf8 { IfOk result (λ t. IsUtf8 t.text) }
    ensures back { IfOk result (λ t. depth (data_of tree.now) ≤ max_depth
        → json_in t.text ≡ Some (data_of tree.now)) }
{
    want(nests_within(tree, MAX_LEVELS), EnvelopeFault::TooDeep)?;
    want(!holds_float(tree), EnvelopeFault::Float)?;
    let found = parts(alloc, tree)?;
    let text = short_text(alloc, tree)?;
    Ok(Told { found, text })
}

/// The compact text of a tree without a float, where it is short enough without the marks and with them.
fn short_text(alloc: Global, tree: &Value) -> Result<Bytes, EnvelopeFault>
    requires { has_float (data_of tree.now) ≡ false }
    ensures said { (p : Parts) → Gives (λ _. p) result (short_parts (data_of tree.now) p) }
    ensures text { IfOk result (λ b. b ≡ compact_text (data_of tree.now)) }
    ensures utf8 { IfOk result (λ b. IsUtf8 b) }
    ensures back { IfOk result (λ b. depth (data_of tree.now) ≤ max_depth
        → json_in b ≡ Some (data_of tree.now)) }
{
    let text = text_of(alloc, tree)?;
    want(text.len() <= MAX_BYTES, EnvelopeFault::TooLong)?;
    want(
        fits_marked(alloc, tree, text.len())?,
        EnvelopeFault::TooLong,
    )?;
    Ok(text)
}

/// A tree's compact text.
pub(crate) fn text_of(alloc: Global, tree: &Value) -> Result<Bytes, AllocError>
    ensures text { IfOk result (λ b. has_float (data_of tree.now) ≡ false
        → b ≡ compact_text (data_of tree.now)) }
    ensures utf8 { IfOk result (λ b. IsUtf8 b) }
    ensures back { IfOk result (λ b. depth (data_of tree.now) ≤ max_depth
        → json_in b ≡ Some (data_of tree.now)) }
{
    Ok(Bytes::from_vec(tree.to_vec(alloc)?))
}

/// Whether a tree whose compact text has this size is short enough with both marks. They add at most 38 bytes, so
/// that a copy is marked only where the text is nearly too long.
fn fits_marked(alloc: Global, tree: &Value, size: usize) -> Result<bool, AllocError>
    ensures { IfOk result (λ b. has_float (data_of tree.now) ≡ false
        → size ≡ length (compact_text (data_of tree.now))
        → b ≡ nat_le (length (compact_text (marked (data_of tree.now)))) max_text) }
{
    if size <= MAX_TEXT - 38 {
        return Ok(true);
    }
    let copy = marked_copy(alloc, tree)?;
    let text = text_of(alloc, &copy)?;
    Ok(text.len() <= MAX_TEXT)
}

/// What the members of a tree say.
#[tactic(auto, unfolding(crate::specs::Envelopes::parts_of))]
fn parts(alloc: Global, tree: &Value) -> Result<Found, EnvelopeFault>
    ensures { Gives parts_view result (parts_of (data_of tree.now)) }
{
    let body = needed_text(tree, "body", Field::Body)?;
    want(
        is_word_any_case_at(tree, "content-encoding", "utf-8"),
        EnvelopeFault::Missing(Field::ContentEncoding),
    )?;
    want(
        is_word_at(tree, "content-type", "application/json"),
        EnvelopeFault::Missing(Field::ContentType),
    )?;
    held_in(alloc, body, tree)
}

/// What the headers and the properties of a tree say beside its body.
fn held_in(alloc: Global, body: &str, tree: &Value) -> Result<Found, EnvelopeFault>
    ensures { Gives parts_view result (held_parts body.now (data_of tree.now)) }
{
    let headers = needed_object(tree, "headers", Field::Headers)?;
    let properties = needed_object(tree, "properties", Field::Properties)?;
    let said = properties_of(body, properties)?;
    found_of(alloc, body, headers, &said)
}

/// What is found, once the headers, the content of the body and the names are looked at.
fn found_of(
    alloc: Global,
    body: &str,
    headers: &Value,
    said: &Properties<'_>,
) -> Result<Found, EnvelopeFault>
    ensures { Gives parts_view result
        (checked_parts body.now (data_of headers.now) (properties_view said.now)) }
{
    want(
        is_nothing_at(headers, "compression"),
        EnvelopeFault::Compressed,
    )?;
    let content = content(alloc, body)?;
    let (exchange, routing_key) = short_names(alloc, said.exchange, said.routing_key)?;
    Ok(Found {
        content,
        tag: said.tag,
        exchange,
        routing_key,
    })
}

/// The two names, where they are short enough.
pub(crate) fn short_names(
    alloc: Global,
    exchange: &str,
    routing_key: &str,
) -> Result<(String, String), EnvelopeFault>
    ensures fault { Gives (λ _. tt) result
        (wanted TooLong (are_short exchange.now routing_key.now)) }
    ensures value { IfOk result (λ p. (string_bytes p.0 ≡ exchange.now)
        × (string_bytes p.1 ≡ routing_key.now)) }
{
    want(fit_names(exchange, routing_key), EnvelopeFault::TooLong)?;
    let exchange = String::from_str(alloc, exchange)?;
    let routing_key = String::from_str(alloc, routing_key)?;
    Ok((exchange, routing_key))
}

/// Whether an exchange and a routing key are short enough.
fn fit_names(exchange: &str, routing_key: &str) -> bool
    ensures { result ≡ are_short exchange.now routing_key.now }
{
    exchange.len() <= MAX_NAME && routing_key.len() <= MAX_NAME
}

/// What the properties say, as it stands in the tree.
#[derive(Drop)]
pub(crate) struct Properties<'a> {
    pub(crate) body: &'a str,
    pub(crate) tag: Tag,
    pub(crate) exchange: &'a str,
    pub(crate) routing_key: &'a str,
}

/// What the properties say, beside the body.
#[tactic(auto, unfolding(crate::specs::Envelopes::properties_said, crate::specs::Envelopes::info_said))]
fn properties_of<'a>(body: &'a str, properties: &'a Value) -> Result<Properties<'a>, EnvelopeFault>
    ensures { Gives properties_view result (properties_said body.now (data_of properties.now)) }
{
    want(
        is_word_at(properties, "body_encoding", "base64"),
        EnvelopeFault::Missing(Field::BodyEncoding),
    )?;
    let tag = needed_tag(properties)?;
    let info = needed_object(properties, "delivery_info", Field::DeliveryInfo)?;
    let exchange = needed_text(info, "exchange", Field::Exchange)?;
    let routing_key = needed_text(info, "routing_key", Field::RoutingKey)?;
    Ok(Properties {
        body,
        tag,
        exchange,
        routing_key,
    })
}

/// The tag of the properties, or the fault that it is missing.
fn needed_tag(properties: &Value) -> Result<Tag, EnvelopeFault>
    ensures { Gives (λ t. t.0) result (needed (Missing field.DeliveryTag)
        (option_and_then tag_of_text (text_at (codes "delivery_tag") (data_of properties.now)))) }
{
    match tag_at(properties) {
        Some(tag) => Ok(tag),
        None => Err(EnvelopeFault::Missing(Field::DeliveryTag)),
    }
}

/// The tag of the properties.
fn tag_at(properties: &Value) -> Option<Tag>
    ensures { option_map (λ t. t.0) result
        ≡ option_and_then tag_of_text (text_at (codes "delivery_tag") (data_of properties.now)) }
{
    Tag::read(text(properties, "delivery_tag")?.as_bytes())
}

/// The content of a body.
fn content(alloc: Global, body: &str) -> Result<Bytes, EnvelopeFault>
    ensures { Gives (λ b. b) result (needed BadBody (content_of body.now)) }
{
    let bytes = match STANDARD.decode(alloc, body.as_bytes()) {
        Ok(bytes) => bytes,
        Err(DecodeAllocError::OutOfMemory) => return Err(EnvelopeFault::Memory),
        Err(DecodeAllocError::DecodeError(_)) => return Err(EnvelopeFault::BadBody),
    };
    match str::from_utf8(&bytes) {
        Ok(_) => Ok(Bytes::from_vec(bytes)),
        Err(_) => Err(EnvelopeFault::BadBody),
    }
}
