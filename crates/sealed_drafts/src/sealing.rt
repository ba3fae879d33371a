//! Sealing drafts: from what a producer sends to its envelope.
ghost use Rattle.std.specs.Prelude.{◌≡◌, [], IfOk, IsUtf8, OnOk, codes, string_bytes};
ghost use Rattle.base64.specs.Engines.{standard};
ghost use Rattle.base64.specs.GeneralPurpose.{encode_of};
ghost use Rattle.serde_json.specs.Data.{number, put as with_member, string, unsigned};
ghost use Rattle.serde_json.specs.Find.{of_integer};
ghost use Rattle.serde_json.specs.View.{members_view, view as data_of};
ghost use Rattle.envelope.specs.Envelopes.{content_of, if_text};
ghost use Rattle.envelope_trees.specs.Reading.{Gives};
ghost use Rattle.envelope.specs.SealedTrees.{sealed_info, sealed_properties, sealed_tree};
ghost use Rattle.sealed_drafts.specs.Sealed.{seal_of, sealed};

use base64::engine::general_purpose::STANDARD;
use delivery_tags::Tag;
use envelope::{Envelope, Tree, of_tree};
use envelope_trees::EnvelopeFault;
use serde_json::{Map, Value, json, put};
use std::alloc::{AllocError, Global};
use wire_values::Bytes;

/// A message that is to be sealed in an envelope.
#[derive(Debug, Drop)]
pub struct Draft {
    /// The content, UTF-8; its base64 becomes the body.
    pub content: Bytes,
    /// The headers, an object.
    pub headers: Tree,
    /// The task's id, UTF-8; it becomes the correlation id.
    pub id: Bytes,
    /// The exchange, at most 255 bytes of UTF-8; empty for a message that goes to its queue directly.
    pub exchange: Bytes,
    /// The routing key, at most 255 bytes of UTF-8.
    pub routing_key: Bytes,
    /// The priority, as it is written; readers hold it within 0 to 9.
    pub priority: i64,
}

/// The envelope of a draft under a tag: `body` the base64 of the content, `content-encoding` `utf-8`,
/// `content-type` `application/json`, `headers` as drafted, and `properties` with `body_encoding` `base64`,
/// `correlation_id` the id, `delivery_info`, `delivery_mode` 2, `delivery_tag`, `priority` and an empty `reply_to`.
///
/// # Errors
/// The first that holds: `TooDeep` where the headers nest more than 99 deep; `Float` where they hold one;
/// `Missing(Headers)` where they are no object; `Compressed` where they have a `compression` that isn't null;
/// `BadBody` where the content isn't UTF-8; `TooLong` where the exchange or the routing key has more than 255
/// bytes, or the compact text more than 1,040,000, or more than 1,000,000 with both redelivered marks. `Memory` is
/// want of memory.
pub fn seal(alloc: Global, draft: &Draft, tag: Tag) -> Result<Envelope, EnvelopeFault>
    requires id { IsUtf8 draft.now.id }
    requires exchange { IsUtf8 draft.now.exchange }
    requires routing_key { IsUtf8 draft.now.routing_key }
    ensures { Gives data_of result (seal_of draft.now tag.0) }
{
    let body = body_of(alloc, draft.content.as_slice())?;
    let text = tag.text();
    let tree = drafted_tree(alloc, draft, body.as_str(), text_of(&text))?;
    of_tree(alloc, tree)
}

/// The body of a content, its base64.
fn body_of(alloc: Global, content: &[u8]) -> Result<String, AllocError>
    ensures text { IfOk result (λ t. string_bytes t ≡ encode_of standard content.now) }
    ensures back { IfOk result (λ _. content_of (encode_of standard content.now)
        ≡ if_text content.now) }
{
    let text = STANDARD.encode(alloc, content)?;
    Ok(text)
}

/// The tree of a draft around its body, under the tag of a text.
fn drafted_tree(alloc: Global, draft: &Draft, body: &str, tag: &str) -> Result<Value, AllocError>
    requires id { IsUtf8 draft.now.id }
    requires exchange { IsUtf8 draft.now.exchange }
    requires routing_key { IsUtf8 draft.now.routing_key }
    ensures { IfOk result (λ v. data_of v ≡ sealed_tree body.now (data_of draft.now.headers)
        (sealed_properties (sealed_info draft.now.exchange draft.now.routing_key)
        draft.now.id draft.now.priority tag.now)) }
{
    let exchange = text_of(draft.exchange.as_slice());
    let routing_key = text_of(draft.routing_key.as_slice());
    let info = info_of(alloc, exchange, routing_key)?;
    let id = text_of(draft.id.as_slice());
    let properties = properties_of(alloc, info, id, draft.priority, tag)?;
    tree_of(alloc, body, &draft.headers, properties)
}

/// Bytes of UTF-8 as a text.
fn text_of(bytes: &[u8]) -> &str
    requires { IsUtf8 bytes.now }
    ensures { result.now ≡ bytes.now }
{
    match str::from_utf8(bytes) {
        Ok(text) => text,
        Err(_) => unreachable!(),
    }
}

/// The delivery_info of an exchange and a routing key.
fn info_of(alloc: Global, exchange: &str, routing_key: &str) -> Result<Value, AllocError>
    ensures { IfOk result (λ v. data_of v ≡ sealed_info exchange.now routing_key.now) }
{
    json!(in alloc; {"exchange": exchange, "routing_key": routing_key})
}

/// The properties around a delivery_info.
fn properties_of(
    alloc: Global,
    info: Value,
    id: &str,
    priority: i64,
    tag: &str,
) -> Result<Value, AllocError>
    ensures { IfOk result (λ v. data_of v
        ≡ sealed_properties (data_of info) id.now priority tag.now) }
{
    let mut map = Map::new(alloc);
    put(&mut map, alloc, "delivery_info", info)?;
    put_fixed(&mut map, alloc)?;
    put_own(&mut map, alloc, id, priority, tag)?;
    Ok(Value::Object(map))
}

/// Puts what the properties of each envelope hold.
fn put_fixed(map: &mut Map<String, Value>, alloc: Global) -> Result<(), AllocError>
    ensures { OnOk result (members_view map.new.entries
        ≡ with_member (codes "reply_to") (string [])
        (with_member (codes "delivery_mode") (number (unsigned 2))
        (with_member (codes "body_encoding") (string (codes "base64"))
        (members_view map.old.entries)))) }
{
    put_text(map, alloc, "body_encoding", "base64")?;
    put(map, alloc, "delivery_mode", Value::from(2u64))?;
    put_text(map, alloc, "reply_to", "")
}

/// Puts the id, the priority and the tag into the properties.
fn put_own(
    map: &mut Map<String, Value>,
    alloc: Global,
    id: &str,
    priority: i64,
    tag: &str,
) -> Result<(), AllocError>
    ensures { OnOk result (members_view map.new.entries
        ≡ with_member (codes "priority") (number (of_integer priority))
        (with_member (codes "delivery_tag") (string tag.now)
        (with_member (codes "correlation_id") (string id.now)
        (members_view map.old.entries)))) }
{
    put_text(map, alloc, "correlation_id", id)?;
    put_text(map, alloc, "delivery_tag", tag)?;
    put(map, alloc, "priority", Value::from(priority))
}

/// The tree around a body, headers and properties.
fn tree_of(
    alloc: Global,
    body: &str,
    headers: &Value,
    properties: Value,
) -> Result<Value, AllocError>
    ensures { IfOk result (λ v. data_of v
        ≡ sealed_tree body.now (data_of headers.now) (data_of properties)) }
{
    let mut map = Map::new(alloc);
    put(&mut map, alloc, "properties", properties)?;
    put_kinds(&mut map, alloc)?;
    put_drafted(&mut map, alloc, body, headers)?;
    Ok(Value::Object(map))
}

/// Puts the kinds of content that each envelope has.
fn put_kinds(map: &mut Map<String, Value>, alloc: Global) -> Result<(), AllocError>
    ensures { OnOk result (members_view map.new.entries
        ≡ with_member (codes "content-type") (string (codes "application/json"))
        (with_member (codes "content-encoding") (string (codes "utf-8"))
        (members_view map.old.entries))) }
{
    put_text(map, alloc, "content-encoding", "utf-8")?;
    put_text(map, alloc, "content-type", "application/json")
}

/// Puts the body and the headers into a tree.
fn put_drafted(
    map: &mut Map<String, Value>,
    alloc: Global,
    body: &str,
    headers: &Value,
) -> Result<(), AllocError>
    ensures { OnOk result (members_view map.new.entries
        ≡ with_member (codes "headers") (data_of headers.now)
        (with_member (codes "body") (string body.now) (members_view map.old.entries))) }
{
    put_text(map, alloc, "body", body)?;
    put(map, alloc, "headers", headers.clone()?)
}

/// Puts a text at a name.
fn put_text(
    map: &mut Map<String, Value>,
    alloc: Global,
    name: &str,
    text: &str,
) -> Result<(), AllocError>
    ensures { OnOk result (members_view map.new.entries
        ≡ with_member name.now (string text.now) (members_view map.old.entries)) }
{
    let value = Value::String(String::from_str(alloc, text)?);
    put(map, alloc, name, value)
}
