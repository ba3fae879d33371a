//! A message in its envelope.
ghost use Rattle.std.specs.Prelude.{◌≡◌, Ok, IfOk, IsUtf8, length};
ghost use Rattle.serde_json.specs.View.{view as data_of};
ghost use Rattle.serde_json.specs.Written.{compact_text};
ghost use Rattle.envelope.specs.Envelopes.{envelope_at, parts_in, priority_of, said_by};
ghost use Rattle.envelope_trees.specs.Marks.{is_marked};
ghost use Rattle.envelope.specs.Shown.{parts_view};

use delivery_tags::Tag;
use envelope_trees::marks::has_marks;
use serde_json::Value;
use std::alloc::{AllocError, Global};
use std::marker::Model;
use wire_values::Bytes;

/// A JSON tree.
pub type Tree = Value;

/// What an envelope's tree says.
#[derive(Debug, Drop)]
pub(crate) struct Found {
    pub(crate) content: Bytes,
    pub(crate) tag: Tag,
    pub(crate) exchange: String,
    pub(crate) routing_key: String,
}

impl Found {
    /// The same once more.
    pub(crate) fn copy(&self, alloc: Global) -> Result<Found, AllocError>
        ensures { IfOk result (λ made. parts_view made ≡ parts_view self.now) }
    {
        Ok(Found {
            content: self.content.copy(alloc)?,
            tag: self.tag,
            exchange: self.exchange.clone()?,
            routing_key: self.routing_key.clone()?,
        })
    }
}

/// A message in its envelope, which contracts see as its tree. Its parts and its compact text are kept beside the
/// tree, so that none of the calls below takes memory, and the text is written once.
#[derive(Debug, Drop)]
pub struct Envelope {
    pub(crate) tree: Value,
    pub(crate) found: Found,
    pub(crate) text: Bytes,
}

impl Model for Envelope {
    ghost use Rattle.std.specs.Coded.{codes};
    ghost use Rattle.serde_json.specs.contracts.value.Value as json_value;
    ghost use Rattle.serde_json.specs.declared.value.Value.{Value as JsonValue};
    ghost use Rattle.envelope.specs.Shown.{TellsTree};

    ghost Value = { JsonValue };

    ghost coded = { Prim.hlevel (codes, json_value.the_row.coded) };

    ghost view = { λ e. e.tree };

    ghost invariant = { λ e. TellsTree e.tree e.found e.text };
}

impl Envelope {
    ghost use Rattle.std.specs.Prelude.{◌≤◌, Some, false};
    ghost use Rattle.serde_json.specs.Data.{depth};
    ghost use Rattle.serde_json.specs.Read.{max_depth, read as json_in};
    ghost use Rattle.serde_json.specs.Written.{has_float};

    /// The envelope of a tree, of what it says and of its compact text.
    pub(crate) fn whole(tree: Tree, found: Found, text: Bytes) -> Envelope
        requires said { said_by (data_of tree) ≡ Ok (parts_view found) }
        requires text { has_float (data_of tree) ≡ false → text ≡ compact_text (data_of tree) }
        requires utf8 { IsUtf8 text }
        requires back { depth (data_of tree) ≤ max_depth → json_in text ≡ Some (data_of tree) }
        ensures { data_of result ≡ data_of tree }
    {
        Envelope { tree, found, text }
    }

    /// The JSON tree. Members that no rule speaks of are kept in it.
    pub fn tree(&self) -> &Tree
        ensures value { data_of result.now ≡ data_of self.now }
        // Each envelope's tree is one that can be read.
        ensures said { said_by (data_of self.now) ≡ Ok (parts_in (data_of self.now)) }
    {
        let _found = &self.found;
        &self.tree
    }

    /// The content of the body, which is UTF-8.
    pub fn content(&self) -> &[u8]
        ensures value { result.now ≡ (parts_in (data_of self.now)).content }
        ensures text { IsUtf8 result.now }
    {
        self.found.content.as_slice()
    }

    /// The delivery tag.
    pub fn tag(&self) -> Tag
        ensures { result.0 ≡ (parts_in (data_of self.now)).tag }
    {
        self.found.tag
    }

    /// The exchange, at most 255 bytes of UTF-8; empty where the message went to its queue directly.
    pub fn exchange(&self) -> &[u8]
        ensures value { result.now ≡ (parts_in (data_of self.now)).exchange }
        ensures text { IsUtf8 result.now }
    {
        self.found.exchange.as_str().as_bytes()
    }

    /// The routing key, at most 255 bytes of UTF-8.
    pub fn routing_key(&self) -> &[u8]
        ensures value { result.now ≡ (parts_in (data_of self.now)).routing_key }
        ensures text { IsUtf8 result.now }
    {
        self.found.routing_key.as_str().as_bytes()
    }

    /// The priority, held within 0 to 9; 0 where the properties tell no whole number.
    pub fn priority(&self) -> u8
        ensures { result ≡ priority_of (data_of self.now) }
    {
        priority_in(&self.tree)
    }

    /// Whether both redelivered marks are true.
    pub fn marked(&self) -> bool
        ensures { result ≡ is_marked (data_of self.now) }
    {
        has_marks(&self.tree)
    }

    /// The compact text of the tree: no blanks, the members of each object in the order of their bytes.
    pub fn text(&self) -> &[u8]
        ensures value { result.now ≡ compact_text (data_of self.now) }
        // It is read again as the same tree.
        ensures again { envelope_at result.now ≡ Ok (data_of self.now) }
    {
        self.text.as_slice()
    }

    /// The length of what `write` gives, in bytes: at most 1,040,000.
    pub fn size(&self) -> u64
        ensures { result ≡ length (compact_text (data_of self.now)) }
    {
        self.text.len() as u64
    }
}

/// The priority that a tree tells.
fn priority_in(tree: &Value) -> u8
    ensures { result ≡ priority_of (data_of tree.now) }
{
    let number = match tree.get("properties") {
        Some(properties) => properties.get("priority").and_then(Value::as_u64),
        None => None,
    };
    number.unwrap_or(0).min(9) as u8
}

/// The compact text of an envelope's tree: no blanks, the members of each object in the order of their bytes.
pub fn write(alloc: Global, e: &Envelope) -> Result<Bytes, AllocError>
    ensures text { IfOk result (λ b. b ≡ compact_text (data_of e.now)) }
    // What was written is read again as the same tree.
    ensures again { IfOk result (λ b. envelope_at b ≡ Ok (data_of e.now)) }
{
    Bytes::from_slice(alloc, e.text())
}
