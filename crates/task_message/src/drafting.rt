//! Drafting a task that is to be sent.
ghost use Rattle.std.specs.Prelude.{◌≡◌, IfOk, IsUtf8, true};
ghost use Rattle.serde_json.specs.View.{view as data_of};
ghost use Rattle.serde_json.specs.Written.{compact_text};
ghost use Rattle.envelope.specs.Envelopes.{json_at};
ghost use Rattle.task_message.specs.Drafted.{IsDrafted, can_draft, drafted_content, drafted_headers, is_argument, is_filled, is_writable};
ghost use Rattle.task_message.specs.Shown.{micros_if, task_view};

use crate::content::content_tree;
use crate::headers::headers_tree;
use crate::task::Task;
use envelope::Tree;
use envelope_trees::walk::{holds_float, nests_within};
use moments::Moment;
use sealed_drafts::Draft;
use serde_json::Value;
use std::alloc::{AllocError, Global};
use wire_values::Bytes;

/// The deepest nesting of the arguments, and of the keywords, of a task that is drafted, 90.
pub const MAX_ARGUMENT_LEVELS: u32 = 90;

/// Whether a task can be drafted: its version is 1 or 2, its name and its id are UTF-8 and not empty, its arguments are
/// an array and its keywords an object, both without a float and nested at most 90 deep, and its moments lie in the
/// years 1 to 9999.
pub fn can_draft(t: &Task) -> bool
    ensures { result ≡ can_draft (task_view t.now) }
{
    (t.version == 1 || t.version == 2)
        && is_filled(t.name.as_slice())
        && is_filled(t.id.as_slice())
        && (t.args.is_array() && is_argument(&t.args))
        && (t.kwargs.is_object() && is_argument(&t.kwargs))
        && is_writable(t.eta)
        && is_writable(t.expires)
}

/// Whether bytes are UTF-8 and not empty.
fn is_filled(bytes: &[u8]) -> bool
    ensures { result ≡ is_filled bytes.now }
{
    match str::from_utf8(bytes) {
        Ok(_) => bytes.len() >= 1,
        Err(_) => false,
    }
}

/// Whether a tree has no float and nests at most 90 deep.
fn is_argument(tree: &Value) -> bool
    ensures { result ≡ is_argument (data_of tree.now) }
{
    !holds_float(tree) && nests_within(tree, MAX_ARGUMENT_LEVELS)
}

/// Whether a moment lies in the years 1 to 9999, where there is one.
fn is_writable(moment: Option<Moment>) -> bool
    ensures { result ≡ is_writable (micros_if moment) }
{
    match moment {
        Some(moment) => moment.is_within_years(),
        None => true,
    }
}

/// The draft of a task, to be sealed and sent to an exchange with a routing key and a priority. In version 2 the name,
/// the id and the settings stand in the headers, and the content is an array of three; in version 1 the headers are
/// empty, and the content tells all of the task.
pub fn draft(
    alloc: Global,
    t: &Task,
    exchange: &[u8],
    routing_key: &[u8],
    priority: i64,
) -> Result<Draft, AllocError>
    requires { can_draft (task_view t.now) ≡ true }
    ensures { IfOk result (IsDrafted (task_view t.now) exchange.now routing_key.now priority) }
{
    let content = content_text(alloc, t)?;
    let headers = headers_tree(alloc, t)?;
    let address = address_of(alloc, t.id.as_slice(), exchange, routing_key)?;
    Ok(Draft {
        content,
        headers,
        id: address.id,
        exchange: address.exchange,
        routing_key: address.routing_key,
        priority,
    })
}

/// The compact text of a task's content.
fn content_text(alloc: Global, t: &Task) -> Result<Bytes, AllocError>
    requires { can_draft (task_view t.now) ≡ true }
    ensures text { IfOk result (λ b. b ≡ compact_text (drafted_content (task_view t.now))) }
    ensures reads { IfOk result (λ b. json_at b ≡ Some (drafted_content (task_view t.now))) }
{
    let tree = content_tree(alloc, t)?;
    Ok(Bytes::from_vec(tree.to_vec(alloc)?))
}

/// The id of a task, and where it is sent.
#[derive(Drop)]
struct Address {
    id: Bytes,
    exchange: Bytes,
    routing_key: Bytes,
}

/// The address of a task.
fn address_of(
    alloc: Global,
    id: &[u8],
    exchange: &[u8],
    routing_key: &[u8],
) -> Result<Address, AllocError>
    ensures id { IfOk result (λ made. made.id ≡ id.now) }
    ensures exchange { IfOk result (λ made. made.exchange ≡ exchange.now) }
    ensures routing_key { IfOk result (λ made. made.routing_key ≡ routing_key.now) }
{
    let id = Bytes::from_slice(alloc, id)?;
    let exchange = Bytes::from_slice(alloc, exchange)?;
    let routing_key = Bytes::from_slice(alloc, routing_key)?;
    Ok(Address {
        id,
        exchange,
        routing_key,
    })
}
