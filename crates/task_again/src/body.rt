//! The body of a message of version 1 that is sent again.
ghost use Rattle.std.specs.Prelude.{◌≡◌, IfOk, OnOk, Some, false, string_bytes};
ghost use Rattle.base64.specs.Engines.{standard};
ghost use Rattle.base64.specs.GeneralPurpose.{encode_of};
ghost use Rattle.serde_json.specs.Data.{Data};
ghost use Rattle.serde_json.specs.View.{view as data_of};
ghost use Rattle.serde_json.specs.Written.{compact_text, has_float};
ghost use Rattle.envelope.specs.Envelopes.{json_at};
ghost use Rattle.task_again.specs.Whole.{IsBody};
ghost use Rattle.task_message.specs.Again.{body_again, retried};

use crate::change::{Retry, write_retry};
use base64::engine::general_purpose::STANDARD;
use serde_json::Value;
use std::alloc::{AllocError, Global};

/// The body of a content of version 1 with a retry written into it.
pub(crate) fn new_body(alloc: Global, content: &[u8], next: Retry) -> Result<String, AllocError>
    requires { (c : Data) × (json_at content.now ≡ Some c) × (has_float c ≡ false) }
    ensures text { IfOk result (λ s. string_bytes s
        ≡ body_again next.retries next.eta.0 content.now) }
    ensures body { OnOk result (IsBody (body_again next.retries next.eta.0 content.now)) }
{
    let tree = content_again(alloc, content, next)?;
    let body = encoded(alloc, &tree)?;
    Ok(body)
}

/// The tree of a content of version 1 with a retry written into it.
fn content_again(alloc: Global, content: &[u8], next: Retry) -> Result<Value, AllocError>
    requires { (c : Data) × (json_at content.now ≡ Some c) × (has_float c ≡ false) }
    ensures { IfOk result (λ v. (c : Data) → json_at content.now ≡ Some c
        → data_of v ≡ retried next.retries next.eta.0 c) }
{
    let mut tree = json(alloc, content)?;
    write_retry(alloc, &mut tree, next)?;
    Ok(tree)
}

/// The tree of a content that is JSON.
fn json(alloc: Global, content: &[u8]) -> Result<Value, AllocError>
    requires { (c : Data) × (json_at content.now ≡ Some c) × (has_float c ≡ false) }
    ensures { IfOk result (λ v. json_at content.now ≡ Some (data_of v)) }
{
    match Value::from_slice(alloc, content) {
        Ok(value) => Ok(value),
        Err(e) => if e.is_memory() {
            Err(AllocError)
        } else {
            unreachable!()
        },
    }
}

/// The base64 of a tree's compact text.
fn encoded(alloc: Global, tree: &Value) -> Result<String, AllocError>
    requires { has_float (data_of tree.now) ≡ false }
    ensures text { IfOk result (λ s. string_bytes s
        ≡ encode_of standard (compact_text (data_of tree.now))) }
    ensures body { OnOk result (IsBody (encode_of standard (compact_text (data_of tree.now)))) }
{
    let text = tree.to_vec(alloc)?;
    let body = STANDARD.encode(alloc, text.as_slice())?;
    Ok(body)
}
