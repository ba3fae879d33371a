//! Bindings written: the key of an exchange's set, and the member of a binding (Kombu's Redis transport).
ghost use Rattle.std.specs.Prelude.{◌≡◌, [], ◌∷◌, ◌++◌, IfOk, OnOk};
ghost use Rattle.queue_keys.specs.Bindings.{is_part, member};
ghost use Rattle.queue_keys.specs.Layouts.{plain};
ghost use Rattle.queue_keys.specs.Names.{all_free, is_free};
ghost use Rattle.queue_keys.specs.QueueKeys.{binding_key};

use std::alloc::{AllocError, Global};
use wire_values::Bytes;

/// The key of the set of an exchange's bindings: `_kombu.binding.` and the exchange.
///
/// # Errors
/// Want of memory.
pub fn binding_key(alloc: Global, exchange: &[u8]) -> Result<Bytes, AllocError>
    ensures { IfOk result (λ key. key ≡ binding_key plain exchange.now) }
{
    let mut key = Bytes::from_slice(alloc, b"_kombu.binding.")?;
    key.extend(alloc, exchange)?;
    Ok(key)
}

/// The member of a binding: its routing key, pattern and queue, parted by 06 16 (hexadecimal).
///
/// # Errors
/// Want of memory.
pub fn member(
    alloc: Global,
    routing_key: &[u8],
    pattern: &[u8],
    queue: &[u8],
) -> Result<Bytes, AllocError>
    ensures { IfOk result (λ text. text ≡ member routing_key.now pattern.now queue.now) }
{
    let mut text = Bytes::from_slice(alloc, routing_key)?;
    add_part(alloc, &mut text, pattern)?;
    add_part(alloc, &mut text, queue)?;
    Ok(text)
}

/// Adds a separator and a part.
fn add_part(alloc: Global, text: &mut Bytes, part: &[u8]) -> Result<(), AllocError>
    ensures { OnOk result (text.new ≡ text.old ++ (6 ∷ 22 ∷ part.now)) }
{
    text.extend(alloc, b"\x06\x16")?;
    text.extend(alloc, part)?;
    Ok(())
}

/// Whether a text may be the exchange, the routing key or the pattern of a declaration: at most 255 bytes, none of them
/// 06 or 16 (hexadecimal).
pub fn is_part(text: &[u8]) -> bool
    ensures { result ≡ is_part text.now }
{
    are_free(text) && text.len() <= 255
}

/// Whether no byte parts the texts of a binding.
fn are_free(text: &[u8]) -> bool
    ensures { result ≡ all_free text.now }
{
    for byte in text {
        if !is_free(*byte) {
            return false;
        }
    }
    true
}

/// Whether a byte is none of the two that part the texts of a binding.
fn is_free(byte: u8) -> bool
    ensures { result ≡ is_free byte }
{
    byte != 6 && byte != 22
}
