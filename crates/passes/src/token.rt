//! The tokens of passes.
ghost use Rattle.std.specs.Prelude.{◌≡◌, IfOk, length, ◌≤◌};
ghost use Rattle.queue_keys.specs.Texts.{token};

use std::alloc::{AllocError, Global};
use wire_values::Bytes;

/// The token under which a client of this seed has the mutex in its pass of this number, from 1: the seed in decimal, a
/// colon, and the number. No two passes of clients of different seeds have the same.
///
/// # Errors
/// Want of memory.
pub fn pass_token(alloc: Global, seed: u64, number: u64) -> Result<Bytes, AllocError>
    ensures value { IfOk result (λ made. made ≡ token seed number) }
    ensures short { IfOk result (λ made. length made ≤ 41) }
{
    token_text(alloc, seed, number)
}

/// The text of a token.
fn token_text(alloc: Global, seed: u64, number: u64) -> Result<Bytes, AllocError>
    ensures { IfOk result (λ made. made ≡ token seed number) }
{
    let text = format!(in alloc; "{seed}:{number}")?;
    Bytes::from_slice(alloc, text.as_bytes())
}
