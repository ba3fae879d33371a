//! Words that are left.
ghost use Rattle.std.specs.Prelude.{◌≡◌, IfOk};

use std::alloc::{AllocError, Global};
use wire_values::{Bytes, Words};

/// A copy of words.
pub(crate) fn rest_of(alloc: Global, words: &[Bytes]) -> Result<Words, AllocError>
    ensures { IfOk result (λ rest. rest ≡ words.now) }
{
    let mut rest = Words::new();
    for word in words {
        rest.push(alloc, word.copy(alloc)?)?;
    }
    Ok(rest)
}
