//! Entries in the order of their file.
ghost use Rattle.std.specs.Prelude.{IfOk};
ghost use Rattle.beat_times.specs.Due.{AreDue, AreTicked};

use crate::timed::Timed;
use std::alloc::{AllocError, Global};

/// The indices of the entries that are due, in their order.
pub fn due(alloc: Global, entries: &[Timed], now: u64) -> Result<Vec<u64>, AllocError>
    ensures { IfOk result (λ found. AreDue now 0 entries.now found.items) }
{
    let mut found = Vec::new(alloc);
    for (index, entry) in entries.iter().enumerate() {
        if entry.is_due(now) {
            found.push(index as u64)?;
        }
    }
    Ok(found)
}

/// Makes this moment the last one of each entry that is due; takes no memory.
pub fn tick(entries: &mut [Timed], now: u64)
    ensures { AreTicked now entries.old entries.new }
{
    for entry in entries.iter_mut() {
        entry.tick(now);
    }
}
