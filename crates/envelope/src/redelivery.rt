//! The envelope of a message that is delivered again.
ghost use Rattle.std.specs.Prelude.{◌≡◌, IfOk, true};
ghost use Rattle.serde_json.specs.View.{view};
ghost use Rattle.envelope.specs.Envelopes.{parts_in, priority_of};
ghost use Rattle.envelope_trees.specs.Marks.{is_marked, marked};

use crate::envelope::Envelope;
use crate::reading::text_of;
use envelope_trees::marks::marked_copy;
use std::alloc::{AllocError, Global};

/// The envelope of a message that is delivered again: both redelivered marks are set, and nothing else changes.
pub fn redelivered(alloc: Global, e: &Envelope) -> Result<Envelope, AllocError>
    ensures tree { IfOk result (λ made. view made ≡ marked (view e.now)) }
    ensures is_marked { IfOk result (λ made. is_marked (view made) ≡ true) }
    // The content, the tag, the exchange and the routing key are kept, and so is the priority.
    ensures parts { IfOk result (λ made. parts_in (view made) ≡ parts_in (view e.now)) }
    ensures priority { IfOk result (λ made. priority_of (view made) ≡ priority_of (view e.now)) }
{
    let found = e.found.copy(alloc)?;
    let tree = marked_copy(alloc, &e.tree)?;
    let text = text_of(alloc, &tree)?;
    Ok(Envelope::whole(tree, found, text))
}
