//! What is written.
ghost use Rattle.std.specs.Prelude.{IfOk, string_bytes, ◌≡◌};
ghost use Rattle.publish_run.specs.Blocks.{end_line};

use routes::PublishEnd;
use std::alloc::{AllocError, Global};

/// The line of a publication under the tag of a seed and a counter: `published <tag>`, or `no queue <tag>`.
pub(crate) fn end_line(
    alloc: Global,
    seed: u64,
    counter: u64,
    end: PublishEnd,
) -> Result<String, AllocError>
    ensures { IfOk result (λ line. string_bytes line ≡ end_line seed counter end) }
{
    match end {
        PublishEnd::Sent { .. } => format!(in alloc; "published {seed}:{counter}\n"),
        PublishEnd::NoQueue(_) => format!(in alloc; "no queue {seed}:{counter}\n"),
    }
}
