//! Why a core took no reply.
ghost use Rattle.std.specs.Prelude.{◌≡◌, IfOk};
ghost use Rattle.block_core.specs.declared.fault.ReplyFault.TheVariants.{Refused};

use std::alloc::{AllocError, Global};
use store_model::Reply;
use wire_values::copy_values;

/// Why a core took no reply.
#[derive(Debug, Drop)]
pub enum ReplyFault {
    /// The store answered this, and no block goes on after it.
    Refused(Reply),
    /// Want of memory.
    Memory,
}

impl ReplyFault {
    /// The fault that the store answered this, with a copy of the reply.
    pub(crate) fn refused(alloc: Global, reply: &Reply) -> Result<ReplyFault, AllocError>
        ensures { IfOk result (λ fault. fault ≡ Refused reply.now) }
    {
        Ok(ReplyFault::Refused(Reply {
            pushed: copy_values(alloc, &reply.pushed)?,
            answer: reply.answer.copy(alloc)?,
        }))
    }
}
