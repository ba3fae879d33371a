//! How a pass ends.

use envelope::Tag;

/// How a pass ended.
#[derive(Clone, Copy, Debug, Drop)]
pub enum PassEnd {
    /// The return of each tag that was read ended: so many messages were moved to their queues, were gone from the table
    /// before, or stayed in it.
    Done { moved: u64, gone: u64, stayed: u64 },
    /// Another pass has the mutex.
    Held,
    /// The return of the message of this tag was contended, and those after it were left.
    Contended(Tag),
}
