//! How a return ends.

use envelope::Tag;

/// How a return ended.
#[derive(Clone, Copy, Debug, Drop)]
pub enum Returned {
    /// The message is in its queues again.
    Moved,
    /// It wasn't in the table.
    Gone,
    /// What the table has under the tag is no entry of it, or there is no queue for it.
    Stayed,
    /// The table was altered in each of eight tries to return the message of this tag.
    Contended(Tag),
}
