//! Celery's envelopes: a message as a JSON text, with its delivery tag, and entries of the unacked table.
#![tactic(auto)]

mod entry;
mod envelope;
mod reading;
mod redelivery;

pub use delivery_tags::{Seed, Tag};
pub use entry::{UnackedEntry, read_entry, write_entry};
pub use envelope::{Envelope, Tree, write};
pub use envelope_trees::{EnvelopeFault, Field};
pub use reading::{of_tree, read};
pub use redelivery::redelivered;
