//! What a line of a record says.
use place_model::{Entry, Heard};

/// What a line of a record after the header says.
#[derive(Drop)]
pub enum Row {
    /// A client, by its connection and the seed of its tags.
    Client { connection: u32, seed: u64 },
    /// An entry of the history.
    Event(Entry<Heard>),
}
