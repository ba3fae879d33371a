//! What the store answers to a command.
use wire_values::{Value, Values};

/// The messages that the connection was told before the answer, in order, and the answer.
#[derive(Debug, Drop)]
pub struct Reply {
    pub pushed: Values,
    pub answer: Value,
}
