//! A task.
use envelope::Tree;
use moments::Moment;
use wire_values::Bytes;

/// A task that a message asks for.
#[derive(Drop)]
pub struct Task {
    /// The version of the message protocol: 1 or 2.
    pub version: u8,
    /// The name, UTF-8, as `tasks.add`.
    pub name: Bytes,
    /// The id, UTF-8.
    pub id: Bytes,
    /// The positional arguments, an array.
    pub args: Tree,
    /// The keyword arguments, an object.
    pub kwargs: Tree,
    /// How often the task was retried.
    pub retries: u32,
    /// The moment before which the task waits.
    pub eta: Option<Moment>,
    /// The moment after which the task is expired.
    pub expires: Option<Moment>,
}
