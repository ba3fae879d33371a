//! Tasks in envelopes, by both versions of Celery's message protocol: reading them, and drafting them to be sent.
#![tactic(auto)]

mod content;
mod drafting;
mod fault;
mod found;
mod headers;
mod members;
mod reading;
mod task;

pub use drafting::{MAX_ARGUMENT_LEVELS, can_draft, draft};
pub use fault::{Part, TaskFault};
pub use members::moment_tree;
pub use moments::Moment;
pub use reading::read;
pub use task::Task;
