//! Names of queues and their keys, one for each priority step; and, as definitions, key layouts, bindings and lookups.
#![tactic(auto)]

mod keys;
mod queue_name;

pub use keys::{pop_keys, queue_key, split_key, step_of};
pub use queue_name::{NameFault, QueueName, are_same, is_name, is_reserved};
