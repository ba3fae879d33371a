//! The queues to which an exchange's messages go: bindings written and read, routing keys matched by patterns, and the
//! lookup.
#![tactic(auto)]

mod bindings;
mod patterns;
mod queues;
mod written;

pub use patterns::matches;
pub use queues::{lawful_name, lookup, queues_for, route_keys};
pub use written::{binding_key, is_part, member};
