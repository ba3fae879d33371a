//! The built-in tasks of a worker: what each answers, the rule that says so, and stored closures that keep it.
#![tactic(auto)]

mod answers;
mod arguments;
mod stored_task;

pub use answers::{add, again, echo, fail};
pub use stored_task::{Closure, StoredTask};
