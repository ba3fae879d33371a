//! The block that returns the messages which have stood in the table for long, as a stage of a `block_core::BlockCore`:
//! it takes the mutex, reads at most ten tags that are due, returns each of them, and lets go of the mutex.
//!
//! Celery's workers restore so what a worker that stopped had in hand (Kombu's `restore_visible`, under the visibility
//! timeout of the transport).
#![tactic(auto)]

mod counts;
mod ended;
mod members;
mod pass;
mod passing;
mod release;
mod terms;
mod token;
mod turns;
mod words;

pub use ended::PassEnd;
pub use pass::{PassCore, pass_core};
pub use passing::PassStage;
pub use token::pass_token;
