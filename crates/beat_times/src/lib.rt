//! When periodic tasks come due: intervals and crontabs, and the moment at which each was last due (Celery manual,
//! "Periodic Tasks").
#![tactic(auto)]

mod entries;
mod timed;

pub use entries::{due, tick};
pub use timed::{Timed, Timing};
