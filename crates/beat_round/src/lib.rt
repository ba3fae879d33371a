//! A round of a scheduler of periodic tasks: what is due is published, and then the schedule ticks (Celery manual,
//! "Periodic Tasks").
#![tactic(auto)]

mod drafting;
mod ended;
mod round;
mod sending;

pub use ended::BeatEnd;
pub use round::beat_round;
