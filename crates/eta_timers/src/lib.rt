//! Timers of tasks that are held until their ETA (Celery manual, "ETA and Countdown").
#![tactic(auto)]

mod order;
mod timers;

pub use timers::{TIMER_LIMIT, TimerFault, Timers};
