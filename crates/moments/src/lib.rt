//! Moments of tasks: microseconds since 1970, and the texts that Celery writes for them (ISO 8601, RFC 3339).
#![tactic(auto)]

mod civil;
mod laws;
mod moment;
mod reading;
mod writing;

pub use laws::moments_come_back;
pub use moment::Moment;
