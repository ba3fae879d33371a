//! A clock that goes on by a step at each look.
ghost use Rattle.std.specs.Prelude.{◌≡◌};
ghost use Rattle.net_links.specs.StepMoments.{IsStepMoment, step_moment};

use crate::Clock;
use std::sync::atomic::{AtomicU64, Ordering};

/// The moment past which a step doesn't lead, in microseconds.
const END: u64 = 1 << 59;

/// Answers a moment and then adds a step, up to 2^59 microseconds. Its rest does nothing.
#[derive(Drop)]
pub struct StepClock {
    start: u64,
    step: u64,
    looks: AtomicU64,
}

impl StepClock {
    /// A clock at a moment, in microseconds; takes no memory.
    pub fn new(start: u64, step: u64) -> StepClock
        ensures start { result.start ≡ start }
        ensures step { result.step ≡ step }
    {
        StepClock {
            start,
            step,
            looks: AtomicU64::new(0),
        }
    }
}

impl Clock for StepClock {
    ghost gives = { λ c. IsStepMoment c.start c.step };

    fn now(&self) -> u64 {
        let looks = self.looks.fetch_add(1, Ordering::SeqCst);
        moment_at(self.start, self.step, looks)
    }

    fn rest(&self) {}
}

/// The moment that a clock answers after so many looks.
fn moment_at(start: u64, step: u64, looks: u64) -> u64
    ensures { result ≡ step_moment start step looks }
{
    if looks == 0 {
        return start;
    }
    start.saturating_add(step.saturating_mul(looks)).min(END)
}
