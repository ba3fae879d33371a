//! The clock of a store behind a link.
ghost use Rattle.local_links.specs.LocalTalks.{IsBeginning};

use net_links::Clock;

/// Answers the moment 0 always. Its rest does nothing.
#[derive(Clone, Copy, Drop)]
pub struct StillClock;

impl Clock for StillClock {
    ghost gives = { λ c. IsBeginning };

    fn now(&self) -> u64 {
        0
    }

    fn rest(&self) {}
}
