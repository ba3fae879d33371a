//! The system's clock.
ghost use Rattle.std.specs.Prelude.{◌<◌, ◌^◌};

use net_links::Clock;
use std::sync::atomic::{AtomicU64, Ordering};
use std::time;
use std::time::Duration;

/// Answers microseconds since 1970; where the system doesn't tell the time, the last moment that it answered. Its rest
/// sleeps for as long as it was made with.
#[derive(Drop)]
pub struct WallClock<R> {
    rt: R,
    pause: Duration,
    last: AtomicU64,
}

impl<R> WallClock<R> {
    /// A clock whose rest sleeps for this long; takes no memory.
    pub fn new(rt: R, pause: Duration) -> WallClock<R> {
        WallClock {
            rt,
            pause,
            last: AtomicU64::new(0),
        }
    }
}

impl<R: time::Clock> Clock for WallClock<R> {
    ghost gives = { λ c moment. moment < 2 ^ 64 };

    fn now(&self) -> u64 {
        match self.rt.since_1970() {
            Ok(passed) => {
                let now = u64::try_from(passed.as_micros()).unwrap_or(u64::MAX);
                self.last.store(now, Ordering::SeqCst);
                now
            }
            Err(_) => self.last.load(Ordering::SeqCst),
        }
    }

    fn rest(&self) {
        self.rt.sleep(self.pause)
    }
}
