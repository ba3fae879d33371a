//! An entry's times.
ghost use Rattle.std.specs.Prelude.{◌+◌, ◌≤◌, ◌↔◌, IsTrue};

use crontabs::Crontab;

/// When an entry comes due.
#[derive(Drop)]
pub enum Timing {
    /// So many seconds after it was last due.
    Every(u32),
    /// With each minute of UTC that the crontab matches.
    Cron(Box<Crontab>),
}

/// An entry's timing, and its last moment: when it was last due, or when the scheduler began, in seconds since 1970.
#[derive(Drop)]
pub struct Timed {
    /// When it comes due.
    pub timing: Timing,
    /// When it was last due.
    pub last: u64,
}

impl Timed {
    ghost use Rattle.beat_times.specs.Due.{IsDue, IsTicked};

    /// Whether the entry is due at a moment: at least so many seconds after its last one, or a minute that its crontab
    /// matches began since then. Takes no memory.
    pub fn is_due(&self, now: u64) -> bool
        ensures { IsTrue result ↔ IsDue self.now now }
    {
        match &self.timing {
            Timing::Every(seconds) => has_passed(self.last, *seconds, now),
            Timing::Cron(crontab) => crontab.is_due(self.last, now),
        }
    }

    /// Makes this moment the last one, where the entry is due. Takes no memory.
    pub(crate) fn tick(&mut self, now: u64)
        ensures { IsTicked now self.old self.new }
    {
        if self.is_due(now) {
            self.last = now;
        }
    }
}

/// Whether so many seconds went by.
fn has_passed(last: u64, seconds: u32, now: u64) -> bool
    ensures { IsTrue result ↔ (last + seconds ≤ now) }
{
    match now.checked_sub(last) {
        Some(gone) => gone >= seconds as u64,
        None => false,
    }
}
