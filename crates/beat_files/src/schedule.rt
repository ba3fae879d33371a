//! A schedule of periodic tasks.
ghost use Rattle.std.specs.Prelude.{◌≡◌, IfOk, length, option_copied, slice_get};

use crate::entry::BeatTask;
use crate::lines::cut_line;
use crate::reading::read_numbered;
use beat_times::{Timed, due, tick};
use line_text::{Lines, TextFault};
use std::alloc::{AllocError, Global};

/// The entries of a beat file, in its order: what each sends, when it comes due, and when it last was.
#[derive(Drop)]
pub struct Schedule {
    pub(crate) tasks: Vec<BeatTask>,
    pub(crate) times: Vec<Timed>,
    ghost paired: { length times.items ≡ length tasks.items },
}

impl Schedule {
    ghost use Rattle.beat_times.specs.Due.{AreDue, AreTicked};
    ghost use Rattle.beat_files.specs.BeatFiles.{file_spells};
    ghost use Rattle.beat_files.specs.Readings.{AreBelow, IsRead, tasks_in, times_in};

    /// Reads a beat file. The last moment of each entry is the start, in seconds since 1970.
    ///
    /// # Errors
    /// `Bad` with the first bad line and its first reason, in this order: `Long` where it has more than 65,536 bytes, or
    /// holds the first byte past the 67,108,864 of an input; `Text` where it isn't UTF-8; `Header`; `Syntax` where a word
    /// is missing or out of form; `Name` and `Reserved` of the queue; `Json` of the arguments; `Cron` where a field of a
    /// crontab is out of form or range. `Memory` is want of memory.
    pub fn read(alloc: Global, text: &[u8], start: u64) -> Result<Schedule, TextFault>
        ensures { IsRead start (file_spells text.now) result }
    {
        read_numbered(alloc, cut_line(text), start, Lines::new(text))
    }

    /// The indices of the entries that are due at a moment in seconds, in the file's order.
    pub fn due(&self, alloc: Global, now: u64) -> Result<Vec<u64>, AllocError>
        ensures due { IfOk result (λ found. AreDue now 0 (times_in self.now) found.items) }
        ensures below { IfOk result (λ found. AreBelow (length (tasks_in self.now)) found.items) }
    {
        due(alloc, self.times.as_slice(), now)
    }

    /// Makes a moment the last one of each entry that is due at it; takes no memory.
    pub fn tick(&mut self, now: u64)
        ensures ticked { AreTicked now (times_in self.old) (times_in self.new) }
        ensures same { tasks_in self.new ≡ tasks_in self.old }
    {
        tick(self.times.as_mut_slice(), now);
    }

    /// What the entry of an index sends, in the file's order from 0; None exactly past the last one. Takes no memory.
    pub fn task(&self, index: u64) -> Option<&BeatTask>
        ensures { option_copied result ≡ slice_get (tasks_in self.now) index }
    {
        self.tasks.get(index as usize)
    }
}
