//! Reading a beat file, line by line.
ghost use Rattle.std.specs.Prelude.{◌≡◌};
ghost use Rattle.line_text.specs.LinesLeft.{lines_left};
ghost use Rattle.beat_files.specs.BeatFiles.{lines_spell, numbered_spell};
ghost use Rattle.beat_files.specs.Readings.{IsRead};

use crate::lines::{bad, first_fault, numbered_entry};
use crate::schedule::Schedule;
use beat_times::Timed;
use line_text::{Lines, Reason, TextFault};
use std::alloc::Global;

/// Reads the lines of a file, the header first.
pub(crate) fn read_numbered<'a>(
    alloc: Global,
    cut: u64,
    start: u64,
    mut lines: Lines<'a>,
) -> Result<Schedule, TextFault>
    ensures { IsRead start (numbered_spell cut (lines_left lines.entry)) result }
{
    let Some((_, header)) = lines.next() else {
        return Err(bad(1, Reason::Header));
    };
    if let Some(reason) = first_fault(cut, header) {
        return Err(bad(1, reason));
    }
    read_lines(alloc, cut, start, lines)
}

/// Reads the lines after the header.
fn read_lines<'a>(
    alloc: Global,
    cut: u64,
    start: u64,
    mut lines: Lines<'a>,
) -> Result<Schedule, TextFault>
    ensures { IsRead start (lines_spell cut (lines_left lines.entry)) result }
{
    let mut tasks = Vec::new(alloc);
    let mut times = Vec::new(alloc);
    while let Some((number, line)) = lines.next() {
        let entry = numbered_entry(alloc, cut, number, line)?;
        tasks.push(entry.task)?;
        times.push(Timed {
            timing: entry.timing,
            last: start,
        })?;
    }
    Ok(Schedule { tasks, times })
}
