//! The lines of a beat file.
ghost use Rattle.std.specs.Prelude.{◌≡◌};
ghost use Rattle.line_text.specs.declared.reason.TextFault.TheVariants.{Bad};
ghost use Rattle.beat_files.specs.BeatFiles.{cut_line, first_against, header_against, line_entry, unless_cut};
ghost use Rattle.beat_files.specs.Readings.{GivesLine, IsReadAt, line_of};

use crate::entry::{FileEntry, line_entry};
use crate::fault::EntryFault;
use line_text::{BadLine, INPUT_LIMIT, LINE_LIMIT, Reason, TextFault, line_number_at, line_text};
use std::alloc::Global;

/// The number of the line that holds the first byte past the input's limit of 67,108,864 bytes; 0 where there is none.
pub(crate) fn cut_line(bytes: &[u8]) -> u64
    ensures { result ≡ cut_line bytes.now }
{
    if bytes.len() > INPUT_LIMIT {
        line_number_at(bytes, INPUT_LIMIT)
    } else {
        0
    }
}

/// The fault that a line is bad.
pub(crate) fn bad(line: u64, reason: Reason) -> TextFault
    ensures { result ≡ Bad (record { line = line; reason = reason }) }
{
    TextFault::Bad(BadLine { line, reason })
}

/// Why the first line is no header.
pub(crate) fn first_fault(cut: u64, line: &[u8]) -> Option<Reason>
    ensures { result ≡ first_against cut line.now }
{
    if cut == 1 {
        return Some(Reason::Long);
    }
    match line_text(LINE_LIMIT, line) {
        Ok(text) if text == "celery-beat 1" => None,
        Ok(_) => Some(Reason::Header),
        Err(reason) => Some(reason),
    }
}

/// The entry of a numbered line, where it isn't the one that is too long by the input's limit.
pub(crate) fn numbered_entry(
    alloc: Global,
    cut: u64,
    number: u64,
    line: &[u8],
) -> Result<FileEntry, TextFault>
    ensures { IsReadAt number (unless_cut cut (number, line.now)) result }
{
    if number == cut {
        return Err(bad(number, Reason::Long));
    }
    match line_entry(alloc, line) {
        Ok(entry) => Ok(entry),
        Err(EntryFault::Bad(reason)) => Err(bad(number, reason)),
        Err(EntryFault::Memory) => Err(TextFault::Memory),
    }
}
