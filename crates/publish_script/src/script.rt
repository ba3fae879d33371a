//! A whole publish script.
ghost use Rattle.std.specs.Prelude.{List as Listed, ◌≡◌, ◌+◌, take, ℕ};
ghost use Rattle.queue_keys.specs.Names.{Bytes as Text};
ghost use Rattle.line_text.specs.Lines.{lines_of, numbered, text_fault};
ghost use Rattle.line_text.specs.LinesLeft.{lines_left};
ghost use Rattle.line_text.specs.declared.reason.TextFault.TheVariants.{Bad};
ghost use Rattle.schedule_model.specs.Schedules.{max_input, max_line};
ghost use Rattle.publish_script.specs.Readings.{IsChecked, script_fault_at, from_first};
ghost use Rattle.publish_script.specs.Scripts.{cut_fault, is_cut_before, header_reason, header_script, lines_script, new_reader, script_told};

use crate::reader::PublishReader;
use client_plans::PlanFault;
use line_text::{BadLine, INPUT_LIMIT, LINE_LIMIT, Lines, Reason, TextFault, line_text};
use std::alloc::Global;

/// What is read of a script: all of it, or of a longer one than is lawful all up to one byte past its limit of 67,108,864
/// bytes.
pub fn script_text(bytes: &[u8]) -> &[u8]
    ensures { result.now ≡ take (max_input + 1) bytes.now }
{
    if INPUT_LIMIT < bytes.len() {
        &bytes[..INPUT_LIMIT + 1]
    } else {
        bytes
    }
}

/// Checks a script for a client of a seed: each line is read, and nothing is said. The line that holds the first byte past
/// the script's limit is too long.
///
/// # Errors
/// `Bad` with the first bad line; `Memory` is want of memory.
pub fn check_script(alloc: Global, seed: u64, bytes: &[u8]) -> Result<(), TextFault>
    ensures { IsChecked (script_told seed bytes.now) result }
{
    let is_cut = INPUT_LIMIT < bytes.len();
    check_text(alloc, seed, is_cut, script_text(bytes))
}

/// Checks the lines of a text, the header first, which may be cut off amid its last line.
fn check_text(alloc: Global, seed: u64, is_cut: bool, text: &[u8]) -> Result<(), TextFault>
    ensures { IsChecked (header_script seed is_cut (numbered 1 (lines_of text.now))) result }
{
    let mut lines = Lines::new(text);
    let Some((_, header)) = lines.next() else {
        return Err(bad(1, Reason::Header));
    };
    let first = lines.next();
    if let Some(reason) = header_fault(ends_cut(is_cut, &first), header) {
        return Err(bad(1, reason));
    }
    check_lines(alloc, seed, is_cut, first, lines)
}

/// Whether the input is cut off amid a line, by what follows it.
fn ends_cut(is_cut: bool, next: &Option<(u64, &[u8])>) -> bool
    ensures { (rest : Listed (ℕ × Text)) → result ≡ is_cut_before is_cut (from_first next.now rest) }
{
    match next {
        Some(_) => false,
        None => is_cut,
    }
}

/// The fault that a line is bad.
fn bad(line: u64, reason: Reason) -> TextFault
    ensures { result ≡ Bad (record { line = line; reason = reason }) }
{
    TextFault::Bad(BadLine { line, reason })
}

/// Why a header is none, where the input may be cut off amid it.
fn header_fault(is_cut: bool, line: &[u8]) -> Option<Reason>
    ensures { result ≡ cut_fault is_cut (header_reason line.now (text_fault max_line line.now)) }
{
    if is_cut {
        return Some(Reason::Long);
    }
    match line_text(LINE_LIMIT, line) {
        Ok(text) if text == "celery-publish 1" => None,
        Ok(_) => Some(Reason::Header),
        Err(reason) => Some(reason),
    }
}

/// Checks the lines from the first one on, which stands before the others.
fn check_lines<'a>(
    alloc: Global,
    seed: u64,
    is_cut: bool,
    first: Option<(u64, &'a [u8])>,
    mut lines: Lines<'a>,
) -> Result<(), TextFault>
    ensures { IsChecked (lines_script seed is_cut new_reader (from_first first.entry (lines_left lines.entry))) result }
{
    let mut reader = PublishReader::new(seed);
    let mut present = first;
    while let Some((number, line)) = present {
        present = lines.next();
        if ends_cut(is_cut, &present) {
            return Err(bad(number, Reason::Long));
        }
        if let Some(fault) = reader.line(alloc, line).err() {
            return Err(script_fault_at(number, fault));
        }
    }
    Ok(())
}

/// The fault of a line, as one of the script.
fn script_fault_at(line: u64, fault: PlanFault) -> TextFault
    ensures { result ≡ script_fault_at line fault }
{
    match fault {
        PlanFault::Bad(reason) => bad(line, reason),
        PlanFault::Memory => TextFault::Memory,
    }
}
