//! A schedule run from its first line to its last.
ghost use Rattle.std.specs.Prelude.{◌≡◌, IfOk};
ghost use Rattle.line_text.specs.Lines.{lines_of, text_fault};
ghost use Rattle.line_text.specs.LinesLeft.{lines_left};
ghost use Rattle.command_blocks.specs.EnvelopeTexts.{plain_setting};
ghost use Rattle.place_model.specs.Histories.{after};
ghost use Rattle.place_model.specs.Shown.{history_of};
ghost use Rattle.place_model.specs.Starts.{IsSound};
ghost use Rattle.message_schedules.specs.Companions.{MessagesHaveOneTree, MessagesPublishedOnce, MessagesWerePublished, PassesAccount, ReturnsAreWhole, StopsMoveOne};
ghost use Rattle.schedule_model.specs.Desk.{first_desk};
ghost use Rattle.schedule_model.specs.Programs.{program_craft};
ghost use Rattle.schedule_model.specs.Schedules.{header_led, header_on, last_led};
ghost use Rattle.schedule_world.specs.Desks.{desk_of};
ghost use Rattle.schedule_world.specs.Runs.{HasEnded, HasRun, IsAnswer, IsEachPlaced, IsHeaderTold, fault_at, from_present, history_alone, numbered_led};
ghost use Rattle.schedule_world.specs.declared.run.RunFault.TheVariants.{Bad};

use crate::{LineFault, World};
use letters::Letters;
use line_text::{BadLine, INPUT_LIMIT, LINE_LIMIT, Lines, Reason, line_text};
use mini_store::Store;
use place_model::History;
use std::alloc::Global;

/// Why a schedule gave no history.
#[derive(Clone, Copy, Debug, PartialEq, Eq, Drop)]
pub enum RunFault {
    /// The first bad line, and the first reason that holds of it.
    Bad(BadLine),
    /// The history was at a limit and was to grow: how many entries it had, and what they cost in bytes.
    Full { entries: u64, bytes: u64 },
    /// There was no memory.
    Memory,
}

/// What a schedule's run leaves: its history, the store after it, and what is known of texts of the history.
#[derive(Drop)]
pub struct ScheduleRun {
    /// The history.
    pub history: History,
    /// The store that the history leaves.
    pub store: Store,
    /// What texts of the history spell.
    pub letters: Letters,
}

/// The history that a schedule determines: it is sound, after each of its prefixes each message that was accepted and is
/// single is in exactly one place, and of its stops, returns, passes and envelopes holds what follows. Of one that is longer than 67,108,864 bytes no more is read than one byte
/// past that limit; the line that holds this byte is too long.
///
/// # Errors
/// `Bad` with the first bad line; `Full` where a history of 1,000,000 entries, or of costs of 2^30 bytes, was to grow;
/// `Memory` is want of memory.
pub fn run_schedule(alloc: Global, bytes: &[u8]) -> Result<History, RunFault>
    ensures answer { IsAnswer bytes.now result }
    ensures sound { IfOk result (λ h. IsSound plain_setting (history_of h)) }
    ensures placed { IfOk result (λ h. IsEachPlaced (history_of h)) }
    ensures stops { IfOk result (λ h. StopsMoveOne (history_of h)) }
    ensures whole_returns { IfOk result (λ h. ReturnsAreWhole (history_of h)) }
    ensures passes { IfOk result (λ h. PassesAccount (history_of h)) }
    ensures published { IfOk result (λ h. MessagesWerePublished (history_of h)) }
    ensures once { IfOk result (λ h. MessagesPublishedOnce (history_of h)) }
    ensures trees { IfOk result (λ h. MessagesHaveOneTree (history_of h)) }
{
    match run_whole(alloc, bytes) {
        Ok(ran) => Ok(ran.history),
        Err(fault) => Err(fault),
    }
}

/// The same, with the store that the history leaves, and what is known of its texts.
///
/// # Errors
/// As `run_schedule`.
pub fn run_whole(alloc: Global, bytes: &[u8]) -> Result<ScheduleRun, RunFault>
    ensures answer { IsAnswer bytes.now (history_alone result) }
    ensures sound { IfOk result (λ ran. IsSound plain_setting (history_of ran.history)) }
    ensures placed { IfOk result (λ ran. IsEachPlaced (history_of ran.history)) }
    ensures stops { IfOk result (λ ran. StopsMoveOne (history_of ran.history)) }
    ensures whole_returns { IfOk result (λ ran. ReturnsAreWhole (history_of ran.history)) }
    ensures passes { IfOk result (λ ran. PassesAccount (history_of ran.history)) }
    ensures published { IfOk result (λ ran. MessagesWerePublished (history_of ran.history)) }
    ensures once { IfOk result (λ ran. MessagesPublishedOnce (history_of ran.history)) }
    ensures trees { IfOk result (λ ran. MessagesHaveOneTree (history_of ran.history)) }
    ensures store { IfOk result (λ ran. ran.store.state ≡ (after (history_of ran.history)).store) }
{
    let is_cut = INPUT_LIMIT < bytes.len();
    let text = if is_cut {
        &bytes[..INPUT_LIMIT + 1]
    } else {
        bytes
    };
    text_run(alloc, is_cut, text)
}

/// The lines of a text, the header first.
fn text_run(alloc: Global, is_cut: bool, text: &[u8]) -> Result<ScheduleRun, RunFault>
    ensures { HasRun (header_on program_craft is_cut (lines_of text.now)) result }
{
    let mut world = World::new(alloc);
    match text_taken(alloc, &mut world, is_cut, text) {
        Ok(()) => Ok(world.into_ran()),
        Err(fault) => Err(fault),
    }
}

/// The lines of a text, the header first, taken by a world before its first line.
fn text_taken(alloc: Global, world: &mut World, is_cut: bool, text: &[u8]) -> Result<(), RunFault>
    requires { desk_of world.old ≡ first_desk }
    ensures { HasEnded (header_on program_craft is_cut (lines_of text.now)) (desk_of world.new) result }
{
    let mut lines = Lines::new(text);
    let Some((_, header)) = lines.next() else {
        return Err(bad(1, Reason::Header));
    };
    let first = lines.next();
    if let Some(reason) = header_fault(is_cut && first.is_none(), header) {
        return Err(bad(1, reason));
    }
    lines_run(alloc, world, is_cut, first, lines)
}

/// Why a line is bad.
fn bad(line: u64, reason: Reason) -> RunFault
    ensures { result ≡ Bad (record { line = line; reason = reason }) }
{
    RunFault::Bad(BadLine { line, reason })
}

/// Why a header is none, where the input may be cut off amid it.
fn header_fault(is_cut: bool, line: &[u8]) -> Option<Reason>
    ensures { IsHeaderTold (last_led is_cut (header_led line.now (text_fault 65536 line.now))) result }
{
    if is_cut {
        return Some(Reason::Long);
    }
    match line_text(LINE_LIMIT, line) {
        Ok(text) if text == "celery-schedule 1" => None,
        Ok(_) => Some(Reason::Header),
        Err(reason) => Some(reason),
    }
}

/// The lines from the first one on, which stands before the others, taken by a world.
fn lines_run<'a>(
    alloc: Global,
    world: &mut World,
    is_cut: bool,
    first: Option<(u64, &'a [u8])>,
    mut lines: Lines<'a>,
) -> Result<(), RunFault>
    ensures { HasEnded (numbered_led program_craft is_cut (desk_of world.old) (from_present first.entry (lines_left lines.entry))) (desk_of world.new) result }
{
    let mut present = first;
    while let Some((number, line)) = present {
        present = lines.next();
        if is_cut && present.is_none() {
            return Err(bad(number, Reason::Long));
        }
        if let Err(fault) = world.line(alloc, line) {
            return Err(run_fault(number, fault));
        }
    }
    Ok(())
}

/// The fault of a line, as one of the schedule.
fn run_fault(line: u64, fault: LineFault) -> RunFault
    ensures { result ≡ fault_at line fault }
{
    match fault {
        LineFault::Bad(reason) => bad(line, reason),
        LineFault::Full { entries, bytes } => RunFault::Full { entries, bytes },
        LineFault::Memory => RunFault::Memory,
    }
}
