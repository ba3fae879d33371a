//! Made schedules: run, and what they lead to.
ghost use Rattle.std.specs.Prelude.{◌≡◌, ◌++◌, IfOk, codes, decimal};
ghost use Rattle.place_model.specs.Histories.{after};
ghost use Rattle.place_model.specs.Shown.{history_of};
ghost use Rattle.schedule_maker.specs.Made.{made_text};
ghost use Rattle.top_call.specs.Endings.{MadeEnds};
ghost use Rattle.top_call.specs.Replays.{made_lines};

use crate::ending::End;
use crate::node::end_of;
use replay::{ScheduleRun, run_whole, totals_ran};
use schedule_maker::make;
use std::alloc::{AllocError, Global};
use wire_values::Bytes;

/// What the made schedule of so many messages leads to. Its text is run as any other.
pub(crate) fn made_end(alloc: Global, messages: u64) -> End
    ensures { MadeEnds messages result }
{
    match make(alloc, messages) {
        Ok(text) => made_run(alloc, messages, text.as_slice()),
        Err(_) => End::Memory,
    }
}

/// The same, by its text.
fn made_run(alloc: Global, messages: u64, text: &[u8]) -> End
    requires { text.now ≡ made_text messages }
    ensures { MadeEnds messages result }
{
    match run_whole(alloc, text) {
        Ok(ran) => match made_lines(alloc, messages, ran) {
            Ok(lines) => End::Made(lines),
            Err(_) => End::Memory,
        },
        Err(fault) => end_of(fault),
    }
}

/// The lines of a run: the number of messages, how many entries the history has, and how many messages are in each place.
fn made_lines(alloc: Global, messages: u64, ran: ScheduleRun) -> Result<Bytes, AllocError>
    requires { ran.store.state ≡ (after (history_of ran.history)).store }
    ensures { IfOk result (λ text. text ≡ made_lines messages (history_of ran.history)) }
{
    let entries = ran.history.entries().len();
    let totals = totals_ran(alloc, ran)?;
    let mut lines = first_line(alloc, messages, entries)?;
    lines.extend_from_slice(totals.as_slice())?;
    Ok(Bytes::from_vec(lines))
}

/// The first of them.
fn first_line(alloc: Global, messages: u64, entries: usize) -> Result<Vec<u8>, AllocError>
    ensures { IfOk result (λ line. line.items ≡ codes "made " ++ (decimal messages ++ (codes " entries " ++ (decimal entries ++ codes "\n")))) }
{
    let line = format!(in alloc; "made {messages} entries {entries}\n")?;
    Vec::from_slice(alloc, line.as_bytes())
}
