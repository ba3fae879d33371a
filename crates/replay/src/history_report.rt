//! The report of a history.
ghost use Rattle.std.specs.Prelude.{◌≡◌, IfOk};
ghost use Rattle.place_model.specs.Histories.{after};
ghost use Rattle.place_model.specs.Shown.{history_of};
ghost use Rattle.schedule_model.specs.Programs.{program_legend};
ghost use Rattle.schedule_model.specs.Reports.{report_text, total_line};
ghost use Rattle.command_blocks.specs.EnvelopeTexts.{plain_setting};
ghost use Rattle.place_model.specs.Accepted.{places};

use crate::legend::Lettered;
use crate::place_text::total_line;
use crate::report_lines::report_of;
use letters::Letters;
use mini_store::Store;
use place_index::{places_beside, store_after};
use place_model::History;
use schedule_world::ScheduleRun;
use std::alloc::{AllocError, Global};
use wire_values::Bytes;

/// The report of a history: its entries, where its messages are, and how many there are in each place.
pub fn report(alloc: Global, history: &History) -> Result<Bytes, AllocError>
    ensures { IfOk result (λ text. text ≡ report_text program_legend (history_of history.now)) }
{
    let store = store_after(alloc, history)?;
    report_beside(alloc, Letters::new(alloc), history, store)
}

/// The report of the history that a schedule's run leaves, beside its store and what is known of its texts.
pub fn report_ran(alloc: Global, ran: ScheduleRun) -> Result<Bytes, AllocError>
    requires { ran.store.state ≡ (after (history_of ran.history)).store }
    ensures { IfOk result (λ text. text ≡ report_text program_legend (history_of ran.history)) }
{
    let ScheduleRun {
        history,
        store,
        letters,
    } = ran;
    report_beside(alloc, letters, &history, store)
}

/// The line of how many messages there are in each place after the history that a schedule's run leaves.
pub fn totals_ran(alloc: Global, ran: ScheduleRun) -> Result<Bytes, AllocError>
    requires { ran.store.state ≡ (after (history_of ran.history)).store }
    ensures { IfOk result (λ text. text ≡ total_line (places plain_setting (history_of ran.history))) }
{
    let ScheduleRun {
        history,
        store,
        letters,
    } = ran;
    totals_beside(alloc, letters, &history, store)
}

/// The same, of a history that leaves this store, beside what is known of its texts.
fn totals_beside(
    alloc: Global,
    mut letters: Letters,
    history: &History,
    store: Store,
) -> Result<Bytes, AllocError>
    requires { store.state ≡ (after (history_of history.now)).store }
    ensures { IfOk result (λ text. text ≡ total_line (places plain_setting (history_of history.now))) }
{
    let tags = places_beside(alloc, &mut letters, history, store)?;
    let mut out = Vec::new(alloc);
    total_line(alloc, &mut out, tags.as_slice())?;
    Ok(Bytes::from_vec(out))
}

/// The report of a history that leaves this store, beside what is known of its texts.
fn report_beside(
    alloc: Global,
    mut letters: Letters,
    history: &History,
    store: Store,
) -> Result<Bytes, AllocError>
    requires { store.state ≡ (after (history_of history.now)).store }
    ensures { IfOk result (λ text. text ≡ report_text program_legend (history_of history.now)) }
{
    let tags = places_beside(alloc, &mut letters, history, store)?;
    report_of(
        alloc,
        &Lettered::new(&letters),
        history.entries(),
        tags.as_slice(),
    )
}
