//! Reports: the text of a history, of its entries and of where its messages are.
ghost use Rattle.std.specs.Prelude.{◌≡◌, IfOk};
ghost use Rattle.place_model.specs.Histories.{History};
ghost use Rattle.command_blocks.specs.Setting.{Setting};
ghost use Rattle.place_model.specs.declared.heard.Heard.{Heard as Noted};
ghost use Rattle.place_model.specs.Placed.{all_placed};
ghost use Rattle.schedule_model.specs.Legends.{legend_of};
ghost use Rattle.place_model.specs.Accepted.{places};
ghost use Rattle.schedule_model.specs.Reports.{report_text};

use crate::entry_text::entry_lines;
use crate::place_text::{place_lines, total_line};
use envelope::Tag;
use line_text::Legend;
use place_model::{Entry, Heard, Place};
use std::alloc::{AllocError, Global};
use wire_values::Bytes;

/// The report of a history of these entries, whose accepted tags have these places in the order of their first push.
pub fn report_of<L: Legend>(
    alloc: Global,
    legend: &L,
    entries: &[Entry<Heard>],
    tags: &[(Tag, Place)],
) -> Result<Bytes, AllocError>
    // Where the tags are those that the history accepted, each with its place.
    ensures { IfOk result (λ text. (σ : Setting) (h : History Noted) → h.entries ≡ entries.now
        → all_placed tags.now ≡ places σ h → text ≡ report_text (legend_of σ (L.shape legend.now)) h) }
{
    let mut out = Vec::from_slice(alloc, b"celery-report 1\n")?;
    entry_lines(alloc, legend, &mut out, entries)?;
    place_lines(alloc, legend, &mut out, tags)?;
    total_line(alloc, &mut out, tags)?;
    Ok(Bytes::from_vec(out))
}
