//! The lines of a history's entries, in a report.
//!
//! Each call appends to a vector. Where memory ends amid a text, a part of it may have been appended.
ghost use Rattle.std.specs.Prelude.{◌≡◌, [], ◌∷◌, ◌++◌, OnOk, codes, decimal, map};
ghost use Rattle.std.specs.List.{flat_map};
ghost use Rattle.line_text.specs.Short.{short_value, short_word};
ghost use Rattle.command_blocks.specs.Setting.{Setting};
ghost use Rattle.place_model.specs.declared.history.Entry.TheVariants.{Call};
ghost use Rattle.schedule_model.specs.Legends.{legend_of};
ghost use Rattle.schedule_model.specs.Reports.{entry_line, entry_lines, line, note_words, reply_text};

use crate::note_text::note;
use line_text::{Legend, short_value, short_word};
use place_model::{Entry, Heard};
use std::alloc::{AllocError, Global};
use store_model::Reply;
use wire_values::{Bytes, Value};

/// Appends the lines of entries, the first of them numbered 1.
pub(crate) fn entry_lines<L: Legend>(
    alloc: Global,
    legend: &L,
    out: &mut Vec<u8>,
    entries: &[Entry<Heard>],
) -> Result<(), AllocError>
    ensures { OnOk result ((σ : Setting) → out.new.items ≡ out.old.items
        ++ entry_lines (legend_of σ (L.shape legend.now)) 1 entries.now) }
{
    for (index, entry) in entries.iter().enumerate() {
        entry_line(alloc, legend, out, index as u64 + 1, entry)?;
    }
    Ok(())
}

/// Appends the line of an entry: its number, the moment of a call or a dash, the client, and what was called and
/// answered, noted, or `STOP`.
pub(crate) fn entry_line<L: Legend>(
    alloc: Global,
    legend: &L,
    out: &mut Vec<u8>,
    number: u64,
    entry: &Entry<Heard>,
) -> Result<(), AllocError>
    ensures { OnOk result ((σ : Setting) → out.new.items ≡ out.old.items
        ++ entry_line (legend_of σ (L.shape legend.now)) number entry.now) }
{
    match entry {
        Entry::Call {
            conn,
            at,
            words,
            reply,
        } => {
            let moment = *at;
            call_line(
                alloc,
                legend,
                out,
                number,
                moment,
                *conn,
                words.as_slice(),
                reply,
            )?;
            Ok(())
        }
        Entry::Heard { conn, heard } => {
            let head = format!(in alloc; "{number} - {conn}")?;
            out.extend_from_slice(head.as_bytes())?;
            note(alloc, out, heard)?;
            out.push(b'\n')?;
            Ok(())
        }
        Entry::Stop { conn } => {
            let text = format!(in alloc; "{number} - {conn} STOP\n")?;
            out.extend_from_slice(text.as_bytes())?;
            Ok(())
        }
    }
}

/// Appends the line of a call.
fn call_line<L: Legend>(
    alloc: Global,
    legend: &L,
    out: &mut Vec<u8>,
    number: u64,
    at: u64,
    conn: u32,
    words: &[Bytes],
    reply: &Reply,
) -> Result<(), AllocError>
    ensures { OnOk result ((σ : Setting) → out.new.items ≡ out.old.items
        ++ entry_line (legend_of σ (L.shape legend.now)) number (Call conn at words.now reply.now)) }
{
    head(alloc, out, number, at, conn)?;
    called(alloc, legend, out, words, reply)?;
    Ok(())
}

/// Appends what stands before the words of a call: its number, its moment and its client.
fn head(alloc: Global, out: &mut Vec<u8>, number: u64, at: u64, conn: u32) -> Result<(), AllocError>
    ensures { OnOk result (out.new.items ≡ out.old.items
        ++ (decimal number ++ 32 ∷ (decimal at ++ 32 ∷ decimal conn))) }
{
    let text = format!(in alloc; "{number} {at} {conn}")?;
    out.extend_from_slice(text.as_bytes())?;
    Ok(())
}

/// Appends the words of a call, each behind a space, its reply behind an equality sign, and a line feed.
fn called<L: Legend>(
    alloc: Global,
    legend: &L,
    out: &mut Vec<u8>,
    words: &[Bytes],
    reply: &Reply,
) -> Result<(), AllocError>
    ensures { OnOk result ((σ : Setting) → out.new.items ≡ out.old.items
        ++ (flat_map (λ word. codes " " ++ word)
        (map (short_word (L.shape legend.now)) words.now ++ codes "="
        ∷ reply_text (legend_of σ (L.shape legend.now)) reply.now ∷ []) ++ 10 ∷ [])) }
{
    spaced_words(alloc, legend, out, words)?;
    out.extend_from_slice(b" = ")?;
    reply_text(alloc, legend, out, reply)?;
    out.push(b'\n')?;
    Ok(())
}

/// Appends words in short form, each behind a space.
fn spaced_words<L: Legend>(
    alloc: Global,
    legend: &L,
    out: &mut Vec<u8>,
    words: &[Bytes],
) -> Result<(), AllocError>
    ensures { OnOk result (out.new.items ≡ out.old.items
        ++ flat_map (λ word. codes " " ++ short_word (L.shape legend.now) word) words.now) }
{
    for word in words {
        out.push(b' ')?;
        short_word(alloc, legend, out, word.as_slice())?;
    }
    Ok(())
}

/// Appends a reply: the values that were pushed and the answer, with a semicolon between.
fn reply_text<L: Legend>(
    alloc: Global,
    legend: &L,
    out: &mut Vec<u8>,
    reply: &Reply,
) -> Result<(), AllocError>
    ensures { OnOk result ((σ : Setting) → out.new.items ≡ out.old.items
        ++ reply_text (legend_of σ (L.shape legend.now)) reply.now) }
{
    pushed_values(alloc, legend, out, reply.pushed.as_slice())?;
    short_value(alloc, legend, out, &reply.answer)?;
    Ok(())
}

/// Appends values, each with a semicolon after it.
fn pushed_values<L: Legend>(
    alloc: Global,
    legend: &L,
    out: &mut Vec<u8>,
    values: &[Value],
) -> Result<(), AllocError>
    ensures { OnOk result (out.new.items ≡ out.old.items
        ++ flat_map (λ value. short_value (L.shape legend.now) value ++ codes " ; ") values.now) }
{
    for value in values {
        short_value(alloc, legend, out, value)?;
        out.extend_from_slice(b" ; ")?;
    }
    Ok(())
}
