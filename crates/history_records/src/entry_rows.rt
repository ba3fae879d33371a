//! The lines of entries.
//!
//! Each call appends to a vector. Where memory ends amid a text, a part of it may have been appended.
ghost use Rattle.std.specs.List.{flat_map};
ghost use Rattle.std.specs.Prelude.{◌≡◌, ◌++◌, ◌∷◌, [], OnOk};
ghost use Rattle.history_records.specs.Lines.{call_line, entry_line, pushed_text, reply_text};
ghost use Rattle.place_model.specs.declared.history.Entry.TheVariants.{Heard as Noted, Stop};

use crate::note_rows::note;
use line_text::{quoted_words, value_form};
use place_model::{Entry, Heard};
use std::alloc::{AllocError, Global};
use store_model::Reply;
use wire_values::{Bytes, Value};

/// Appends the lines of entries.
pub(crate) fn entry_rows(
    alloc: Global,
    out: &mut Vec<u8>,
    entries: &[Entry<Heard>],
) -> Result<(), AllocError>
    ensures { OnOk result (out.new.items ≡ out.old.items ++ flat_map (λ e. entry_line e ++ 10 ∷ []) entries.now) }
{
    for entry in entries {
        entry_row(alloc, out, entry)?;
        out.push(b'\n')?;
    }
    Ok(())
}

/// Appends the line of an entry, without its line feed.
fn entry_row(alloc: Global, out: &mut Vec<u8>, entry: &Entry<Heard>) -> Result<(), AllocError>
    ensures { OnOk result (out.new.items ≡ out.old.items ++ entry_line entry.now) }
{
    match entry {
        Entry::Call {
            conn,
            at,
            words,
            reply,
        } => call_row(alloc, out, *conn, *at, words.as_slice(), reply),
        Entry::Heard { conn, heard } => heard_row(alloc, out, *conn, heard),
        Entry::Stop { conn } => stop_row(alloc, out, *conn),
    }
}

/// Appends the line of a note, without its line feed.
fn heard_row(alloc: Global, out: &mut Vec<u8>, conn: u32, heard: &Heard) -> Result<(), AllocError>
    ensures { OnOk result (out.new.items ≡ out.old.items ++ entry_line (Noted conn heard.now)) }
{
    let head = format!(in alloc; "heard {conn} ")?;
    out.extend_from_slice(head.as_bytes())?;
    note(alloc, out, heard)
}

/// Appends the line of a connection that is gone, without its line feed.
fn stop_row(alloc: Global, out: &mut Vec<u8>, conn: u32) -> Result<(), AllocError>
    ensures { OnOk result (out.new.items ≡ out.old.items ++ entry_line (Stop conn)) }
{
    let text = format!(in alloc; "stop {conn}")?;
    out.extend_from_slice(text.as_bytes())?;
    Ok(())
}

/// Appends the line of a call, without its line feed.
fn call_row(
    alloc: Global,
    out: &mut Vec<u8>,
    conn: u32,
    at: u64,
    words: &[Bytes],
    reply: &Reply,
) -> Result<(), AllocError>
    ensures { OnOk result (out.new.items ≡ out.old.items ++ call_line at conn words.now reply.now) }
{
    let head = format!(in alloc; "call {at} {conn} ")?;
    out.extend_from_slice(head.as_bytes())?;
    quoted_words(alloc, out, words)?;
    out.extend_from_slice(b"= ")?;
    reply_form(alloc, out, reply)
}

/// Appends a reply: the values that were pushed and the answer, with a semicolon between.
fn reply_form(alloc: Global, out: &mut Vec<u8>, reply: &Reply) -> Result<(), AllocError>
    ensures { OnOk result (out.new.items ≡ out.old.items ++ reply_text reply.now) }
{
    pushed_forms(alloc, out, reply.pushed.as_slice())?;
    value_form(alloc, out, &reply.answer)
}

/// Appends values, each with a semicolon between spaces after it.
fn pushed_forms(alloc: Global, out: &mut Vec<u8>, values: &[Value]) -> Result<(), AllocError>
    ensures { OnOk result (out.new.items ≡ out.old.items ++ pushed_text values.now) }
{
    for value in values {
        value_form(alloc, out, value)?;
        out.extend_from_slice(b" ; ")?;
    }
    Ok(())
}
