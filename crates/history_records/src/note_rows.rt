//! Notes of clients, as the line of an entry has them.
//!
//! Each call appends to a vector. Where memory ends amid a text, a part of it may have been appended.
ghost use Rattle.std.specs.Prelude.{◌≡◌, ◌++◌, OnOk};
ghost use Rattle.history_records.specs.Lines.{note_text, outcome_text, tag_text};
ghost use Rattle.place_model.specs.declared.heard.Heard.TheVariants.{Expired, Finished, Held, Unreadable};

use delivery_tags::Tag;
use line_text::{quoted, tag_short};
use place_model::{Heard, Outcome};
use std::alloc::{AllocError, Global};

/// Appends a note.
pub(crate) fn note(alloc: Global, out: &mut Vec<u8>, heard: &Heard) -> Result<(), AllocError>
    ensures { OnOk result (out.new.items ≡ out.old.items ++ note_text heard.now) }
{
    match heard {
        Heard::Took(tag) => named(alloc, out, b"TOOK ", *tag),
        Heard::Finished {
            tag,
            outcome: ended,
        } => finished(alloc, out, *tag, ended),
        Heard::Expired { tag, expires, now } => expired(alloc, out, *tag, *expires, *now),
        Heard::Revoked(tag) => named(alloc, out, b"REVOKED ", *tag),
        Heard::Rejected(tag) => named(alloc, out, b"REJECTED ", *tag),
        Heard::Held { tag, eta } => held(alloc, out, *tag, *eta),
        Heard::Unreadable => unreadable(out),
    }
}

/// Appends the note that a task ended.
fn finished(alloc: Global, out: &mut Vec<u8>, tag: Tag, ended: &Outcome) -> Result<(), AllocError>
    ensures { OnOk result (out.new.items ≡ out.old.items ++ note_text (Finished tag ended.now)) }
{
    named(alloc, out, b"FINISHED ", tag)?;
    out.push(b' ')?;
    outcome(alloc, out, ended)
}

/// Appends the note that a task expired: when it was to expire and the moment, in microseconds since 1970.
fn expired(
    alloc: Global,
    out: &mut Vec<u8>,
    tag: Tag,
    expires: i64,
    moment: i64,
) -> Result<(), AllocError>
    ensures { OnOk result (out.new.items ≡ out.old.items ++ note_text (Expired tag expires moment)) }
{
    named(alloc, out, b"EXPIRED ", tag)?;
    let moments = format!(in alloc; " {expires} {moment}")?;
    out.extend_from_slice(moments.as_bytes())?;
    Ok(())
}

/// Appends the note that a task is held until a moment, in microseconds since 1970.
fn held(alloc: Global, out: &mut Vec<u8>, tag: Tag, eta: i64) -> Result<(), AllocError>
    ensures { OnOk result (out.new.items ≡ out.old.items ++ note_text (Held tag eta)) }
{
    named(alloc, out, b"HELD ", tag)?;
    let moment = format!(in alloc; " {eta}")?;
    out.extend_from_slice(moment.as_bytes())?;
    Ok(())
}

/// Appends the note on what is no envelope.
fn unreadable(out: &mut Vec<u8>) -> Result<(), AllocError>
    ensures { OnOk result (out.new.items ≡ out.old.items ++ note_text Unreadable) }
{
    out.extend_from_slice(b"UNREADABLE")?;
    Ok(())
}

/// Appends a text and a tag by its seed and counter.
fn named(alloc: Global, out: &mut Vec<u8>, text: &[u8], tag: Tag) -> Result<(), AllocError>
    ensures { OnOk result (out.new.items ≡ out.old.items ++ (text.now ++ tag_text tag)) }
{
    out.extend_from_slice(text)?;
    tag_short(alloc, out, tag.seed(), tag.counter())
}

/// Appends how a task ended.
fn outcome(alloc: Global, out: &mut Vec<u8>, ended: &Outcome) -> Result<(), AllocError>
    ensures { OnOk result (out.new.items ≡ out.old.items ++ outcome_text ended.now) }
{
    match ended {
        Outcome::Success(text) => {
            out.extend_from_slice(b"success ")?;
            quoted(out, text.as_slice())
        }
        Outcome::Failure(text) => {
            out.extend_from_slice(b"failure ")?;
            quoted(out, text.as_slice())
        }
        Outcome::Retry(seconds) => {
            let text = format!(in alloc; "retry {seconds}")?;
            out.extend_from_slice(text.as_bytes())?;
            Ok(())
        }
    }
}
