//! Places and numbers as a report has them.
use envelope::Tag;
use line_text::tag_in;
use place_model::Place;
use std::alloc::{AllocError, Global};
use std::process::Abort;

/// The tag that a word spells.
pub fn tag_of<R: Abort>(rt: &R, word: &str) -> Tag {
    let (seed, counter) = tag_in(word).expect(rt, "a tag");
    Tag::of(seed, counter)
}

/// Each message with its place, and a `;` between them.
pub fn places_text(alloc: Global, found: &[(Tag, Place)]) -> Result<String, AllocError> {
    let mut out = String::new(alloc);
    for (tag, place) in found {
        if !out.is_empty() {
            out.push_str(" ; ")?;
        }
        push_place(alloc, &mut out, *tag, place)?;
    }
    Ok(out)
}

/// Appends a message with its place.
fn push_place(alloc: Global, out: &mut String, tag: Tag, place: &Place) -> Result<(), AllocError> {
    let seed = tag.seed();
    let counter = tag.counter();
    let head = format!(in alloc; "{seed}:{counter} ")?;
    out.push_str(head.as_str())?;
    let shown = place_text(alloc, place)?;
    out.push_str(shown.as_str())
}

/// How many of the places are of each kind.
pub fn total_text(alloc: Global, found: &[(Tag, Place)]) -> Result<String, AllocError> {
    let lists = count_of(found, "list");
    let unacked = count_of(found, "unacked");
    let hands = count_of(found, "hand");
    let ended = count_of(found, "ended");
    let lost = count_of(found, "lost");
    let copies = count_of(found, "copies");
    format!(in alloc;
        "list {lists} unacked {unacked} hand {hands} ended {ended} lost {lost} copies {copies}"
    )
}

/// How many of the places are of a kind.
fn count_of(found: &[(Tag, Place)], kind: &str) -> u64 {
    let mut count = 0u64;
    for (_, place) in found {
        if kind_of(place) == kind {
            count = count.wrapping_add(1);
        }
    }
    count
}

/// The word of a kind of place.
fn kind_of(place: &Place) -> &'static str {
    match place {
        Place::List { .. } => "list",
        Place::Unacked => "unacked",
        Place::Hand(_) => "hand",
        Place::Ended => "ended",
        Place::Lost(_) => "lost",
        Place::Copies => "copies",
        Place::Never => "never",
    }
}

/// A place.
pub fn place_text(alloc: Global, place: &Place) -> Result<String, AllocError> {
    let kind = kind_of(place);
    match place {
        Place::List { queue, step } => {
            let name = str::from_utf8(queue.as_slice()).unwrap_or("no text");
            format!(in alloc; "{kind} {name} {step}")
        }
        Place::Hand(conn) | Place::Lost(conn) => format!(in alloc; "{kind} {conn}"),
        Place::Unacked | Place::Ended | Place::Copies | Place::Never => {
            String::from_str(alloc, kind)
        }
    }
}
