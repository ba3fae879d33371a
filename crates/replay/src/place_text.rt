//! The lines of places and their totals, in a report.
//!
//! Each call appends to a vector. Where memory ends amid a text, a part of it may have been appended.
ghost use Rattle.std.specs.Prelude.{◌≡◌, ◌++◌, ◌/◌, ◌%◌, ◌^◌, OnOk, codes, count_by, decimal};
ghost use Rattle.std.specs.List.{flat_map};
ghost use Rattle.delivery_tags.specs.Tags.{tag_text};
ghost use Rattle.line_text.specs.Short.{tag_short};
ghost use Rattle.command_blocks.specs.Setting.{Setting};
ghost use Rattle.replay.specs.Kinds.{is_of, totals};
ghost use Rattle.place_model.specs.Placed.{all_placed, placed};
ghost use Rattle.schedule_model.specs.Legends.{legend_of};
ghost use Rattle.schedule_model.specs.Reports.{place_line, place_words, total_line};

use envelope::Tag;
use line_text::{Legend, short_word, tag_short};
use place_model::Place;
use std::alloc::{AllocError, Global};

/// A kind of place.
#[derive(Clone, Copy, Debug, PartialEq, Eq, Drop)]
pub(crate) enum PlaceKind {
    Lists,
    Unacked,
    Hands,
    Ended,
    Lost,
    Copies,
}

/// Appends the lines of tags with their places.
pub(crate) fn place_lines<L: Legend>(
    alloc: Global,
    legend: &L,
    out: &mut Vec<u8>,
    places: &[(Tag, Place)],
) -> Result<(), AllocError>
    ensures { OnOk result ((σ : Setting) → out.new.items ≡ out.old.items
        ++ flat_map (λ p. place_line (legend_of σ (L.shape legend.now)) (placed p)) places.now) }
{
    for pair in places {
        place_line(alloc, legend, out, pair.0.0, &pair.1)?;
    }
    Ok(())
}

/// Appends the line of a tag, by its number, with its place.
pub(crate) fn place_line<L: Legend>(
    alloc: Global,
    legend: &L,
    out: &mut Vec<u8>,
    number: u128,
    place: &Place,
) -> Result<(), AllocError>
    ensures { OnOk result ((σ : Setting) → out.new.items ≡ out.old.items
        ++ place_line (legend_of σ (L.shape legend.now)) (tag_text number, place.now)) }
{
    named_tag(alloc, out, number)?;
    place_words(alloc, legend, out, place)?;
    out.push(b'\n')?;
    Ok(())
}

/// Appends the word of a place line and a tag by its seed and counter.
fn named_tag(alloc: Global, out: &mut Vec<u8>, number: u128) -> Result<(), AllocError>
    ensures { OnOk result (out.new.items ≡ out.old.items
        ++ (codes "place " ++ tag_short (number / 2 ^ 64) (number % 2 ^ 64))) }
{
    out.extend_from_slice(b"place ")?;
    let tag = Tag(number);
    tag_short(alloc, out, tag.seed(), tag.counter())
}

/// Appends the words of a place, each behind a space.
fn place_words<L: Legend>(
    alloc: Global,
    legend: &L,
    out: &mut Vec<u8>,
    place: &Place,
) -> Result<(), AllocError>
    ensures { OnOk result ((σ : Setting) → out.new.items ≡ out.old.items
        ++ flat_map (λ word. codes " " ++ word)
        (place_words (legend_of σ (L.shape legend.now)) place.now)) }
{
    match place {
        Place::List { queue, step } => {
            out.extend_from_slice(b" list ")?;
            short_word(alloc, legend, out, queue.as_slice())?;
            let step = format!(in alloc; " {step}")?;
            out.extend_from_slice(step.as_bytes())?;
        }
        Place::Unacked => out.extend_from_slice(b" unacked")?,
        Place::Hand(client) => {
            let words = format!(in alloc; " hand {client}")?;
            out.extend_from_slice(words.as_bytes())?;
        }
        Place::Ended => out.extend_from_slice(b" ended")?,
        Place::Lost(client) => {
            let words = format!(in alloc; " lost {client}")?;
            out.extend_from_slice(words.as_bytes())?;
        }
        Place::Copies => out.extend_from_slice(b" copies")?,
        Place::Never => out.extend_from_slice(b" never")?,
    }
    Ok(())
}

/// Appends how many messages there are in each place.
pub(crate) fn total_line(
    alloc: Global,
    out: &mut Vec<u8>,
    places: &[(Tag, Place)],
) -> Result<(), AllocError>
    ensures { OnOk result (out.new.items
        ≡ out.old.items ++ total_line (all_placed places.now)) }
{
    let lists = total(places, PlaceKind::Lists);
    let unacked = total(places, PlaceKind::Unacked);
    let hands = total(places, PlaceKind::Hands);
    let ended = total(places, PlaceKind::Ended);
    let lost = total(places, PlaceKind::Lost);
    let copies = total(places, PlaceKind::Copies);
    total_text(alloc, out, lists, unacked, hands, ended, lost, copies)?;
    Ok(())
}

/// Appends the line of these totals.
fn total_text(
    alloc: Global,
    out: &mut Vec<u8>,
    lists: usize,
    unacked: usize,
    hands: usize,
    ended: usize,
    lost: usize,
    copies: usize,
) -> Result<(), AllocError>
    ensures { OnOk result (out.new.items ≡ out.old.items
        ++ totals lists unacked hands ended lost copies) }
{
    counted(alloc, out, b"total list ", lists)?;
    counted(alloc, out, b" unacked ", unacked)?;
    counted(alloc, out, b" hand ", hands)?;
    counted(alloc, out, b" ended ", ended)?;
    counted(alloc, out, b" lost ", lost)?;
    counted(alloc, out, b" copies ", copies)?;
    out.push(b'\n')?;
    Ok(())
}

/// Appends a name and a count.
fn counted(alloc: Global, out: &mut Vec<u8>, name: &[u8], count: usize) -> Result<(), AllocError>
    ensures { OnOk result (out.new.items ≡ out.old.items ++ (name.now ++ decimal count)) }
{
    out.extend_from_slice(name)?;
    let count = format!(in alloc; "{count}")?;
    out.extend_from_slice(count.as_bytes())?;
    Ok(())
}

/// How many of the places are of a kind.
fn total(places: &[(Tag, Place)], kind: PlaceKind) -> usize
    ensures { result ≡ count_by (λ p. is_of kind p.1) (all_placed places.now) }
{
    count(places, kind)
}

/// The same, over tags as numbers.
fn count(places: &[(Tag, Place)], kind: PlaceKind) -> usize
    ensures { result ≡ count_by (λ p. is_of kind p.1) places.now }
{
    places.iter().filter(|p| is_of(kind, &p.1)).count()
}

/// Whether a place is of a kind.
fn is_of(kind: PlaceKind, place: &Place) -> bool
    ensures { result ≡ is_of kind place.now }
{
    match kind {
        PlaceKind::Lists => matches!(place, Place::List { .. }),
        PlaceKind::Unacked => matches!(place, Place::Unacked),
        PlaceKind::Hands => matches!(place, Place::Hand(_)),
        PlaceKind::Ended => matches!(place, Place::Ended),
        PlaceKind::Lost => matches!(place, Place::Lost(_)),
        PlaceKind::Copies => matches!(place, Place::Copies),
    }
}
