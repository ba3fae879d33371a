//! Answers to the commands of publications and pops.
ghost use Rattle.std.specs.Prelude.{◌≡◌, IfOk, OnOk, option_map};
ghost use Rattle.delivery_tags.specs.Tags.{tag_text};
ghost use Rattle.envelope.specs.Bodies.{tag_of_bytes};
ghost use Rattle.manner_laws.specs.Cursor.{popped_spot};
ghost use Rattle.manner_laws.specs.Spots.{Bindings, Message};
ghost use Rattle.client_answers.specs.Leads.{IsAt, IsLed};

use crate::values::{bulk_texts, is_null_array};
use client_spots::{ClientSpot, Stand};
use command_blocks::answer::pair;
use delivery_tags::Tag;
use manner_texts::read_popped;
use std::alloc::{AllocError, Global};
use wire_values::{Bytes, Value};

/// The bindings of a publication's exchange.
pub(crate) fn bindings(
    spot: &mut ClientSpot,
    alloc: Global,
    answer: &Value,
) -> Result<bool, AllocError>
    ensures { IfOk result (IsLed spot.old (Bindings spot.old.drawn spot.old.passes spot.old.exchange) answer.now spot.new) }
{
    match bulk_texts(alloc, answer)? {
        Some(members) => {
            spot.keys = members;
            spot.stand = Stand::Listed;
            Ok(true)
        }
        None => Ok(false),
    }
}

/// A message, or none.
pub(crate) fn message(
    spot: &mut ClientSpot,
    alloc: Global,
    answer: &Value,
) -> Result<bool, AllocError>
    ensures { IfOk result (IsLed spot.old (Message spot.old.drawn spot.old.passes) answer.now spot.new) }
{
    if is_null_array(answer) {
        spot.stand = Stand::Free;
        return Ok(true);
    }
    match pair(answer) {
        Some((_, element)) => {
            popped(spot, alloc, element)?;
            Ok(true)
        }
        None => Ok(false),
    }
}

/// After a pop that gave this element.
fn popped(spot: &mut ClientSpot, alloc: Global, element: &[u8]) -> Result<(), AllocError>
    ensures { OnOk result (IsAt spot.old (popped_spot spot.old.drawn spot.old.passes element.now (tag_of_bytes element.now)) spot.new) }
{
    match popped_tag(alloc, element)? {
        Some(tag) => {
            spot.envelope = Bytes::from_slice(alloc, element)?;
            spot.tag = Bytes::from_slice(alloc, tag.text().as_slice())?;
            spot.stand = Stand::Popped;
        }
        None => spot.stand = Stand::Free,
    }
    Ok(())
}

/// The tag of an element that is an envelope.
fn popped_tag(alloc: Global, element: &[u8]) -> Result<Option<Tag>, AllocError>
    ensures { IfOk result (λ found. tag_of_bytes element.now ≡ option_map (λ t. tag_text t.0) found) }
{
    match read_popped(alloc, element)? {
        Some(message) => Ok(Some(message.tag)),
        None => Ok(None),
    }
}
