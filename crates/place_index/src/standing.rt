//! The messages that stand in the lists of queues.
ghost use Rattle.std.specs.Prelude.{◌≡◌, ◌++◌, ℕ, IfOk, OnOk, map as mapped};
ghost use Rattle.std.specs.FinMap.{entries, get};
ghost use Rattle.command_blocks.specs.EnvelopeTexts.{plain_setting};
ghost use Rattle.message_acts.specs.Numbers.{listed, number_told};
ghost use Rattle.place_index.specs.Places.{first_of};
ghost use Rattle.place_index.specs.Standing.{standing_in, told_at, told_under};

use crate::tagged::{Tagged, first_told};
use letters::Letters;
use message_acts::message_of;
use queue_keys::split_key;
use std::alloc::{AllocError, Global};
use store_keys::Keyspace;
use store_model::{Held, Stored};
use store_tables::Deque;
use wire_values::{Bytes, List};

/// A queue and a step.
pub(crate) type Standing = (Bytes, u8);

/// The messages in the lists of queues, each with the queue and the step of the first key that has it.
pub(crate) fn standing(
    alloc: Global,
    letters: &mut Letters,
    keys: &Keyspace,
) -> Result<Tagged<Standing>, AllocError>
    ensures { IfOk result (λ first. (t : ℕ) → get first t ≡ first_of t (standing_in plain_setting (entries keys.now))) }
{
    first_told(alloc, told_by(alloc, letters, keys)?)
}

/// The messages in the lists of queues, with their queues and steps, in the order of the keys.
fn told_by(
    alloc: Global,
    letters: &mut Letters,
    keys: &Keyspace,
) -> Result<List<(u128, Standing)>, AllocError>
    ensures { IfOk result (λ told. told ≡ standing_in plain_setting (entries keys.now)) }
{
    let mut told = List::new();
    for (key, held) in keys.iter() {
        add_under(alloc, letters, &mut told, key, held)?;
    }
    Ok(told)
}

/// Adds the messages under a key, where it is a queue's.
fn add_under(
    alloc: Global,
    letters: &mut Letters,
    told: &mut List<(u128, Standing)>,
    key: &Bytes,
    held: &Held,
) -> Result<(), AllocError>
    ensures { OnOk result (told.new ≡ told.old ++ told_under plain_setting (plain_setting.split key.now) held.now) }
{
    let Some((queue, step)) = split_key(key.as_slice()) else {
        return Ok(());
    };
    match &held.value {
        Stored::Items(items) => add_at(alloc, letters, told, queue, step, items),
        Stored::Text(_) | Stored::Members(_) | Stored::Hash(_) | Stored::Scores(_) => Ok(()),
    }
}

/// Adds the messages of a queue's list.
fn add_at(
    alloc: Global,
    letters: &mut Letters,
    told: &mut List<(u128, Standing)>,
    queue: &[u8],
    step: u8,
    items: &Deque<Bytes>,
) -> Result<(), AllocError>
    ensures { OnOk result (told.new ≡ told.old ++ told_at plain_setting (queue.now, step) items.now) }
{
    for item in items.iter() {
        add_item(alloc, letters, told, queue, step, item)?;
    }
    Ok(())
}

/// Adds the message of a queue's element, where it is one.
fn add_item(
    alloc: Global,
    letters: &mut Letters,
    told: &mut List<(u128, Standing)>,
    queue: &[u8],
    step: u8,
    item: &Bytes,
) -> Result<(), AllocError>
    ensures { OnOk result (told.new ≡ told.old ++ mapped (λ n. (n, (queue.now, step))) (listed (number_told (plain_setting.tag_of item.now)))) }
{
    let number = message_of(alloc, letters, item.as_slice())?;
    if let Some(number) = number {
        let queue = Bytes::from_slice(alloc, queue)?;
        told.push(alloc, (number, (queue, step)))?;
    }
    Ok(())
}
