//! What the answers to HGET and SMEMBERS bring.
ghost use Rattle.std.specs.Prelude.{◌≡◌, ◌≤◌, IfOk, Ok, length, true};
ghost use Rattle.serde_json.specs.View.{view as data_of};
ghost use Rattle.envelope.specs.Entries.{entry_at};
ghost use Rattle.envelope.specs.Envelopes.{parts_in, priority_of};
ghost use Rattle.envelope.specs.ShownEntry.{entry_view};
ghost use Rattle.envelope_trees.specs.Marks.{marked};
ghost use Rattle.delivery_tags.specs.Tags.{tag_text};
ghost use Rattle.queue_keys.specs.Names.{Bytes as Text, same};
ghost use Rattle.command_blocks.specs.Scripts.{Script, on_entry, on_texts, leave_script};
ghost use Rattle.returns.specs.Returns.{AnswerTells, GoesOn};
ghost use Rattle.returns.specs.Spots.{IsCarried, carried_keys, entry_left, sent_left, tried_left};

use crate::carried::{Carried, Keys};
use crate::returned::Returned;
use crate::spot::{Aim, Point, Spot, Unmoved};
use crate::trying::Trying;
use block_core::Progress;
use block_words::{bulk, is_null_bulk, texts};
use envelope::{Envelope, EnvelopeFault, Tag, UnackedEntry, read_entry, redelivered};
use lookups::route_keys;
use queue_keys::{are_same, step_of};
use std::alloc::{AllocError, Global};
use wire_values::{Bytes, Value};

/// What the answer to HGET brings.
pub(crate) fn read(
    alloc: Global,
    aim: Aim,
    answer: &Value,
) -> Result<Progress<Trying, Returned>, AllocError>
    ensures left { IfOk result (λ p. (ended stuck : Script) → tried_left ended stuck p
        ≡ on_entry (leave_script ended) (λ u. entry_left ended stuck aim u) answer.now) }
    ensures tells { IfOk result (λ p. AnswerTells aim answer.now p) }
{
    if is_null_bulk(answer) {
        return Ok(aim.leaves(Unmoved::Gone));
    }
    match bulk(answer) {
        Some(entry) => found(alloc, aim, entry),
        None => Ok(Progress::Refused),
    }
}

/// What an entry of the table brings.
fn found(alloc: Global, aim: Aim, entry: &[u8]) -> Result<Progress<Trying, Returned>, AllocError>
    ensures left { IfOk result (λ p. (ended stuck : Script) → tried_left ended stuck p
        ≡ entry_left ended stuck aim entry.now) }
    ensures goes { IfOk result (λ p. GoesOn aim p) }
{
    match read_entry(alloc, entry) {
        Ok(entry) => carried(alloc, aim, &entry),
        Err(EnvelopeFault::Memory) => Err(AllocError),
        Err(_) => Ok(aim.leaves(Unmoved::Stayed)),
    }
}

/// What an entry brings that was read.
fn carried(
    alloc: Global,
    aim: Aim,
    entry: &UnackedEntry,
) -> Result<Progress<Trying, Returned>, AllocError>
    requires named { length entry.now.exchange ≤ 255 }
    ensures left { IfOk result (λ p. (ended stuck : Script) (u : Text)
        → entry_at u ≡ Ok (entry_view entry.now)
        → tried_left ended stuck p ≡ entry_left ended stuck aim u) }
    ensures goes { IfOk result (λ p. GoesOn aim p) }
{
    let envelope = redelivered(alloc, &entry.envelope)?;
    sent(alloc, aim, entry, &envelope)
}

/// What an entry brings, with its envelope as it is redelivered.
fn sent(
    alloc: Global,
    aim: Aim,
    entry: &UnackedEntry,
    envelope: &Envelope,
) -> Result<Progress<Trying, Returned>, AllocError>
    requires named { length entry.now.exchange ≤ 255 }
    requires marked { data_of envelope.now ≡ marked (data_of entry.now.envelope) }
    requires priority { priority_of (data_of envelope.now) ≡ priority_of (data_of entry.now.envelope) }
    ensures left { IfOk result (λ p. (ended stuck : Script) (u : Text)
        → entry_at u ≡ Ok (entry_view entry.now)
        → tried_left ended stuck p ≡ entry_left ended stuck aim u) }
    ensures goes { IfOk result (λ p. GoesOn aim p) }
{
    // The text is read again as the same envelope.
    let _text = envelope.text();
    if is_of(envelope, aim.tag) {
        return own(alloc, aim, entry, envelope);
    }
    Ok(aim.leaves(Unmoved::Stayed))
}

/// What an entry of this tag brings.
fn own(
    alloc: Global,
    aim: Aim,
    entry: &UnackedEntry,
    envelope: &Envelope,
) -> Result<Progress<Trying, Returned>, AllocError>
    requires named { length entry.now.exchange ≤ 255 }
    requires marked { data_of envelope.now ≡ marked (data_of entry.now.envelope) }
    requires priority { priority_of (data_of envelope.now) ≡ priority_of (data_of entry.now.envelope) }
    requires own { same (tag_text (parts_in (data_of envelope.now)).tag) (tag_text aim.tag.0) ≡ true }
    ensures left { IfOk result (λ p. (ended stuck : Script) (u : Text)
        → entry_at u ≡ Ok (entry_view entry.now)
        → tried_left ended stuck p ≡ entry_left ended stuck aim u) }
    ensures goes { IfOk result (λ p. GoesOn aim p) }
{
    let _text = envelope.text();
    let carried = Carried::of(alloc, entry, envelope)?;
    if carried.exchange.is_empty() {
        return looked_up(alloc, aim, Box::new(alloc, carried)?, &[]);
    }
    Ok(aim.at(Spot::Ask(Box::new(alloc, carried)?)))
}

/// Whether an envelope has this tag.
fn is_of(envelope: &Envelope, tag: Tag) -> bool
    ensures { result ≡ same (tag_text (parts_in (data_of envelope.now)).tag) (tag_text tag.0) }
{
    are_same(envelope.tag().text().as_slice(), tag.text().as_slice())
}

/// What the answer to SMEMBERS brings.
pub(crate) fn asked(
    alloc: Global,
    aim: Aim,
    carried: Box<Carried>,
    answer: &Value,
) -> Result<Progress<Trying, Returned>, AllocError>
    ensures left { IfOk result (λ p. (ended stuck : Script) → tried_left ended stuck p
        ≡ on_texts (λ ms. sent_left ended stuck aim carried.value ms) answer.now) }
    ensures tells { IfOk result (λ p. AnswerTells aim answer.now p) }
{
    match texts(alloc, answer)? {
        Some(members) => looked_up(alloc, aim, carried, members.as_slice()),
        None => Ok(Progress::Refused),
    }
}

/// What the members of the exchange's bindings bring.
fn looked_up(
    alloc: Global,
    aim: Aim,
    carried: Box<Carried>,
    members: &[Bytes],
) -> Result<Progress<Trying, Returned>, AllocError>
    ensures left { IfOk result (λ p. (ended stuck : Script) → tried_left ended stuck p
        ≡ sent_left ended stuck aim carried.value members.now) }
    ensures goes { IfOk result (λ p. GoesOn aim p) }
{
    let keys = carried.keys(alloc, members)?;
    if keys.words.as_slice().is_empty() {
        return Ok(aim.leaves(Unmoved::Stayed));
    }
    Ok(aim.at(Spot::Take(carried, keys, Point::Begin)))
}

impl Carried {
    /// What an entry carries whose redelivered envelope this is.
    pub(crate) fn of(
        alloc: Global,
        entry: &UnackedEntry,
        redelivered: &Envelope,
    ) -> Result<Carried, AllocError>
        requires named { length entry.now.exchange ≤ 255 }
        ensures { IfOk result (λ made. IsCarried made (data_of redelivered.now) (entry_view entry.now)) }
    {
        Ok(Carried {
            text: Bytes::from_slice(alloc, redelivered.text())?,
            exchange: entry.exchange.copy(alloc)?,
            routing_key: entry.routing_key.copy(alloc)?,
            priority: redelivered.priority(),
        })
    }

    /// The keys to which it returns, by the members of its exchange's bindings.
    pub(crate) fn keys(&self, alloc: Global, members: &[Bytes]) -> Result<Keys, AllocError>
        ensures { IfOk result (λ keys. keys.words ≡ carried_keys self.now members.now) }
    {
        let words = route_keys(
            alloc,
            step_of(self.priority),
            self.exchange.as_slice(),
            self.routing_key.as_slice(),
            members,
        )?;
        Ok(Keys { words })
    }
}
