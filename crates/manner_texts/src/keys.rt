//! What keys without a prefix were made of.
ghost use Rattle.std.specs.Prelude.{◌≡◌, ◌++◌, ◌&&◌, [], IfOk, MatchOption, None, OnOk, Some, length, nat_le};
ghost use Rattle.queue_keys.specs.Layouts.{plain};
ghost use Rattle.queue_keys.specs.Names.{has_end};
ghost use Rattle.command_blocks.specs.EnvelopeTexts.{plain_setting};
ghost use Rattle.manner_laws.specs.Cursor.{all_names, onto_queues, queues_among, same_words};
ghost use Rattle.manner_laws.specs.LayoutKeys.{exchange_of_key};

use crate::words::same_words;
use lookups::lawful_name;
use queue_keys::{QueueName, pop_keys, split_key};
use std::alloc::{AllocError, Global};
use wire_values::{Bytes, List};

/// The most keys of a pop.
const POP_KEYS: usize = 4_094;

/// The exchange whose bindings have this key.
pub fn exchange_in_key(key: &[u8]) -> Option<&[u8]>
    ensures { MatchOption result (exchange_of_key plain key.now ≡ None) (λ exchange. exchange_of_key plain key.now ≡ Some exchange.now) }
{
    match key.strip_prefix(b"_kombu.binding.".as_slice()) {
        Some(exchange) => Some(exchange),
        None => None,
    }
}

/// Whether it is the key of a list of control replies.
pub fn is_reply_key(key: &[u8]) -> bool
    ensures { result ≡ plain_setting.is_reply key.now }
{
    ends(b".reply.celery.pidbox", key)
}

/// Whether a text ends with the end.
fn ends(end: &[u8], text: &[u8]) -> bool
    ensures { result ≡ has_end end.now text.now }
{
    text.ends_with(end)
}

/// The queues whose keys at step 0 are among the keys.
pub fn queues_among(alloc: Global, keys: &[Bytes]) -> Result<List<QueueName>, AllocError>
    ensures { IfOk result (λ queues. queues ≡ queues_among plain_setting keys.now) }
{
    let mut queues = List::new();
    for key in keys {
        add_queue(alloc, &mut queues, key.as_slice())?;
    }
    Ok(queues)
}

/// Adds the queue of a key at step 0.
fn add_queue(alloc: Global, queues: &mut List<QueueName>, key: &[u8]) -> Result<(), AllocError>
    ensures { OnOk result (queues.new ≡ queues.old ++ onto_queues (plain_setting.split key.now) []) }
{
    match split_key(key) {
        Some((name, 0)) => queues.push(alloc, lawful_name(alloc, name)?),
        Some(_) => Ok(()),
        None => Ok(()),
    }
}

/// Whether the keys are those of a pop over the queues that they tell.
#[tactic(auto, using(crate::proofs::Lists::pop_known))]
pub fn is_pop(alloc: Global, keys: &[Bytes]) -> Result<bool, AllocError>
    ensures { IfOk result (λ it. it ≡ (all_names (queues_among plain_setting keys.now)
        && same_words (plain_setting.pop_keys (queues_among plain_setting keys.now)) keys.now && nat_le (length keys.now) 4094)) }
{
    let queues = queues_among(alloc, keys)?;
    let made = pop_keys(alloc, queues.as_slice())?;
    Ok(are_made(made.as_slice(), keys))
}

/// Whether the keys are these, and as few as a pop may have.
fn are_made(made: &[Bytes], keys: &[Bytes]) -> bool
    ensures { result ≡ (same_words made.now keys.now && nat_le (length keys.now) 4094) }
{
    same_words(made, keys) && keys.len() <= POP_KEYS
}
