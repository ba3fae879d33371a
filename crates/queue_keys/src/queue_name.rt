//! The names of queues.
ghost use Rattle.std.specs.Prelude.{◌≡◌, true, IfOk, IfErr, None, is_none, position, not, ◌||◌};
ghost use Rattle.queue_keys.specs.Names.{has_end, has_front, index_name, is_free, is_name, is_reserved, mutex_name, same, unacked_name};
ghost use Rattle.queue_keys.specs.NameFaults.{name_fault, told_fault};

use std::alloc::{AllocError, Global};
use std::fmt;
use std::marker::Model;
use wire_values::Bytes;

/// The first reason why a text is no queue's name, or want of memory.
#[derive(Clone, Copy, PartialEq, Eq)]
pub enum NameFault {
    /// No bytes.
    Empty,
    /// More than 255 bytes.
    Long,
    /// A byte 06 or 16 (hexadecimal), by the place of the first, counted from 0: these bytes part the texts of a
    /// binding (Kombu's Redis transport).
    Byte(u64),
    /// The name of another key: `unacked`, `unacked_index`, `unacked_mutex`, what begins with `_kombu.binding.` or
    /// `celery-task-meta-`, or ends with `.reply.celery.pidbox`.
    Reserved,
    /// Want of memory.
    Memory,
}

impl fmt::Debug for NameFault {
    fn fmt<W: fmt::Write>(&self, f: &mut fmt::Formatter<W>) -> fmt::Result {
        f.write_str(match self {
            NameFault::Empty => "Empty",
            NameFault::Long => "Long",
            NameFault::Byte(_) => "Byte",
            NameFault::Reserved => "Reserved",
            NameFault::Memory => "Memory",
        })
    }
}

impl From<AllocError> for NameFault {
    ghost use Rattle.std.specs.Prelude.{◌≡◌};
    ghost use Rattle.queue_keys.specs.declared.queue_name.NameFault.TheVariants.{Memory};

    ghost from_gives = { λ _ e. e ≡ Memory };

    fn from(_e: AllocError) -> NameFault {
        NameFault::Memory
    }
}

/// A lawful name of a queue: 1 to 255 bytes, none of them 06 or 16 (hexadecimal), and not that of another key.
#[derive(Debug, Drop)]
pub struct QueueName {
    name: Bytes,
}

impl Model for QueueName {
    ghost use Rattle.std.specs.Prelude.{◌≡◌, List as Listed, ℕ, true};
    ghost use Rattle.queue_keys.specs.Names.{is_name};

    ghost Value = { Listed ℕ };

    ghost view = { λ q. q.name };

    ghost invariant = { λ q. is_name q.name ≡ true };
}

impl QueueName {
    /// The name of these bytes.
    ///
    /// # Errors
    /// The first fault that holds, in the order of `NameFault`; `Memory` is want of memory.
    pub fn new(alloc: Global, bytes: &[u8]) -> Result<QueueName, NameFault>
        ensures ok { IfOk result (λ q. (q ≡ bytes.now) × (name_fault bytes.now ≡ None)) }
        ensures err { IfErr result (λ fault. name_fault bytes.now ≡ told_fault fault) }
        // A text is a lawful name exactly where it has no fault.
        ensures lawful { is_name bytes.now ≡ is_none (name_fault bytes.now) }
    {
        if let Some(fault) = fault_of(bytes) {
            return Err(fault);
        }
        let name = Bytes::from_slice(alloc, bytes)?;
        Ok(QueueName { name })
    }

    /// The bytes of the name.
    pub fn bytes(&self) -> &[u8]
        ensures bytes { result.now ≡ self.now }
        ensures lawful { is_name self.now ≡ true }
    {
        self.name.as_slice()
    }
}

/// The first fault of a text as a name.
#[tactic(auto, unfolding(crate::specs::NameFaults::name_fault))]
fn fault_of(bytes: &[u8]) -> Option<NameFault>
    ensures { result ≡ name_fault bytes.now }
{
    if bytes.len() == 0 {
        return Some(NameFault::Empty);
    }
    if bytes.len() > 255 {
        return Some(NameFault::Long);
    }
    if let Some(place) = parting_place(bytes) {
        return Some(NameFault::Byte(place as u64));
    }
    if is_reserved(bytes) {
        return Some(NameFault::Reserved);
    }
    None
}

/// Where the first byte stands that parts texts.
fn parting_place(bytes: &[u8]) -> Option<usize>
    ensures { result ≡ position (λ b. not (is_free b)) bytes.now }
{
    bytes.iter().position(|byte| *byte == 6 || *byte == 22)
}

/// Whether the bytes are a lawful name of a queue.
pub fn is_name(bytes: &[u8]) -> bool
    ensures { result ≡ is_name bytes.now }
{
    fault_of(bytes).is_none()
}

/// Whether the name is kept for another key.
pub fn is_reserved(name: &[u8]) -> bool
    ensures { result ≡ is_reserved name.now }
{
    if is_table(name) {
        return true;
    }
    if begins(b"_kombu.binding.", name) {
        return true;
    }
    if begins(b"celery-task-meta-", name) {
        return true;
    }
    ends(b".reply.celery.pidbox", name)
}

/// Whether it is the name of the table of messages that aren't acknowledged, of its index or of its mutex.
fn is_table(name: &[u8]) -> bool
    ensures { result ≡ (same unacked_name name.now || same index_name name.now || same mutex_name name.now) }
{
    if are_same(b"unacked", name) {
        return true;
    }
    if are_same(b"unacked_index", name) {
        return true;
    }
    are_same(b"unacked_mutex", name)
}

/// Whether two texts are the same.
#[tactic(auto, unfolding(crate::specs::Names::same))]
pub fn are_same(one: &[u8], other: &[u8]) -> bool
    ensures { result ≡ same one.now other.now }
{
    one == other
}

/// Whether the text begins with the front.
fn begins(front: &[u8], text: &[u8]) -> bool
    ensures { result ≡ has_front front.now text.now }
{
    text.starts_with(front)
}

/// Whether the text ends with the end.
fn ends(end: &[u8], text: &[u8]) -> bool
    ensures { result ≡ has_end end.now text.now }
{
    text.ends_with(end)
}
