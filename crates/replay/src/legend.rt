//! The words that a report shows by what they spell: envelopes, entries of the unacked table, and tags.
ghost use Rattle.std.specs.Prelude.{◌≡◌, IfOk, Some, option_map};
ghost use Rattle.std.specs.Result.{result_ok};
ghost use Rattle.serde_json.specs.View.{view as data_of};
ghost use Rattle.envelope.specs.Entries.{entry_at};
ghost use Rattle.envelope.specs.Envelopes.{envelope_at};
ghost use Rattle.delivery_tags.specs.Tags.{tag_of_text};
ghost use Rattle.letters.specs.Letters.{letter_of};
ghost use Rattle.queue_keys.specs.Names.{Bytes as Text};
ghost use Rattle.schedule_model.specs.Shapes.{entry_or_tag, entry_shape, envelope_shape, shape_of, tag_shape};
ghost use Rattle.replay.specs.Openings.{is_blank, may_open};

use envelope::{Envelope, EnvelopeFault, Tag, read, read_entry};
use letters::{Letter, Letters};
use line_text::{Legend, Shape};
use std::alloc::{AllocError, Global};

/// What Celery's clients write: the envelope of a message, an entry of the unacked table, a delivery tag.
#[derive(Clone, Copy, Debug, Drop)]
pub struct Celery;

impl Legend for Celery {
    ghost use Rattle.schedule_model.specs.Shapes.{shape_of as spelled};

    ghost shape = { λ _. spelled };

    fn shape(&self, alloc: Global, bytes: &[u8]) -> Result<Shape, AllocError> {
        shape_of(alloc, bytes)
    }
}

/// The same, beside texts that are known: these aren't read.
#[derive(Clone, Copy, Drop)]
pub struct Lettered<'a> {
    letters: &'a Letters,
}

impl<'a> Lettered<'a> {
    /// Beside these texts.
    pub fn new(letters: &'a Letters) -> Lettered<'a> {
        Lettered { letters }
    }
}

impl Legend for Lettered<'_> {
    ghost use Rattle.schedule_model.specs.Shapes.{shape_of as spelled};

    ghost shape = { λ _. spelled };

    fn shape(&self, alloc: Global, bytes: &[u8]) -> Result<Shape, AllocError> {
        shape_beside(alloc, self.letters, bytes)
    }
}

/// What the bytes spell, beside texts that are known.
fn shape_beside(alloc: Global, letters: &Letters, bytes: &[u8]) -> Result<Shape, AllocError>
    ensures { IfOk result (λ shape. shape ≡ shape_of bytes.now) }
{
    if may_open(true, bytes) || may_open(false, bytes) {
        if let Some(letter) = letters.known(bytes) {
            return Ok(letter_shape(letter));
        }
    }
    shape_of(alloc, bytes)
}

/// The shape of what a known text spells.
fn letter_shape(letter: Letter) -> Shape
    ensures { (b : Text) → letter_of b ≡ Some letter → result ≡ shape_of b }
{
    match letter {
        Letter::Envelope { number, marked } => {
            let tag = Tag(number);
            Shape::Envelope {
                seed: tag.seed(),
                counter: tag.counter(),
                marked,
            }
        }
        Letter::Entry { number, marked } => {
            let tag = Tag(number);
            Shape::Entry {
                seed: tag.seed(),
                counter: tag.counter(),
                marked,
            }
        }
    }
}

/// What the bytes spell: an envelope, or else an entry, or else a tag.
fn shape_of(alloc: Global, bytes: &[u8]) -> Result<Shape, AllocError>
    ensures { IfOk result (λ shape. shape ≡ shape_of bytes.now) }
{
    match envelope_in(alloc, bytes)? {
        Some(shape) => Ok(shape),
        None => entry_or_tag(alloc, bytes),
    }
}

/// What bytes spell that are no envelope: an entry, or else a tag.
fn entry_or_tag(alloc: Global, bytes: &[u8]) -> Result<Shape, AllocError>
    ensures { IfOk result (λ shape. shape
        ≡ entry_or_tag (entry_at bytes.now) (tag_of_text bytes.now)) }
{
    match entry_in(alloc, bytes)? {
        Some(shape) => Ok(shape),
        None => Ok(tag_in(bytes)),
    }
}

/// The shape of an envelope, if the bytes are one.
fn envelope_in(alloc: Global, bytes: &[u8]) -> Result<Option<Shape>, AllocError>
    ensures { IfOk result (λ found. found
        ≡ option_map envelope_shape (result_ok (envelope_at bytes.now))) }
{
    if !may_open(true, bytes) {
        return Ok(None);
    }
    match read(alloc, bytes) {
        Ok(envelope) => Ok(Some(envelope_shape(&envelope))),
        Err(EnvelopeFault::Memory) => Err(AllocError),
        Err(_) => Ok(None),
    }
}

/// The shape of an entry, if the bytes are one.
fn entry_in(alloc: Global, bytes: &[u8]) -> Result<Option<Shape>, AllocError>
    ensures { IfOk result (λ found. found
        ≡ option_map (λ e. entry_shape e.tree) (result_ok (entry_at bytes.now))) }
{
    if !may_open(false, bytes) {
        return Ok(None);
    }
    match read_entry(alloc, bytes) {
        Ok(entry) => Ok(Some(entry_shape(&entry.envelope))),
        Err(EnvelopeFault::Memory) => Err(AllocError),
        Err(_) => Ok(None),
    }
}

/// The shape of a tag's text, or of what is none.
fn tag_in(bytes: &[u8]) -> Shape
    ensures { result ≡ tag_shape (tag_of_text bytes.now) }
{
    match Tag::read(bytes) {
        Some(tag) => Shape::Tag {
            seed: tag.seed(),
            counter: tag.counter(),
        },
        None => Shape::Other,
    }
}

/// The shape of an envelope.
fn envelope_shape(envelope: &Envelope) -> Shape
    ensures { result ≡ envelope_shape (data_of envelope.now) }
{
    let tag = envelope.tag();
    let marked = envelope.marked();
    Shape::Envelope {
        seed: tag.seed(),
        counter: tag.counter(),
        marked,
    }
}

/// The shape of an entry, by its envelope.
fn entry_shape(envelope: &Envelope) -> Shape
    ensures { result ≡ entry_shape (data_of envelope.now) }
{
    let tag = envelope.tag();
    Shape::Entry {
        seed: tag.seed(),
        counter: tag.counter(),
        marked: envelope.marked(),
    }
}

/// Whether the bytes may be a JSON text of an object, or else of an array: they begin with its bracket or a blank. So
/// most words are told without reading JSON.
fn may_open(object: bool, bytes: &[u8]) -> bool
    ensures { result ≡ may_open object bytes.now }
{
    let bracket = if object { b'{' } else { b'[' };
    match bytes {
        [] => false,
        [first, ..] => *first == bracket || is_blank(*first),
    }
}

/// Whether a byte is a blank of JSON.
fn is_blank(b: u8) -> bool
    ensures { result ≡ is_blank b }
{
    b == b' ' || b == b'\t' || b == b'\n' || b == b'\r'
}
