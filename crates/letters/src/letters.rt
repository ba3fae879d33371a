//! Texts with what they spell.
ghost use Rattle.letters.specs.Letters.{letter_of};
ghost use Rattle.std.proofs.Props.{props};
ghost use Rattle.std.specs.Prelude.{◌≡◌, Some};

use crate::Letter;
use envelope::{Envelope, write_entry};
use std::alloc::{AllocError, Global};
use std::collections::BTreeMap;
use wire_values::Bytes;

/// How many bytes at its end a text is told by.
const TAIL: usize = 128;

/// A text with what it spells.
#[derive(Debug, Drop)]
struct Note {
    text: Bytes,
    letter: Letter,
    ghost right: { letter_of text ≡ Some letter } by { Prim.hlevel props },
}

/// Texts of envelopes and of entries, each with what it spells.
///
/// Who writes or reads an envelope notes it here; who meets its text, or the text of its entry, later on finds what
/// that spells, and reads no JSON. This is a cache: what it answers is right, and it may have no answer. Of two texts of
/// the same mark the later one is kept, and a text that isn't found is still to be read.
#[derive(Debug, Drop)]
pub struct Letters {
    kept: BTreeMap<u64, Note>,
}

impl Letters {
    ghost use Rattle.std.specs.Prelude.{IfSome, List, Ok, OnOk, ℕ};
    ghost use Rattle.envelope.specs.Entries.{entry_at, entry_for};
    ghost use Rattle.envelope.specs.Envelopes.{envelope_at};
    ghost use Rattle.letters.specs.Known.{Knows, NotesOne, NotesTwo};
    ghost use Rattle.letters.specs.Letters.{entry_letter, envelope_letter};
    ghost use Rattle.letters.specs.declared.letter.Letter.{Letter};
    ghost use Rattle.serde_json.specs.View.{view as data_of};
    ghost use Rattle.serde_json.specs.Written.{compact_text};

    /// No texts; takes no memory.
    pub fn new(alloc: Global) -> Letters
        ensures { (text : List ℕ) (letter : Letter) → Knows result text letter → ⊥ }
    {
        Letters {
            kept: BTreeMap::new(alloc),
        }
    }

    /// What the bytes spell, where they are known. `None` says nothing of them: they weren't noted, or another text of
    /// their mark was noted after them. Takes no memory.
    pub fn known(&self, bytes: &[u8]) -> Option<Letter>
        ensures letter { IfSome result (λ letter. letter_of bytes.now ≡ Some letter) }
        // Only what was noted is known.
        ensures noted { IfSome result (λ letter. Knows self.now bytes.now letter) }
    {
        match self.kept.get(&mark_of(bytes)) {
            Some(note) => note.letter_if(bytes),
            None => None,
        }
    }

    /// Notes an envelope by its compact text, and by the text of its entry.
    pub fn note(&mut self, alloc: Global, e: &Envelope) -> Result<(), AllocError>
        ensures noted { OnOk result (Knows self.new (compact_text (data_of e.now)) (envelope_letter (data_of e.now))) }
        // Beside these two all notes stay as they were, also where memory was wanting.
        ensures kept { NotesTwo self.old self.new }
    {
        let entry = write_entry(alloc, e)?;
        self.add_entry(entry, e)?;
        let text = Bytes::from_slice(alloc, e.text())?;
        self.add(text, e)
    }

    /// Notes an envelope by its text.
    fn add(&mut self, text: Bytes, e: &Envelope) -> Result<(), AllocError>
        requires { envelope_at text ≡ Ok (data_of e.now) }
        ensures noted { OnOk result (Knows self.new text (envelope_letter (data_of e.now))) }
        ensures kept { NotesOne self.old self.new }
    {
        self.put(text, Letter::of_envelope(e))
    }

    /// Notes an envelope by the text of its entry.
    fn add_entry(&mut self, text: Bytes, e: &Envelope) -> Result<(), AllocError>
        requires { entry_at text ≡ Ok (entry_for (data_of e.now)) }
        ensures noted { OnOk result (Knows self.new text (entry_letter (data_of e.now))) }
        ensures kept { NotesOne self.old self.new }
    {
        self.put(text, Letter::of_entry(e))
    }

    /// Notes what a text spells.
    fn put(&mut self, text: Bytes, letter: Letter) -> Result<(), AllocError>
        requires { letter_of text ≡ Some letter }
        ensures noted { OnOk result (Knows self.new text letter) }
        ensures kept { NotesOne self.old self.new }
    {
        let mark = mark_of(text.as_slice());
        let _ = self.kept.insert(mark, Note { text, letter })?;
        Ok(())
    }
}

impl Note {
    ghost use Rattle.std.specs.Prelude.{IfNone, IfSome};

    /// What the bytes spell, where they are this text.
    fn letter_if(&self, bytes: &[u8]) -> Option<Letter>
        ensures letter { IfSome result (λ letter. letter_of bytes.now ≡ Some letter) }
        ensures own { IfSome result (λ letter. (self.now.text ≡ bytes.now) × (self.now.letter ≡ letter)) }
        ensures other { IfNone result (self.now.text ≡ bytes.now → ⊥) }
    {
        if self.text.as_slice() == bytes {
            return Some(self.letter);
        }
        None
    }
}

/// A number that tells most texts apart, by their lengths and their ends, where envelopes have their tags.
fn mark_of(bytes: &[u8]) -> u64 {
    let tail = &bytes[bytes.len().saturating_sub(TAIL)..];
    let mut mark = bytes.len() as u64;
    for byte in tail {
        mark = (mark ^ u64::from(*byte)).wrapping_mul(0x0100_0000_01b3);
    }
    mark
}
