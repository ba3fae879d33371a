//! What a text spells.
ghost use Rattle.std.specs.Prelude.{◌≡◌};
ghost use Rattle.serde_json.specs.View.{view as data_of};
ghost use Rattle.letters.specs.Letters.{entry_letter, envelope_letter};

use envelope::Envelope;

/// What a text spells that a client of the store writes.
#[derive(Clone, Copy, Debug, Drop)]
pub enum Letter {
    /// An envelope, by the number of its delivery tag, and whether it is marked as redelivered.
    Envelope { number: u128, marked: bool },
    /// An entry of the unacked table, likewise by its envelope.
    Entry { number: u128, marked: bool },
}

impl Letter {
    /// What the text of an envelope spells.
    pub(crate) fn of_envelope(e: &Envelope) -> Letter
        ensures { result ≡ envelope_letter (data_of e.now) }
    {
        Letter::Envelope {
            number: e.tag().0,
            marked: e.marked(),
        }
    }

    /// What an entry of an envelope spells.
    pub(crate) fn of_entry(e: &Envelope) -> Letter
        ensures { result ≡ entry_letter (data_of e.now) }
    {
        Letter::Entry {
            number: e.tag().0,
            marked: e.marked(),
        }
    }
}
