//! Laws of envelopes, entries and tags that rest on how JSON is read and written as UTF-8.
#![tactic(auto)]

mod laws;

ghost use Rattle.envelope_laws.specs.Carried.{EntriesCarryEnvelopes, EnvelopesGoIn};
ghost use Rattle.envelope_laws.specs.Marks.{MarksAlone};
ghost use Rattle.envelope_laws.specs.Names.{NamesAreTexts, TagsAreShort};
ghost use Rattle.envelope_laws.specs.Relations.{ReadsEntries, ReadsEnvelopes, TreesSay};
ghost use Rattle.envelope_laws.specs.Sealed.{SealsSay};

pub use laws::{bodies_stay, marks_stay, tags_tell, texts_read_back};

/// Reading gives an envelope's tree exactly where the bytes are a JSON text of that tree and the tree has, member by member,
/// what an envelope has; it then says what its members say. The same holds of entries.
pub fn envelopes_read()
    ensures envelopes { ReadsEnvelopes }
    ensures entries { ReadsEntries }
    ensures said { TreesSay }
{}

/// Marks set the two members of redelivery to true, and change no other member.
pub fn marks_alone()
    ensures { MarksAlone }
{}

/// What was sealed says the draft's content, its tag, and the draft's exchange and routing key.
pub fn seals_say()
    ensures { SealsSay }
{}

/// An envelope's exchange and routing key are UTF-8 of at most 255 bytes.
pub fn names_are_texts()
    ensures { NamesAreTexts }
{}

/// A tag's text has 36 bytes.
pub fn tags_are_short()
    ensures { TagsAreShort }
{}

/// The entry of an envelope is read as its entry, and carries the envelope with both marks set.
pub fn envelopes_go_in()
    ensures { EnvelopesGoIn }
{}

/// The bytes that an entry carries are an envelope again, with both marks set, and say what the entry's envelope said.
pub fn carried_envelopes()
    ensures { EntriesCarryEnvelopes }
{}
