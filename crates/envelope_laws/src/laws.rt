//! Laws of trees, envelopes, entries and tags that need no call. Each body is empty: the clauses are the laws.
ghost use Rattle.envelope_laws.specs.Laws.{BodiesComeOut, BodiesGoIn, MarksSay, MarksStay, ReadsBack, ReadsSorted, TagsOfEnvelopes, TagsSpelled, TagsTold};

/// What was read is sorted, and a sorted tree's compact text is read back as that tree.
pub fn texts_read_back()
    ensures sorted { ReadsSorted }
    ensures back { ReadsBack }
{}

/// Marks that are set are set, and marks change nothing that an envelope says.
pub fn marks_stay()
    ensures twice { MarksStay }
    ensures said { MarksSay }
{}

/// A tag's text tells its seed and its counter, and an envelope's tag is one.
pub fn tags_tell()
    ensures spelled { TagsSpelled }
    ensures told { TagsTold }
    ensures of_envelopes { TagsOfEnvelopes }
{}

/// An envelope goes into an entry and comes out of it whole, but for its marks.
pub fn bodies_stay()
    ensures go_in { BodiesGoIn }
    ensures come_out { BodiesComeOut }
{}
