//! Notes of clients.
ghost use Rattle.std.specs.Prelude.{◌≡◌, ◌++◌, IfOk, IfSome, codes};
ghost use Rattle.history_records.specs.Lines.{note_text, outcome_text};
ghost use Rattle.history_records.specs.Recordable.{IsNote, IsOutcome};
ghost use Rattle.record_reading.specs.Reads.{HasRead};

use crate::rest::Rest;
use place_model::{Heard, Outcome};
use std::alloc::{AllocError, Global};

impl<'a> Rest<'a> {
    /// Reads a note.
    pub(crate) fn note(&mut self, alloc: Global) -> Result<Option<Heard>, AllocError>
        ensures text { IfOk result (λ found. IfSome found (λ note. HasRead (note_text note) self.old self.new)) }
        ensures typed { IfOk result (λ found. IfSome found IsNote) }
    {
        if self.pass(b"FINISHED ") {
            return self.finished(alloc);
        }
        Ok(self.plain_note())
    }

    /// Reads a note without a text.
    fn plain_note(&mut self) -> Option<Heard>
        ensures text { IfSome result (λ note. HasRead (note_text note) self.old self.new) }
        ensures typed { IfSome result IsNote }
    {
        if self.pass(b"TOOK ") {
            return Some(Heard::Took(self.tag()?));
        }
        if self.pass(b"EXPIRED ") {
            return self.expired();
        }
        if self.pass(b"REVOKED ") {
            return Some(Heard::Revoked(self.tag()?));
        }
        if self.pass(b"REJECTED ") {
            return Some(Heard::Rejected(self.tag()?));
        }
        if self.pass(b"HELD ") {
            return self.held();
        }
        if self.pass(b"UNREADABLE") {
            return Some(Heard::Unreadable);
        }
        None
    }

    /// Reads the tag and the moments of a task that expired.
    fn expired(&mut self) -> Option<Heard>
        ensures text { IfSome result (λ note. codes "EXPIRED " ++ self.old.bytes.now ≡ note_text note ++ self.new.bytes.now) }
        ensures typed { IfSome result IsNote }
    {
        let tag = self.tag()?;
        if !self.pass(b" ") {
            return None;
        }
        let expires = self.integer()?;
        if !self.pass(b" ") {
            return None;
        }
        let now = self.integer()?;
        Some(Heard::Expired { tag, expires, now })
    }

    /// Reads the tag and the moment of a task that is held.
    fn held(&mut self) -> Option<Heard>
        ensures text { IfSome result (λ note. codes "HELD " ++ self.old.bytes.now ≡ note_text note ++ self.new.bytes.now) }
        ensures typed { IfSome result IsNote }
    {
        let tag = self.tag()?;
        if !self.pass(b" ") {
            return None;
        }
        let eta = self.integer()?;
        Some(Heard::Held { tag, eta })
    }

    /// Reads the tag of a task that ended, and how it ended.
    fn finished(&mut self, alloc: Global) -> Result<Option<Heard>, AllocError>
        ensures typed { IfOk result (λ found. IfSome found IsNote) }
        ensures text { IfOk result (λ found. IfSome found (λ note. codes "FINISHED " ++ self.old.bytes.now ≡ note_text note ++ self.new.bytes.now)) }
    {
        let Some(tag) = self.tag() else {
            return Ok(None);
        };
        if !self.pass(b" ") {
            return Ok(None);
        }
        let Some(outcome) = self.outcome(alloc)? else {
            return Ok(None);
        };
        Ok(Some(Heard::Finished { tag, outcome }))
    }

    /// Reads how a task ended.
    fn outcome(&mut self, alloc: Global) -> Result<Option<Outcome>, AllocError>
        ensures text { IfOk result (λ found. IfSome found (λ outcome. HasRead (outcome_text outcome) self.old self.new)) }
        ensures typed { IfOk result (λ found. IfSome found IsOutcome) }
    {
        if self.pass(b"success ") {
            return Ok(self.quoted(alloc)?.map(Outcome::Success));
        }
        if self.pass(b"failure ") {
            return Ok(self.quoted(alloc)?.map(Outcome::Failure));
        }
        if self.pass(b"retry ") {
            return Ok(self.number(u64::MAX).map(Outcome::Retry));
        }
        Ok(None)
    }
}
