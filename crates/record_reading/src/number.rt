//! Numbers, moments, integers and tags.
ghost use Rattle.std.specs.Prelude.{◌≡◌, ◌<◌, ◌≤◌, ◌^◌, IfSome, decimal, true};
ghost use Rattle.std.specs.Fmt.{signed_decimal};
ghost use Rattle.store_model.specs.Limits.{moment_limit};
ghost use Rattle.history_records.specs.Lines.{tag_text};
ghost use Rattle.history_records.specs.Recordable.{IsTag, is_integer};
ghost use Rattle.record_reading.specs.Reads.{HasRead, HasReadMoment};

use crate::rest::Rest;
use delivery_tags::Tag;
use line_text::{moment_in, number_in};
use numerals::integer;

impl<'a> Rest<'a> {
    /// Reads a number of at most this value.
    pub(crate) fn number(&mut self, high: u64) -> Option<u64>
        ensures text { IfSome result (λ n. HasRead (decimal n) self.old self.new) }
        ensures bound { IfSome result (λ n. n ≤ high) }
    {
        let Ok(text) = std::str::from_utf8(self.number_text()) else {
            return None;
        };
        number_in(0, high, text)
    }

    /// Reads a moment; each from 2^40 on, of however many digits, counts as 2^40.
    pub(crate) fn moment(&mut self) -> Option<u64>
        ensures text { IfSome result (λ at. HasReadMoment at self.old self.new) }
        ensures bound { IfSome result (λ at. at ≤ moment_limit) }
    {
        let Ok(text) = std::str::from_utf8(self.number_text()) else {
            return None;
        };
        moment_in(text)
    }

    /// Reads the number of a connection.
    pub(crate) fn connection(&mut self) -> Option<u32>
        ensures text { IfSome result (λ c. HasRead (decimal c) self.old self.new) }
        ensures bound { IfSome result (λ c. c < 2 ^ 32) }
    {
        let number = self.number(u32::MAX as u64)?;
        Some(number as u32)
    }

    /// Reads an integer of 64 bits.
    pub(crate) fn integer(&mut self) -> Option<i64>
        ensures text { IfSome result (λ z. HasRead (signed_decimal z) self.old self.new) }
        ensures typed { IfSome result (λ z. is_integer z ≡ true) }
    {
        integer(self.number_text())
    }

    /// Reads a tag by its seed and counter.
    pub(crate) fn tag(&mut self) -> Option<Tag>
        ensures text { IfSome result (λ tag. HasRead (tag_text tag) self.old self.new) }
        ensures typed { IfSome result IsTag }
    {
        let seed = self.number(u64::MAX)?;
        if !self.pass(b":") {
            return None;
        }
        let counter = self.number(u64::MAX)?;
        Some(Tag::of(seed, counter))
    }
}
