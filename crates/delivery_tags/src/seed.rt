//! A producer's seed, from which its tags are drawn in order.
ghost use Rattle.std.specs.Prelude.{◌≡◌, ◌+◌, ◌-◌, ◌^◌, ◌↔◌, IfNone, IfSome, IsNone};
ghost use Rattle.delivery_tags.specs.Tags.{tag_number};

use crate::tag::Tag;

/// A producer's seed, and how many tags were drawn from it.
#[derive(Debug, Drop)]
pub struct Seed {
    seed: u64,
    drawn: u64,
}

impl Seed {
    /// A seed from which nothing was drawn.
    pub fn new(seed: u64) -> Seed
        ensures { result ≡ record { seed = seed; drawn = 0 } }
    {
        Seed { seed, drawn: 0 }
    }

    /// The tag that is drawn next: counters are 1, 2, and so on. None where the last one, `u64::MAX`, was drawn.
    pub fn next(&self) -> Option<Tag>
        ensures end { IsNone result ↔ (self.now.drawn ≡ 2 ^ 64 - 1) }
        ensures tag { IfSome result (λ t. t.0 ≡ tag_number self.now.seed (self.now.drawn + 1)) }
    {
        let counter = self.drawn.checked_add(1)?;
        Some(Tag::of(self.seed, counter))
    }

    /// Draws the next tag. None, and nothing changes, exactly where the counter `u64::MAX` was drawn.
    pub fn draw(&mut self) -> Option<Tag>
        ensures end { IsNone result ↔ (self.old.drawn ≡ 2 ^ 64 - 1) }
        ensures tag { IfSome result (λ t. t.0 ≡ tag_number self.old.seed (self.old.drawn + 1)) }
        ensures drawn { IfSome result (λ _. self.new ≡ record self.old { drawn = self.old.drawn + 1 }) }
        ensures kept { IfNone result (self.new ≡ self.old) }
    {
        let counter = self.drawn.checked_add(1)?;
        self.drawn = counter;
        Some(Tag::of(self.seed, counter))
    }
}
