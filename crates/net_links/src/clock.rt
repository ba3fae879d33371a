//! What a clock is.
ghost use Rattle.std.specs.Prelude.{ℕ};

/// Gives moments, in microseconds since 1970. A clock that threads share is asked for `Send` and `Sync` where they
/// start.
pub trait Clock {
    /// The moments that it may answer.
    ghost gives: { Self → ℕ → Type 0 };

    /// The moment at hand. It can't fail.
    fn now(&self) -> u64
        ensures { gives self.now result };

    /// Lets some time go by, as the clock does it.
    fn rest(&self);
}
