//! Numbers in steps.
ghost use Rattle.std.specs.Prelude.{◌≡◌};

/// The numbers from a first to a last, in steps from the first on.
#[derive(Clone, Copy, Debug, PartialEq, Eq)]
pub struct SteppedRange {
    /// The first number.
    pub first: u64,
    /// No number is above this one.
    pub last: u64,
    /// How far a number is from the one before; with 0 there are no numbers.
    pub step: u64,
}

impl SteppedRange {
    ghost use Rattle.crontabs.specs.Fields.{steps_have};

    /// Whether a number is among them.
    pub(crate) fn has(&self, number: u64) -> bool
        ensures { result ≡ steps_have self.now number }
    {
        self.step >= 1
            && self.first <= number
            && number <= self.last
            && (number - self.first) % self.step == 0
    }
}
