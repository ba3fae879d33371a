//! How the returns of a pass ended so far.
ghost use Rattle.std.specs.Prelude.{◌≡◌, ◌<◌, ◌^◌};
ghost use Rattle.passes.specs.Counts.{counted, no_counts, returned_count};
ghost use Rattle.passes.specs.declared.ended.PassEnd.TheVariants.{Done};

use crate::ended::PassEnd;
use returns::Returned;

/// How many of the returns of a pass ended how.
#[derive(Clone, Copy, Debug)]
pub(crate) struct Counts {
    pub(crate) moved: u64,
    pub(crate) gone: u64,
    pub(crate) stayed: u64,
}

impl Counts {
    /// No return yet.
    pub(crate) fn none() -> Counts
        ensures { result ≡ no_counts }
    {
        Counts {
            moved: 0,
            gone: 0,
            stayed: 0,
        }
    }

    /// How many returns they are.
    pub(crate) fn total(self) -> u64
        requires { returned_count self < 2 ^ 64 }
        ensures { result ≡ returned_count self }
    {
        self.moved + self.gone + self.stayed
    }

    /// One more return; one that was contended isn't counted.
    pub(crate) fn with(self, end: Returned) -> Counts
        requires { returned_count self < 2 ^ 63 }
        ensures { result ≡ counted end self }
    {
        let Counts {
            moved,
            gone,
            stayed,
        } = self;
        match end {
            Returned::Moved => Counts {
                moved: moved + 1,
                ..self
            },
            Returned::Gone => Counts {
                gone: gone + 1,
                ..self
            },
            Returned::Stayed => Counts {
                stayed: stayed + 1,
                ..self
            },
            Returned::Contended(_) => self,
        }
    }

    /// The end of a pass whose returns these are.
    pub(crate) fn end(self) -> PassEnd
        ensures { result ≡ Done self.moved self.gone self.stayed }
    {
        PassEnd::Done {
            moved: self.moved,
            gone: self.gone,
            stayed: self.stayed,
        }
    }
}
