//! What the end of a return tells, as a law: a function whose body is empty.
#![tactic(auto)]

ghost use Rattle.return_laws.specs.Ends.{ReturnsEndSo};

/// A whole return ends as the end of its core tells: moved exactly where it tells so, and likewise gone, stayed, and
/// contended, after the eighth EXEC that answered the null array.
pub fn returns_end_so()
    ensures { ReturnsEndSo }
{}
