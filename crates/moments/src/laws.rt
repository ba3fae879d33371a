//! Laws of moments that need no call. The body is empty: the clauses are the laws.
ghost use Rattle.moments.specs.Laws.{MomentsComeBack, YearsEnd};

/// The text that is written for a moment is read as that moment; the moments that can be written are those of the years
/// 1 to 9999 of UTC.
pub fn moments_come_back()
    ensures back { MomentsComeBack }
    ensures years { YearsEnd }
{}
