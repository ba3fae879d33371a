//! What the end of a pass tells, as laws: functions whose bodies are empty.
#![tactic(auto)]

ghost use Rattle.pass_laws.specs.Ends.{PassesAreDone, PassesEndSo};

/// A whole pass ends as the end of its core tells: held, contended at the tag that is told, or done with returns of which
/// so many moved their messages, found them gone, and left them.
pub fn passes_end_so()
    ensures { PassesEndSo }
{}

/// A whole pass that took the mutex, and none of whose transactions failed, is done: its three counts sum to the tags
/// that its range read.
pub fn passes_are_done()
    ensures { PassesAreDone }
{}
