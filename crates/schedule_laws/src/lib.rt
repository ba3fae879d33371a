//! What a schedule determines is sound, and says what its lines ask for: laws over the definitions of schedules, whose
//! functions have empty bodies.
#![tactic(auto)]

ghost use Rattle.schedule_laws.specs.BegunBlocks.{RunsAreSteps, RunsEndBlocks, SchedulesSayBlocks};
ghost use Rattle.schedule_laws.specs.OneDesk.{SchedulesFillOne};
ghost use Rattle.schedule_laws.specs.Sound.{LayoutsMakeCrafts, SchedulesLead, SchedulesSound};

/// What a schedule determines is where its lines lead: all of them to the desk of a whole history, or one of them to the
/// desk that was full, which has the numbers that are told.
pub fn lines_lead()
    ensures { SchedulesLead }
{}

/// Where the history of a schedule was full, its lines filled exactly one desk: there is one, with the numbers that are told,
/// and whichever desk they filled is this one, by the same line. So a status that tells of a full history speaks of it alone.
pub fn one_filled_desk()
    ensures { SchedulesFillOne }
{}

/// What a schedule determines is sound: a whole history, and also that of the desk that was full.
pub fn schedules()
    ensures { SchedulesSound }
{}

/// The lines of a schedule decide each client's blocks: its calls are the blocks of its `begin` lines, in order, and the
/// last of them may be only begun. Where the history was full, this holds by the lines up to the one that had no room.
pub fn begun_blocks()
    ensures { SchedulesSayBlocks }
{}

/// `run` is `step` repeated: in its place so many `step` lines, one at least, lead to the same desk, the same full history
/// or the same reason. Where it leads to a desk, the client has nothing left to say there.
pub fn runs_are_steps()
    ensures steps { RunsAreSteps }
    ensures ends { RunsEndBlocks }
{}

/// A lawful layout of at most four priority steps serves schedules.
pub fn layout_crafts()
    ensures { LayoutsMakeCrafts }
{}
