//! What the program's schedules determine, over the bytes of Celery's envelopes: laws whose functions have empty bodies.
#![tactic(auto)]

ghost use Rattle.schedule_laws.specs.Sound.{IsCraft};
ghost use Rattle.schedule_model.specs.Programs.{program_craft};
ghost use Rattle.message_schedules.specs.Laws.{HistoriesPlaced, HistoriesSound};

/// The names and texts that the program reads schedules by are lawful, and what it seals tells what was asked.
pub fn program_crafts()
    ensures { IsCraft program_craft }
{}

/// What a schedule determines is sound: a whole history, and also that of the desk that was full.
pub fn schedules_sound()
    ensures { HistoriesSound }
{}

/// After each prefix of such a history each message that was accepted and is single is in exactly one place.
pub fn schedules_placed()
    ensures { HistoriesPlaced }
{}
