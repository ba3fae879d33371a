//! What a client that says blocks does is its manner, as laws: functions whose bodies are empty.
#![tactic(auto)]

ghost use Rattle.std.specs.Prelude.{List, Result, ℕ, ◌++◌};
ghost use Rattle.command_blocks.specs.Blocks.{IsMannered};
ghost use Rattle.command_blocks.specs.EnvelopeTexts.{plain_setting};
ghost use Rattle.steps.specs.Clients.{new_counts};
ghost use Rattle.steps.specs.Errands.{Errand};
ghost use Rattle.steps.specs.Trips.{trip_calls};
ghost use Rattle.steps.specs.declared.ended.BlockEnd.{BlockEnd};
ghost use Rattle.block_runs.specs.Runs.{HasRunErrand};
ghost use Rattle.block_runs.specs.declared.fault.BlockFault.{BlockFault};
ghost use Rattle.steps_laws.specs.Manners.{AreSaid, ClientsAreMannered, ErrandSaid, ErrandsBegin, IdleClientsAreMannered, NeutralsAre, said_calls};

use desks::Desk;
use net_links::Clock;
use steps::Steps;

/// What was said so far of a lawful errand begins its block, and is a whole one where nothing is left to say; where the last
/// answer isn't listed it begins none.
pub fn errands_begin()
    ensures { ErrandsBegin }
{}

/// Whatever a client said, errand after errand, each lawful by its counters then, the last perhaps only begun: its calls are
/// the manner of a client of its seed.
pub fn clients_are_mannered()
    ensures busy { ClientsAreMannered }
    ensures idle { IdleClientsAreMannered }
{}

/// Whatever a client said, errand after errand, and then an errand that it ran at a desk, to its end or to a fault: its
/// calls are the manner of a client of its seed.
pub fn runs_are_mannered<D: Desk, T: Steps, C: Clock>()
    ensures { (clock : C) (seed : ℕ) (before : List ErrandSaid) (desk desk2 : D) (steps steps2 : T) (errand : Errand) (result : Result BlockEnd BlockFault)
        → AreSaid (new_counts seed) before (T.client steps)
        → (run : HasRunErrand D.goes D.fault D.stopped T.client T.left (C.gives clock) desk desk2 steps steps2 errand result)
        → IsMannered plain_setting seed (said_calls before ++ trip_calls run.trips) }
{}

/// The test of commands that concern no message finds just those of the grammar of blocks.
pub fn neutrals()
    ensures { NeutralsAre }
{}
