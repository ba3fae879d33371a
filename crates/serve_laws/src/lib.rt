//! What runs of `serve` did, as one history of their store, as a law: a function whose body is empty.
#![tactic(auto)]

ghost use Rattle.std.specs.Prelude.{ℕ, ◌++◌};
ghost use Rattle.links.specs.Views.{SinkView};
ghost use Rattle.serve_run.specs.NetViews.{NetView};
ghost use Rattle.serve_run.specs.ServeRuns.{HasServedRun};
ghost use Rattle.serve_run.specs.declared.ending.ServingEnd.{ServingEnd};
ghost use Rattle.serve_laws.specs.ServeHistories.{IsServeHistory};

use net_links::Clock;

/// Connections that were served and told, at a store that began empty: all whose sessions ended, told or untold, stand
/// in one legal history from no key, which leads to the store that is left, as long as memory was never wanting in a
/// command.
pub fn serving_run_is_a_history<C: Clock>()
    ensures { (clock : C) (turns wanted : ℕ) (before after : NetView) (old new : SinkView) (end : ServingEnd)
        → (r : HasServedRun (C.gives clock) turns wanted before after old new end) → IsServeHistory (C.gives clock) before after (r.1.ends ++ r.1.untold) r.0 }
{}
