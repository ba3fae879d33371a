//! The commands of a block, one after the other.
ghost use Rattle.std.specs.Prelude.{List as Listed, IfErr, IsSome, OnOk, Some, ◌<◌, ◌≡◌};
ghost use Rattle.store_model.specs.Limits.{moment_limit};
ghost use Rattle.wire_grammar.specs.Fits.{IsWithinLimits};
ghost use Rattle.command_blocks.specs.Scripts.{Over, Off, next_words};
ghost use Rattle.desks.specs.Faults.{HasCounts, IsOpen};
ghost use Rattle.steps.specs.Begins.{IsLawfulBlock, errand_of};
ghost use Rattle.steps.specs.declared.counts.ClientCounts.{ClientCounts};
ghost use Rattle.steps.specs.Ends.{TellsOfErrand};
ghost use Rattle.steps.specs.Errands.{Errand};
ghost use Rattle.steps.specs.Trips.{RoundTrip};
ghost use Rattle.block_runs.specs.Runs.{IsDeskFault, HasHeardNext, HasRest, HasRunBlock, HasSaidNext};

use crate::BlockFault;
use desks::Desk;
use net_links::Clock;
use sessions::store_moment;
use std::alloc::Global;
use steps::{Block, BlockEnd, Steps};
use store_model::Reply;
use wire_values::Words;

/// Has a client say a block at a desk to its end. Each command is sent at a moment of the clock.
///
/// # Errors
/// `Begin` where the client doesn't begin it, by its first reason; nothing is asked then. `Desk` with the desk's fault,
/// `Refused` with the reply exactly where the block lists no such answer there; nothing is asked after either. `Memory` is
/// want of memory, also after 2^64 - 1 commands.
pub fn run_block<D: Desk, T: Steps, C: Clock>(
    alloc: Global,
    desk: &mut D,
    steps: &mut T,
    clock: &C,
    block: Block,
) -> Result<BlockEnd, BlockFault>
    requires open { IsOpen (D.fault desk.old) (D.stopped desk.old) }
    requires idle { T.left steps.old ≡ Over }
    requires lawful { IsLawfulBlock (T.client steps.old) block }
    ensures run { HasRunBlock D.goes D.fault D.stopped T.client T.left (C.gives clock.now) desk.old desk.new steps.old steps.new (errand_of (T.client steps.old) block) result }
    // The next block may begin.
    ensures open { OnOk result (IsOpen (D.fault desk.new) (D.stopped desk.new)) }
    ensures idle { OnOk result (T.left steps.new ≡ Over) }
    // A fault of the desk comes as each of its faults does.
    ensures counts { HasCounts (D.faults desk.old) (D.faults desk.new) (D.ends desk.old) (D.ends desk.new) }
    ensures kinds { IfErr result (IsDeskFault D.remote D.shared (D.faults desk.old) (D.faults desk.new) (D.ends desk.old) (D.ends desk.new)) }
{
    steps.begin(alloc, block)?;
    say_all(alloc, desk, steps, clock)?;
    Ok(told(steps))
}

/// Has a client say what is left of its block.
fn say_all<D: Desk, T: Steps, C: Clock>(
    alloc: Global,
    desk: &mut D,
    steps: &mut T,
    clock: &C,
) -> Result<(), BlockFault>
    requires open { IsOpen (D.fault desk.old) (D.stopped desk.old) }
    requires on { T.left steps.old ≡ Off → ⊥ }
    requires end { T.left steps.old ≡ Over → IsSome (T.ended steps.old) }
    ensures said { HasRest D.goes D.fault D.stopped T.left T.had T.ended (C.gives clock.now) desk.old desk.new steps.old steps.new result }
    ensures client { T.client steps.new ≡ T.client steps.old }
    ensures counts { HasCounts (D.faults desk.old) (D.faults desk.new) (D.ends desk.old) (D.ends desk.new) }
    ensures kinds { IfErr result (IsDeskFault D.remote D.shared (D.faults desk.old) (D.faults desk.new) (D.ends desk.old) (D.ends desk.new)) }
{
    'more: for _ in 0..u64::MAX {
        let at = store_moment(clock.now());
        let is_on = say_next(alloc, desk, steps, at)?;
        if !is_on {
            return Ok(());
        }
    }
    // No block has so many commands.
    Err(BlockFault::Memory)
}

/// Has a client say its next command at a moment in seconds, if there is one. False where there is none.
fn say_next<D: Desk, T: Steps>(
    alloc: Global,
    desk: &mut D,
    steps: &mut T,
    at: u64,
) -> Result<bool, BlockFault>
    requires moment { at < moment_limit }
    requires open { IsOpen (D.fault desk.old) (D.stopped desk.old) }
    ensures said { HasSaidNext D.goes D.fault D.stopped T.left T.had T.ended at desk.old desk.new steps.old steps.new result }
    ensures client { T.client steps.new ≡ T.client steps.old }
    ensures counts { HasCounts (D.faults desk.old) (D.faults desk.new) (D.ends desk.old) (D.ends desk.new) }
    ensures kinds { IfErr result (IsDeskFault D.remote D.shared (D.faults desk.old) (D.faults desk.new) (D.ends desk.old) (D.ends desk.new)) }
{
    let Some(words) = steps.next(alloc, at)? else {
        return Ok(false);
    };
    say(alloc, desk, steps, at, &words)
}

/// Has a client say these words, its next command, at a moment in seconds. True.
fn say<D: Desk, T: Steps>(
    alloc: Global,
    desk: &mut D,
    steps: &mut T,
    at: u64,
    words: &Words,
) -> Result<bool, BlockFault>
    requires moment { at < moment_limit }
    requires open { IsOpen (D.fault desk.old) (D.stopped desk.old) }
    requires next { next_words (T.left steps.old) at ≡ Some words.now }
    requires limits { IsWithinLimits words.now }
    ensures said { HasSaidNext D.goes D.fault D.stopped T.left T.had T.ended at desk.old desk.new steps.old steps.new result }
    ensures client { T.client steps.new ≡ T.client steps.old }
    ensures counts { HasCounts (D.faults desk.old) (D.faults desk.new) (D.ends desk.old) (D.ends desk.new) }
    ensures kinds { IfErr result (IsDeskFault D.remote D.shared (D.faults desk.old) (D.faults desk.new) (D.ends desk.old) (D.ends desk.new)) }
{
    let reply = desk.ask(alloc, at, words)?;
    hear(alloc, steps, at, &reply)
}

/// Has a client take the reply to its next command, at a moment in seconds. True.
fn hear<T: Steps>(alloc: Global, steps: &mut T, at: u64, reply: &Reply) -> Result<bool, BlockFault>
    requires moment { at < moment_limit }
    requires asked { IsSome (next_words (T.left steps.old) at) }
    ensures heard { HasHeardNext T.left T.had T.ended at steps.old steps.new reply.now result }
    ensures client { T.client steps.new ≡ T.client steps.old }
{
    steps.took(alloc, at, reply)?;
    Ok(true)
}

/// How a block ended that is over.
fn told<T: Steps>(steps: &mut T) -> BlockEnd
    requires { IsSome (T.ended steps.old) }
    ensures ended { T.ended steps.old ≡ Some result }
    ensures left { T.left steps.new ≡ T.left steps.old }
    ensures client { T.client steps.new ≡ T.client steps.old }
    ensures tells { (c : ClientCounts) (errand : Errand) (trips : Listed RoundTrip) → T.had steps.old c errand trips → TellsOfErrand errand trips result }
{
    match steps.end() {
        Some(end) => end,
        None => unreachable!(),
    }
}
