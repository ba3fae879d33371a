//! Entries, published one after the other.
ghost use Rattle.std.specs.Prelude.{◌≡◌, ◌<◌, IfErr, OnOk, Some, length, slice_get};
ghost use Rattle.command_blocks.specs.Scripts.{Over};
ghost use Rattle.desks.specs.Faults.{HasCounts, IsOpen};
ghost use Rattle.beat_files.specs.Readings.{AreBelow, tasks_in};
ghost use Rattle.beat_round.specs.Rounds.{HasSentAll, HasSentEntry, IsDeskCause};

use crate::drafting::entry_draft;
use crate::ended::{BeatEnd, stop_end};
use beat_files::{BeatTask, Schedule};
use block_runs::run_block;
use desks::Desk;
use envelope::Tag;
use net_links::Clock;
use std::alloc::Global;
use steps::{Block, Steps};
use wire_values::List;

/// Publishes the entries of these indices, in their order, and tells the tag of each.
///
/// # Errors
/// As `BeatEnd` says, but `Sent`.
pub(crate) fn send_all<D: Desk, T: Steps, C: Clock>(
    alloc: Global,
    desk: &mut D,
    steps: &mut T,
    clock: &C,
    schedule: &Schedule,
    indices: &[u64],
) -> Result<List<(u64, Tag)>, BeatEnd>
    requires open { IsOpen (D.fault desk.old) (D.stopped desk.old) }
    requires idle { T.left steps.old ≡ Over }
    requires below { AreBelow (length (tasks_in schedule.now)) indices.now }
    ensures sent { HasSentAll D.goes D.fault D.stopped T.client T.left (C.gives clock.now) desk.old desk.new steps.old steps.new (tasks_in schedule.now) indices.now result }
    ensures open { OnOk result (IsOpen (D.fault desk.new) (D.stopped desk.new)) }
    ensures idle { OnOk result (T.left steps.new ≡ Over) }
    ensures counts { HasCounts (D.faults desk.old) (D.faults desk.new) (D.ends desk.old) (D.ends desk.new) }
    ensures kinds { IfErr result (IsDeskCause D.remote D.shared (D.faults desk.old) (D.faults desk.new) (D.ends desk.old) (D.ends desk.new)) }
{
    let mut sent = List::new();
    'entries: for index in indices {
        let entry = entry_at(schedule, *index);
        match send_entry(alloc, desk, steps, clock, entry) {
            Ok(tag) => sent.push(alloc, (*index, tag))?,
            Err(end) => return Err(end),
        }
    }
    Ok(sent)
}

/// What the entry of an index sends.
fn entry_at(schedule: &Schedule, index: u64) -> &BeatTask
    requires { index < length (tasks_in schedule.now) }
    ensures { slice_get (tasks_in schedule.now) index ≡ Some result.now }
{
    match schedule.task(index) {
        Some(entry) => entry,
        None => unreachable!(),
    }
}

/// Publishes an entry under the next tag of the client, which it tells.
fn send_entry<D: Desk, T: Steps, C: Clock>(
    alloc: Global,
    desk: &mut D,
    steps: &mut T,
    clock: &C,
    entry: &BeatTask,
) -> Result<Tag, BeatEnd>
    requires open { IsOpen (D.fault desk.old) (D.stopped desk.old) }
    requires idle { T.left steps.old ≡ Over }
    ensures sent { HasSentEntry D.goes D.fault D.stopped T.client T.left (C.gives clock.now) desk.old desk.new steps.old steps.new entry.now result }
    ensures open { OnOk result (IsOpen (D.fault desk.new) (D.stopped desk.new)) }
    ensures idle { OnOk result (T.left steps.new ≡ Over) }
    ensures counts { HasCounts (D.faults desk.old) (D.faults desk.new) (D.ends desk.old) (D.ends desk.new) }
    ensures kinds { IfErr result (IsDeskCause D.remote D.shared (D.faults desk.old) (D.faults desk.new) (D.ends desk.old) (D.ends desk.new)) }
{
    let Some(tag) = steps.next_tag() else {
        return Err(BeatEnd::NoTag);
    };
    let Some(draft) = entry_draft(alloc, entry, tag)? else {
        return Err(BeatEnd::Unsealed);
    };
    let block = Block::Publish(Box::new(alloc, draft)?);
    match run_block(alloc, desk, steps, clock, block) {
        Ok(_) => Ok(tag),
        Err(fault) => Err(stop_end(fault)),
    }
}
