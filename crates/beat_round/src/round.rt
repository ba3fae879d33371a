//! A round.
ghost use Rattle.std.specs.Prelude.{◌≡◌, ◌<◌};
ghost use Rattle.command_blocks.specs.Scripts.{Over};
ghost use Rattle.desks.specs.Faults.{HasCounts, IsOpen};
ghost use Rattle.beat_round.specs.Rounds.{HasMadeRound, IsDeskCause, RoundKeeps};

use crate::ended::BeatEnd;
use crate::sending::send_all;
use beat_files::Schedule;
use desks::Desk;
use net_links::Clock;
use std::alloc::Global;
use steps::Steps;

/// Publishes each entry of a schedule that is due at a moment in seconds, in the file's order, and then ticks. `Sent` tells
/// the index and the tag of each. Each command is sent at a moment of the clock.
///
/// After any other end it hasn't ticked: `Desk` is a fault of the desk in this call; `Refused` comes exactly where a
/// publication lists no such answer; `NoTag` exactly where the client has no next tag and an entry is still to be sent;
/// `Unsealed` where no lawful envelope can be made of what an entry sends, whose line has at most 65,536 bytes, so that
/// none is too long; `Memory` is want of memory.
pub fn beat_round<D: Desk, T: Steps, C: Clock>(
    alloc: Global,
    desk: &mut D,
    steps: &mut T,
    clock: &C,
    schedule: &mut Schedule,
    now: u64,
) -> BeatEnd
    requires open { IsOpen (D.fault desk.old) (D.stopped desk.old) }
    requires idle { T.left steps.old ≡ Over }
    ensures made { HasMadeRound D.goes D.fault D.stopped T.client T.left (C.gives clock.now) desk.old desk.new steps.old steps.new now schedule.old schedule.new result }
    // The next round may begin.
    ensures next { RoundKeeps D.fault D.stopped T.left desk.new steps.new result }
    // A fault of the desk comes as each of its faults does.
    ensures counts { HasCounts (D.faults desk.old) (D.faults desk.new) (D.ends desk.old) (D.ends desk.new) }
    ensures kinds { IsDeskCause D.remote D.shared (D.faults desk.old) (D.faults desk.new) (D.ends desk.old) (D.ends desk.new) result }
{
    let indices = match schedule.due(alloc, now) {
        Ok(indices) => indices,
        Err(_) => return BeatEnd::Memory,
    };
    match send_all(alloc, desk, steps, clock, schedule, indices.as_slice()) {
        Ok(sent) => {
            schedule.tick(now);
            BeatEnd::Sent(sent)
        }
        Err(end) => end,
    }
}
