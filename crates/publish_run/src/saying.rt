//! A block, said at a desk.
ghost use Rattle.std.specs.Prelude.{List as Listed, ◌≡◌, [], ℕ, OnOk, Some, true};
ghost use Rattle.store_model.specs.Words.{Words as Said};
ghost use Rattle.command_blocks.specs.Calls.{Call};
ghost use Rattle.command_blocks.specs.Cores.{is_saying};
ghost use Rattle.command_blocks.specs.Scripts.{Plan, next_words};
ghost use Rattle.block_core.specs.Cores.{HasHad, core_left};
ghost use Rattle.desks.specs.Faults.{IsOpen};
ghost use Rattle.publish_run.specs.Saids.{HasHeardReply, HasSaidBlock, HasSaidOne, IsLater, desk_shows};

use block_core::{BlockCore, ReplyFault, Stage};
use desks::{Desk, DeskFault};
use std::alloc::Global;
use store_model::Reply;
use wire_values::Value;

/// Why a block wasn't said to its end.
#[derive(Drop)]
pub enum SayFault {
    /// The desk didn't take a command.
    Desk(DeskFault),
    /// The store answered this, and no block goes on after it.
    Refused(Value),
    /// There was no memory.
    Memory,
}

/// The moment of each command: none of these blocks tells one.
const MOMENT: u64 = 0;

/// Says a block to its end at a desk, and tells how it ended.
///
/// # Errors
/// `Desk` with the desk's fault; `Refused` with the answer exactly where the block lists no such answer there; `Memory` is
/// want of memory. Nothing is said after any of them.
pub fn say_block<D: Desk, S: Stage>(
    alloc: Global,
    desk: &mut D,
    core: &mut BlockCore<S, S::End>,
) -> Result<S::End, SayFault>
    requires open { IsOpen (D.fault desk.old) (D.stopped desk.old) }
    ensures later { IsLater (desk_shows D.fault D.stopped D.faults D.ends desk.old) (desk_shows D.fault D.stopped D.faults D.ends desk.new) }
    // Of whatever plan the core is: its calls are the front of a block, or the whole block.
    ensures said { (s p : ℕ) (plan : Plan) → HasHad S.left S.had S.tells s p plan [] core.old
        → HasSaidBlock D.goes D.refuses D.remote D.shared S.tells s p plan desk.old desk.new
        (desk_shows D.fault D.stopped D.faults D.ends desk.old) (desk_shows D.fault D.stopped D.faults D.ends desk.new) result }
{
    'commands: for _ in 0..u64::MAX {
        if !core.is_busy() {
            return match core.end() {
                Some(end) => Ok(end),
                None => Err(SayFault::Memory),
            };
        }
        match say_one(alloc, desk, core) {
            Ok(()) => {}
            Err(fault) => return Err(fault),
        }
    }
    // No block has 2^64 - 1 commands.
    Err(SayFault::Memory)
}

/// Says the next command of a block.
fn say_one<D: Desk, S: Stage>(
    alloc: Global,
    desk: &mut D,
    core: &mut BlockCore<S, S::End>,
) -> Result<(), SayFault>
    requires open { IsOpen (D.fault desk.old) (D.stopped desk.old) }
    requires busy { is_saying (core_left S.left core.old) ≡ true }
    ensures is_open { OnOk result (IsOpen (D.fault desk.new) (D.stopped desk.new)) }
    ensures later { IsLater (desk_shows D.fault D.stopped D.faults D.ends desk.old) (desk_shows D.fault D.stopped D.faults D.ends desk.new) }
    ensures said { (s p : ℕ) (plan : Plan) (calls : Listed Call) → HasHad S.left S.had S.tells s p plan calls core.old
        → HasSaidOne D.goes D.refuses D.remote D.shared S.left S.had S.tells s p plan calls desk.old desk.new
        (desk_shows D.fault D.stopped D.faults D.ends desk.old) (desk_shows D.fault D.stopped D.faults D.ends desk.new) core.new result }
{
    let words = match core.next(alloc, MOMENT) {
        Ok(Some(words)) => words,
        Ok(None) => unreachable!(),
        Err(_) => return Err(SayFault::Memory),
    };
    match desk.ask(alloc, MOMENT, &words) {
        Ok(reply) => hear(alloc, core, &reply),
        Err(fault) => Err(SayFault::Desk(fault)),
    }
}

/// Takes the reply to the command that was next.
fn hear<S: Stage>(
    alloc: Global,
    core: &mut BlockCore<S, S::End>,
    reply: &Reply,
) -> Result<(), SayFault>
    requires busy { is_saying (core_left S.left core.old) ≡ true }
    ensures heard { (s p : ℕ) (plan : Plan) (calls : Listed Call) (words : Said) → HasHad S.left S.had S.tells s p plan calls core.old
        → next_words (core_left S.left core.old) 0 ≡ Some words
        → HasHeardReply S.left S.had S.tells s p plan calls words reply.now core.new result }
{
    match core.took(alloc, MOMENT, reply) {
        Ok(()) => Ok(()),
        Err(ReplyFault::Refused(given)) => Err(SayFault::Refused(given.answer)),
        Err(ReplyFault::Memory) => Err(SayFault::Memory),
    }
}
