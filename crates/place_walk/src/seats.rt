//! The clients of a history, call by call.
ghost use Rattle.std.specs.Prelude.{◌≡◌, ℕ, IfOk, option_map, true};
ghost use Rattle.std.specs.FinMap.{empty, get};
ghost use Rattle.command_blocks.specs.Answers.{pair_of};
ghost use Rattle.command_blocks.specs.EnvelopeTexts.{plain_setting};
ghost use Rattle.place_model.specs.Histories.{table};
ghost use Rattle.place_walk.specs.Seats.{seat_of};
ghost use Rattle.place_walk.specs.Walks.{acts_after, hand_after, hand_with, new_seat, seat_after, seated};

use crate::numbered::Numbered;
use crate::seat::ClientSeat;
use command_blocks::answer::pair;
use letters::Letters;
use message_acts::{Act, CallKind, Telling, is_queue_key, message_of};
use std::alloc::{AllocError, Global};
use wire_values::{List, Value};

/// The clients of a table, none of which has called anything.
///
/// `AllocError` is want of memory.
pub fn seated(alloc: Global, clients: &[(u32, u64)]) -> Result<Numbered<ClientSeat>, AllocError>
    ensures { IfOk result (λ seats. (c : ℕ) → get seats c ≡ option_map (seat_of plain_setting) (get (table clients.now) c)) }
{
    seats_of(alloc, clients)
}

/// The clients of a table, put one by one.
pub(crate) fn seats_of(
    alloc: Global,
    clients: &[(u32, u64)],
) -> Result<Numbered<ClientSeat>, AllocError>
    ensures { IfOk result (λ seats. seats ≡ seated empty clients.now) }
{
    let mut seats = Numbered::new(alloc);
    for (conn, _) in clients {
        seats.put(*conn, new_seat())?;
    }
    Ok(seats)
}

/// A client that has called nothing.
fn new_seat() -> ClientSeat
    ensures { result ≡ new_seat }
{
    ClientSeat {
        hand: None,
        acts: List::new(),
        stopped: false,
    }
}

/// A client whose connection is gone.
pub(crate) fn stopped(seat: ClientSeat) -> ClientSeat
    ensures { result ≡ record seat { stopped = true } }
{
    ClientSeat {
        hand: seat.hand,
        acts: seat.acts,
        stopped: true,
    }
}

/// A client after a call.
pub(crate) fn seat_after(
    alloc: Global,
    letters: &mut Letters,
    seat: ClientSeat,
    told: Telling,
    answer: &Value,
) -> Result<ClientSeat, AllocError>
    ensures { IfOk result (λ after. after ≡ seat_after plain_setting seat told.kind told.act answer.now) }
{
    let hand = hand_after(alloc, letters, seat.hand, told.kind, answer)?;
    let acts = acts_after(alloc, seat.acts, told)?;
    Ok(ClientSeat {
        hand,
        acts,
        stopped: seat.stopped,
    })
}

/// What is in hand after a call.
fn hand_after(
    alloc: Global,
    letters: &mut Letters,
    old: Option<u128>,
    kind: CallKind,
    answer: &Value,
) -> Result<Option<u128>, AllocError>
    ensures { IfOk result (λ hand. hand ≡ hand_after plain_setting old kind answer.now) }
{
    match kind {
        CallKind::Pops => popped(alloc, letters, old, answer),
        CallKind::Runs => Ok(None),
        CallKind::Pushes | CallKind::Begins | CallKind::Others => Ok(old),
    }
}

/// What is in hand after BRPOP.
fn popped(
    alloc: Global,
    letters: &mut Letters,
    old: Option<u128>,
    answer: &Value,
) -> Result<Option<u128>, AllocError>
    ensures { IfOk result (λ hand. hand ≡ hand_with plain_setting old (pair_of answer.now)) }
{
    match pair(answer) {
        None => Ok(old),
        Some((key, element)) => {
            if is_queue_key(key) {
                message_of(alloc, letters, element)
            } else {
                Ok(old)
            }
        }
    }
}

/// What the commands since MULTI do, after a call.
fn acts_after(alloc: Global, mut acts: List<Act>, told: Telling) -> Result<List<Act>, AllocError>
    ensures { IfOk result (λ after. after ≡ acts_after acts told.kind told.act) }
{
    match told.kind {
        CallKind::Begins => Ok(List::new()),
        CallKind::Pushes | CallKind::Pops | CallKind::Runs | CallKind::Others => {
            acts.push(alloc, told.act)?;
            Ok(acts)
        }
    }
}
