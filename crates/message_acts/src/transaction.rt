//! What a transaction that ran did to messages.
ghost use Rattle.std.specs.Prelude.{◌≡◌, ◌++◌, not, filter, nat_le, drop, IfOk, OnOk};
ghost use Rattle.message_acts.specs.Numbers.{has, times};
ghost use Rattle.message_acts.specs.Transactions.{copied_by, copied_in, ended_by, ended_in, pushed, taken, taken_by};

use crate::act::{Act, CallKind};
use command_blocks::answer::{is_one, items};
use std::alloc::{AllocError, Global};
use wire_values::{List, Value};

/// Adds the messages that a call took out of the table and pushed nowhere: EXEC does, by what the commands since MULTI
/// do and by its answers.
///
/// `AllocError` is want of memory.
pub fn add_ended(
    alloc: Global,
    ended: &mut List<u128>,
    acts: &[Act],
    kind: CallKind,
    answer: &Value,
) -> Result<(), AllocError>
    ensures { OnOk result (ended.new ≡ ended.old ++ ended_by acts.now kind answer.now) }
{
    match kind {
        CallKind::Runs => match items(answer) {
            Some(answers) => add_ended_in(alloc, ended, acts, answers),
            None => Ok(()),
        },
        CallKind::Pushes | CallKind::Pops | CallKind::Begins | CallKind::Others => Ok(()),
    }
}

/// Adds the messages that a call pushed more than once: EXEC does, where it ran.
///
/// `AllocError` is want of memory.
pub fn add_copied(
    alloc: Global,
    copied: &mut List<u128>,
    acts: &[Act],
    kind: CallKind,
    answer: &Value,
) -> Result<(), AllocError>
    ensures { OnOk result (copied.new ≡ copied.old ++ copied_by acts.now kind answer.now) }
{
    match kind {
        CallKind::Runs => match items(answer) {
            Some(_) => add_copied_in(alloc, copied, acts),
            None => Ok(()),
        },
        CallKind::Pushes | CallKind::Pops | CallKind::Begins | CallKind::Others => Ok(()),
    }
}

/// Adds the messages that a transaction with these answers took out of the table and pushed nowhere.
fn add_ended_in(
    alloc: Global,
    ended: &mut List<u128>,
    acts: &[Act],
    answers: &[Value],
) -> Result<(), AllocError>
    ensures { OnOk result (ended.new ≡ ended.old ++ ended_in acts.now answers.now) }
{
    let list = pushed(alloc, acts)?;
    let pushes = list.as_slice();
    let mut at = 0;
    while at < acts.len() && at < answers.len() {
        add_taken(alloc, ended, pushes, acts[at], &answers[at])?;
        at += 1;
    }
    Ok(())
}

/// Adds the message that was taken, where it isn't pushed.
fn add_taken(
    alloc: Global,
    ended: &mut List<u128>,
    pushes: &[u128],
    act: Act,
    answer: &Value,
) -> Result<(), AllocError>
    ensures { OnOk result (ended.new ≡ ended.old ++ filter (λ n. not (has n pushes.now)) (taken_by act answer.now)) }
{
    match act {
        Act::Take(number) => {
            if is_one(answer) && !has(number, pushes) {
                ended.push(alloc, number)?;
            }
            Ok(())
        }
        Act::Push(_) | Act::Nothing => Ok(()),
    }
}

/// Adds the messages that a transaction pushed more than once.
fn add_copied_in(alloc: Global, copied: &mut List<u128>, acts: &[Act]) -> Result<(), AllocError>
    ensures { OnOk result (copied.new ≡ copied.old ++ copied_in acts.now) }
{
    let list = pushed(alloc, acts)?;
    let pushes = list.as_slice();
    for number in pushes {
        if is_twice(*number, pushes) {
            copied.push(alloc, *number)?;
        }
    }
    Ok(())
}

/// The messages that are pushed.
fn pushed(alloc: Global, acts: &[Act]) -> Result<List<u128>, AllocError>
    ensures { IfOk result (λ numbers. numbers ≡ pushed acts.now) }
{
    let mut numbers = List::new();
    for act in acts {
        if let Act::Push(number) = *act {
            numbers.push(alloc, number)?;
        }
    }
    Ok(numbers)
}

/// Whether a number is among them.
fn has(number: u128, numbers: &[u128]) -> bool
    ensures { result ≡ has number numbers.now }
{
    for one in numbers {
        if *one == number {
            return true;
        }
    }
    false
}

/// Whether a number is among them at least twice.
fn is_twice(number: u128, numbers: &[u128]) -> bool
    ensures { result ≡ nat_le 2 (times number numbers.now) }
{
    let mut found = false;
    for one in numbers {
        if *one == number {
            if found {
                return true;
            }
            found = true;
        }
    }
    false
}
