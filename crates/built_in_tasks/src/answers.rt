//! What the built-in tasks answer.
ghost use Rattle.std.specs.Prelude.{◌≡◌, ◌+ℤ◌, IfOk, codes, option_map};
ghost use Rattle.serde_json.specs.View.{items_view, view as data_of};
ghost use Rattle.built_in_tasks.specs.BuiltIns.{again_answer, add_answer, bad_arguments, delay_in, echo_answer, echo_of, fail_answer, if_64_bits, if_seconds, items_delay, items_sum, positional, sum_of_two};
ghost use Rattle.place_model.specs.declared.heard.Outcome.TheVariants.{Failure};

use crate::arguments::{positional, whole};
use envelope::Tree;
use envelope_trees::walk::holds_float;
use place_model::Outcome;
use serde_json::Value;
use std::alloc::{AllocError, Global};
use wire_values::Bytes;

/// After how many seconds `tasks.again` runs again where it isn't told.
const DELAY: u64 = 180;

/// `tasks.add`: the sum of two whole numbers of 64 bits as decimal text, where it has 64 bits; else the failure
/// `bad arguments`. There are no keyword arguments.
pub fn add(alloc: Global, args: &Tree, kwargs: &Tree) -> Result<Outcome, AllocError>
    ensures { IfOk result (λ outcome. outcome ≡ add_answer (data_of args.now) (data_of kwargs.now)) }
{
    match sum(args, kwargs) {
        Some(sum) => {
            let text = format!(in alloc; "{sum}")?;
            Ok(Outcome::Success(Bytes::from_vec(text.into_bytes())))
        }
        None => refuse(alloc),
    }
}

/// `tasks.echo`: its one argument as compact JSON; else, and where it holds a number that isn't whole, the failure
/// `bad arguments`. There are no keyword arguments.
#[tactic(auto, using(crate::proofs::Shapes::more_than_one))]
pub fn echo(alloc: Global, args: &Tree, kwargs: &Tree) -> Result<Outcome, AllocError>
    ensures { IfOk result (λ outcome. outcome ≡ echo_answer (data_of args.now) (data_of kwargs.now)) }
{
    match positional(args, kwargs) {
        Some([item]) => echo_item(alloc, item),
        Some([]) => refuse(alloc),
        Some([_, _, ..]) => refuse(alloc),
        None => refuse(alloc),
    }
}

/// `tasks.fail`: the failure `failed`, whatever the arguments are.
pub fn fail(alloc: Global) -> Result<Outcome, AllocError>
    ensures { IfOk result (λ outcome. outcome ≡ fail_answer) }
{
    Ok(Outcome::Failure(Bytes::from_slice(alloc, b"failed")?))
}

/// `tasks.again`: it is to run again after as many seconds as its one argument says, a whole number below 2^32, or after
/// 180 seconds where it has none; else the failure `bad arguments`. There are no keyword arguments.
pub fn again(alloc: Global, args: &Tree, kwargs: &Tree) -> Result<Outcome, AllocError>
    ensures { IfOk result (λ outcome. outcome ≡ again_answer (data_of args.now) (data_of kwargs.now)) }
{
    match delay(args, kwargs) {
        Some(seconds) => Ok(Outcome::Retry(seconds)),
        None => refuse(alloc),
    }
}

/// The failure of arguments that a task doesn't take.
fn refuse(alloc: Global) -> Result<Outcome, AllocError>
    ensures { IfOk result (λ outcome. outcome ≡ bad_arguments) }
{
    Ok(Outcome::Failure(Bytes::from_slice(alloc, b"bad arguments")?))
}

/// The sum of two arguments.
#[tactic(auto, using(crate::proofs::Shapes::not_two))]
fn sum(args: &Tree, kwargs: &Tree) -> Option<i128>
    ensures { result ≡ items_sum (positional (data_of args.now) (data_of kwargs.now)) }
{
    match positional(args, kwargs) {
        Some([first, second]) => sum_of_two(whole(first)?, whole(second)?),
        Some([]) => None,
        Some([_first]) => None,
        Some([_, _, _, ..]) => None,
        None => None,
    }
}

/// The sum of two whole numbers of 64 bits, where it has 64 bits.
fn sum_of_two(first: i128, second: i128) -> Option<i128>
    ensures { result ≡ if_64_bits (first +ℤ second) }
{
    let sum = first.checked_add(second)?;
    if sum >= -(1 << 63) && sum < (1 << 64) {
        Some(sum)
    } else {
        None
    }
}

/// The compact JSON of an argument that has no float.
fn echo_item(alloc: Global, item: &Value) -> Result<Outcome, AllocError>
    ensures { IfOk result (λ outcome. outcome ≡ echo_of (data_of item.now)) }
{
    if holds_float(item) {
        return refuse(alloc);
    }
    Ok(Outcome::Success(Bytes::from_vec(item.to_vec(alloc)?)))
}

/// After how many seconds the arguments say that it runs again.
#[tactic(auto, using(crate::proofs::Shapes::many))]
fn delay(args: &Tree, kwargs: &Tree) -> Option<u64>
    ensures { result ≡ items_delay (positional (data_of args.now) (data_of kwargs.now)) }
{
    match positional(args, kwargs) {
        Some([]) => Some(DELAY),
        Some([item]) => seconds(item),
        Some([_, _, ..]) => None,
        None => None,
    }
}

/// The seconds that an argument says: a whole number below 2^32.
fn seconds(item: &Value) -> Option<u64>
    ensures { result ≡ delay_in (data_of item.now) }
{
    let seconds = item.as_u64()?;
    if seconds < 1 << 32 {
        Some(seconds)
    } else {
        None
    }
}
