//! Answers that a return tells apart.
ghost use Rattle.std.specs.Prelude.{◌≡◌, is_some, option_and_then};
ghost use Rattle.command_blocks.specs.Answers.{items_of, number_of};
ghost use Rattle.command_blocks.specs.Scripts.{each_told};
ghost use Rattle.returns.specs.Numbers.{are_numbers};

use command_blocks::answer::{integer, items};
use wire_values::Value;

/// Whether an answer is an array of integers.
pub(crate) fn are_integers(answer: &Value) -> bool
    ensures { result ≡ is_some (option_and_then (each_told number_of) (items_of answer.now)) }
{
    match items(answer) {
        Some(values) => are_numbers(values),
        None => false,
    }
}

/// Whether each of the values is an integer.
#[tactic(auto, using(crate::proofs::Numbers::numbers_more, crate::proofs::Numbers::numbers_not))]
fn are_numbers(values: &[Value]) -> bool
    ensures { result ≡ are_numbers values.now }
{
    for value in values {
        match integer(value) {
            Some(_) => {}
            None => return false,
        }
    }
    true
}
