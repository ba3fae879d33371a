//! The parts of a field, as they are spelled.
ghost use Rattle.std.specs.Prelude.{◌≡◌};
ghost use Rattle.crontabs.specs.FieldTexts.{dashed_range, field_part, plain_in, single_number, span_in, part_step, stepped_in};

use crate::stepped_range::SteppedRange;
use line_text::{moment_in, number_in};

/// What a part spells, of numbers between these: a star, a number, or two with a dash between; after a star or two numbers
/// a slash and a step.
pub(crate) fn field_part(low: u64, high: u64, part: &str) -> Option<SteppedRange>
    ensures { result ≡ field_part low high part.now }
{
    match part.split_once('/') {
        Some((span, step)) => stepped_in(low, high, span, step),
        None => plain_in(low, high, part),
    }
}

/// A star or two numbers, and a step.
fn stepped_in(low: u64, high: u64, span: &str, step: &str) -> Option<SteppedRange>
    ensures { result ≡ stepped_in low high span.now step.now }
{
    let step = part_step(step)?;
    span_in(low, high, step, span)
}

/// A step.
fn part_step(word: &str) -> Option<u64>
    ensures { result ≡ part_step word.now }
{
    let step = moment_in(word)?;
    if step >= 1 { Some(step) } else { None }
}

/// A star or two numbers, in steps.
fn span_in(low: u64, high: u64, step: u64, span: &str) -> Option<SteppedRange>
    ensures { result ≡ span_in low high step span.now }
{
    if span == "*" {
        return Some(SteppedRange {
            first: low,
            last: high,
            step,
        });
    }
    let (first, last) = span.split_once('-')?;
    dashed_range(low, high, step, first, last)
}

/// A star, two numbers or one.
fn plain_in(low: u64, high: u64, part: &str) -> Option<SteppedRange>
    ensures { result ≡ plain_in low high part.now }
{
    if part == "*" {
        return Some(SteppedRange {
            first: low,
            last: high,
            step: 1,
        });
    }
    match part.split_once('-') {
        Some((first, last)) => dashed_range(low, high, 1, first, last),
        None => single_number(low, high, part),
    }
}

/// Two numbers in their order, in steps.
fn dashed_range(low: u64, high: u64, step: u64, first: &str, last: &str) -> Option<SteppedRange>
    ensures { result ≡ dashed_range low high step first.now last.now }
{
    let first = number_in(low, high, first)?;
    let last = number_in(low, high, last)?;
    if first <= last {
        Some(SteppedRange { first, last, step })
    } else {
        None
    }
}

/// A number.
fn single_number(low: u64, high: u64, word: &str) -> Option<SteppedRange>
    ensures { result ≡ single_number low high word.now }
{
    let number = number_in(low, high, word)?;
    Some(SteppedRange {
        first: number,
        last: number,
        step: 1,
    })
}
