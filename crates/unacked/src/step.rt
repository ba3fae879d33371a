//! The transaction by which the table of messages that are not acknowledged changes together with its index.
ghost use Rattle.std.specs.Prelude.{◌≡◌, ℕ, if◌then◌else◌};
ghost use Rattle.store_model.specs.Words.{Words as Said};
ghost use Rattle.command_blocks.specs.Answers.{numbers_of};
ghost use Rattle.unacked.specs.Steps.{HasExecuted, answered_left, course_left, executed_by};

use command_blocks::answer::{is_status, is_unit, two_integers};
use wire_values::Value;

/// Which command of the transaction comes next.
#[derive(Clone, Copy, Debug)]
pub(crate) enum Step {
    /// MULTI.
    Begin,
    /// The command on the index.
    Index,
    /// The command on the table.
    Table,
    /// EXEC.
    Run,
}

/// What an answer brings.
#[derive(Clone, Copy, Debug)]
pub(crate) enum Course {
    /// The next command may be sent.
    Next(Step),
    /// The transaction ran, and whether its command on the table counted one member.
    Ran(bool),
    /// The answer isn't a listed one.
    Refused,
}

impl Step {
    /// What an answer to the command of this step brings.
    pub(crate) fn answered(self, answer: &Value) -> Course
        ensures left { (index : ℕ → Said) (table : Said)
            → course_left index table result ≡ answered_left index table self answer.now }
        ensures ran { HasExecuted result answer.now }
    {
        match self {
            Step::Begin => next_if(is_status(answer, b"OK"), Step::Index),
            Step::Index => next_if(is_status(answer, b"QUEUED"), Step::Table),
            Step::Table => next_if(is_status(answer, b"QUEUED"), Step::Run),
            Step::Run => ran(answer),
        }
    }
}

/// The next step, where the answer is a listed one.
fn next_if(listed: bool, step: Step) -> Course
    ensures { result ≡ (if listed then Course.Next step else Course.Refused) }
{
    if listed {
        Course::Next(step)
    } else {
        Course::Refused
    }
}

/// What an answer to EXEC brings.
fn ran(answer: &Value) -> Course
    ensures { result ≡ executed_by (numbers_of answer.now) }
{
    match two_integers(answer) {
        Some((_, removed)) => Course::Ran(is_unit(removed)),
        None => Course::Refused,
    }
}
