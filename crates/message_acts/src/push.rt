//! The message that a call pushes directly.
ghost use Rattle.std.specs.Prelude.{◌≡◌};
ghost use Rattle.message_acts.specs.Acts.{push_of, push_told};

use crate::act::{Act, CallKind, Telling};
use command_blocks::answer::integer;
use wire_values::Value;

/// The message that a call pushes directly: LPUSH of one envelope to a queue does, where it is answered by an integer.
pub fn direct_push(told: Telling, answer: &Value) -> Option<u128>
    ensures { result ≡ push_of told.kind told.act answer.now }
{
    match told.kind {
        CallKind::Pushes => push_told(told.act, integer(answer)),
        CallKind::Pops | CallKind::Begins | CallKind::Runs | CallKind::Others => None,
    }
}

/// The message of a push that was answered by an integer.
fn push_told(act: Act, answer: Option<i64>) -> Option<u128>
    ensures { result ≡ push_told act answer }
{
    let Some(_) = answer else {
        return None;
    };
    match act {
        Act::Push(number) => Some(number),
        Act::Take(_) | Act::Nothing => None,
    }
}
