//! The queues of a pop.
ghost use Rattle.std.specs.Prelude.{◌≡◌, ◌≤◌, length, true};
ghost use Rattle.unacked.specs.Queues.{are_names, are_some};

use queue_keys::QueueName;
use wire_values::List;

/// The queues of a pop, 1 to 1,023, so that a command names all their keys.
#[derive(Debug, Drop)]
pub(crate) struct Queues {
    pub(crate) names: List<QueueName>,
    ghost lawful: { are_names names ≡ true },
    ghost some: { are_some names ≡ true },
    ghost few: { length names ≤ 1023 },
}

impl Queues {
    /// These queues.
    pub(crate) fn new(names: List<QueueName>) -> Queues
        requires some { 1 ≤ length names }
        requires few { length names ≤ 1023 }
        ensures { result.names ≡ names }
    {
        check_names(names.as_slice());
        Queues { names }
    }
}

/// Says of each queue that its name is lawful, as the type of names has it.
fn check_names(names: &[QueueName])
    ensures { are_names names.now ≡ true }
{
    for name in names {
        let _bytes = name.bytes();
    }
}
