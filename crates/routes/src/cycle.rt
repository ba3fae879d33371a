//! The round in which a consumer looks at its queues (Kombu's `round_robin_cycle`).
ghost use Rattle.std.specs.Prelude.{List as Listed, ◌≡◌, ◌<◌, ◌∷◌, ◌++◌, [], ℕ, IfSome, get_or, position, length};
ghost use Rattle.queue_keys.specs.Names.{same};
ghost use Rattle.std.specs.List.{remove};
ghost use Rattle.routes.specs.Cycles.{rotated};

use queue_keys::{QueueName, are_same};
use std::marker::Model;

/// The order in which queues are looked at: one that gave a message goes to the end. Contracts see it as the list of
/// their names.
#[derive(Drop)]
pub struct Cycle {
    queues: Vec<QueueName>,
}

impl Model for Cycle {
    ghost use Rattle.std.specs.Prelude.{List as Listed, ℕ};

    ghost Value = { Listed (Listed ℕ) };

    ghost view = { λ c. c.queues.items };
}

impl Cycle {
    /// The round that begins with these queues in this order; takes no memory.
    pub fn new(queues: Vec<QueueName>) -> Cycle
        ensures { result ≡ queues.items }
    {
        Cycle { queues }
    }

    /// The queues in their order; takes no memory.
    pub fn order(&self) -> &[QueueName]
        ensures { result.now ≡ self.now }
    {
        self.queues.as_slice()
    }

    /// Has the first queue of this name, which gave a message, go to the end. Where there is none nothing changes; takes
    /// no memory.
    pub fn rotate(&mut self, gave: &[u8])
        ensures order { self.new ≡ rotated gave.now self.old }
        ensures count { length self.new ≡ length self.old }
    {
        if let Some(place) = place_of(self.queues.as_slice(), gave) {
            move_to_end(self.queues.as_mut_slice(), place);
        }
    }
}

/// The place of the first queue of this name.
fn place_of(queues: &[QueueName], name: &[u8]) -> Option<usize>
    ensures { result ≡ position (λ queue. same name.now queue) queues.now }
{
    queues
        .iter()
        .position(|queue| are_same(name, queue.bytes()))
}

/// Has the queue at a place go to the end.
fn move_to_end(queues: &mut [QueueName], place: usize)
    requires { place < length queues.old }
    ensures order { (q : Listed ℕ) → queues.new ≡ remove queues.old place ++ get_or queues.old place q ∷ [] }
    ensures count { length queues.new ≡ length queues.old }
{
    queues[place..].rotate_left(1);
}
