//! Where messages go.
ghost use Rattle.std.specs.Prelude.{◌≡◌, IfOk, Some};
ghost use Rattle.queue_keys.specs.Layouts.{plain};
ghost use Rattle.command_blocks.specs.Setting.{way_keys};
ghost use Rattle.manner_texts.specs.Ways.{way_told};

use lookups::route_keys;
use queue_keys::step_of;
use std::alloc::{AllocError, Global};
use wire_values::{Bytes, Words};

/// Where a message goes.
#[derive(Drop)]
pub struct MessageWay {
    /// The exchange, empty where the message goes to its queue directly.
    pub exchange: Bytes,
    /// The routing key.
    pub routing_key: Bytes,
    /// The priority, from 0 to 9.
    pub priority: u8,
}

impl MessageWay {
    /// The keys of its queues, by the members of its exchange's bindings.
    pub fn keys(&self, alloc: Global, members: &[Bytes]) -> Result<Words, AllocError>
        ensures { IfOk result (λ keys. keys ≡ way_keys plain (Some (way_told self.now)) members.now) }
    {
        route_keys(
            alloc,
            step_of(self.priority),
            self.exchange.as_slice(),
            self.routing_key.as_slice(),
            members,
        )
    }
}
