//! How far a publication is.
ghost use Rattle.std.specs.Prelude.{◌<◌, length};

use queue_keys::QueueName;
use wire_values::List;

/// Which command of a publication is next.
#[derive(Drop)]
pub(crate) enum Publishing {
    /// LPUSH to the queue that the routing key names, on the empty exchange.
    Direct,
    /// SMEMBERS of the exchange's bindings.
    Asking,
    /// LPUSH to one of the queues that were found.
    Pushing(Route),
}

/// The queues that were found, and how many of them got the message: not all of them yet.
#[derive(Debug, Drop)]
pub(crate) struct Route {
    pub(crate) queues: List<QueueName>,
    pub(crate) place: usize,
    ghost next: { place < length queues },
}
