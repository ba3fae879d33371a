//! Lines of a schedule.
use wire_values::{Bytes, Words};

/// What a line begins: a block of a client's commands.
#[derive(Drop)]
pub enum Asked {
    /// A message is published.
    Publish {
        exchange: Bytes,
        routing_key: Bytes,
        priority: u8,
        task: Bytes,
        arguments: Bytes,
    },
    /// A binding is added to an exchange.
    Declare {
        exchange: Bytes,
        routing_key: Bytes,
        pattern: Bytes,
        queue: Bytes,
    },
    /// A binding is removed from an exchange.
    Undeclare {
        exchange: Bytes,
        routing_key: Bytes,
        pattern: Bytes,
        queue: Bytes,
    },
    /// A message is popped from the first of the queues that has one, by priority steps.
    Pop {
        queues: Words,
    },
    /// A tag is acknowledged.
    Ack {
        seed: u64,
        counter: u64,
    },
    /// A tag's message is returned to the tail of its queue.
    Restore {
        seed: u64,
        counter: u64,
    },
    /// A tag's message is returned to the head of its queue.
    Requeue {
        seed: u64,
        counter: u64,
    },
    /// The messages that have been unacknowledged for so many seconds are restored.
    Pass {
        visibility: u32,
    },
}

/// A line after the header. A client is its number, from 1 to 4,096.
#[derive(Drop)]
pub enum Line {
    /// A client more, with its seed from 1 to 2^62.
    Client { client: u32, seed: u64 },
    /// The present moment, in seconds; all from 2^40 on stand as 2^40.
    At { moment: u64 },
    /// A client begins a block.
    Begin { client: u32, asked: Asked },
    /// A client issues its next command.
    Step { client: u32 },
    /// A client issues the commands of its block to the end.
    Run { client: u32 },
    /// A client is gone.
    Stop { client: u32 },
}
