//! What a client may begin, and why it doesn't.
use command_blocks::Side;
use envelope::{Envelope, EnvelopeFault, Tag};
use queue_keys::{NameFault, QueueName};
use routes::Declaration;
use sealed_drafts::Draft;
use wire_values::{List, Words};

/// A block that a client may begin.
#[derive(Drop)]
pub enum Block {
    /// A binding goes into its exchange's set, or out of it.
    Declare(Box<Declaration>),
    /// A message is sealed under the client's next tag, and published. Its id, exchange and routing key are UTF-8.
    Publish(Box<Draft>),
    /// A message whose tag is the client's next one is published, as a retry is.
    Again(Box<Envelope>),
    /// A message is popped from the first of these queues that has one, and put into the table of messages that aren't
    /// acknowledged. They are 1 to 1,023 queues.
    Pop(List<QueueName>),
    /// The message of this tag is acknowledged.
    End(Tag),
    /// The message of this tag is returned to its queues, at this side of them.
    Return { tag: Tag, side: Side },
    /// What has stood in the table for this visibility timeout, in seconds, or longer is returned to its queues.
    Pass { visibility: u32 },
    /// One command that concerns no message: PING, SELECT 0, LLEN; SUBSCRIBE, UNSUBSCRIBE and PUBLISH on the channel of
    /// control messages; LPUSH, BRPOP of one key and EXPIRE on a list of control replies (Kombu's pidbox).
    Neutral(Words),
}

/// Why a client doesn't begin a block, by the first reason that holds.
#[derive(Clone, Copy, Debug, PartialEq, Eq, Drop)]
pub enum BeginFault {
    /// It drew its last tag: its counter is at `u64::MAX`.
    NoTag,
    /// A message goes to the empty exchange, and its routing key is no lawful name of a queue.
    Name(NameFault),
    /// The draft can't be sealed.
    Draft(EnvelopeFault),
    /// The command isn't one of those that concern no message.
    BadNeutral,
    /// There was no memory.
    Memory,
}
