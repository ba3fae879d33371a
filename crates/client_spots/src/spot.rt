//! The spot of a client.
ghost use Rattle.std.specs.Prelude.{◌≡◌};
ghost use Rattle.manner_laws.specs.Spots.{Free};
ghost use Rattle.client_spots.specs.Stands.{spot_of};

use wire_values::{Bytes, Words};

/// Before which command of a block a client is.
#[derive(Clone, Copy, Drop)]
pub enum Stand {
    /// At a block's start.
    Free,
    /// The bindings of an exchange were read for a publication, which may end here.
    Listed,
    /// A publication has keys to push to, or has none left.
    Pushing,
    /// A message was popped: MULTI is next.
    Popped,
    /// ZADD is next.
    PopBegun,
    /// HSET is next.
    PopIndexed,
    /// Of an end: ZREM is next.
    EndBegun,
    /// HDEL is next.
    EndRemoved,
    /// Of a pop or an end: EXEC is next.
    Filled,
    /// Of a return that hasn't shown its tag: HGET is next.
    Looking,
    /// Before a try.
    Waiting,
    /// HGET is next.
    Watched,
    /// UNWATCH is next.
    Leaving,
    /// SMEMBERS is next.
    Asking,
    /// MULTI is next, or UNWATCH where there is no key.
    Ready,
    /// ZREM is next.
    Begun,
    /// HDEL is next.
    Removed,
    /// Pushes are next, and then EXEC.
    Putting,
    /// Of a pass: the index is to be read.
    Locked,
    /// The tags are returned one after the other, and then the mutex is watched.
    Turning,
    /// GET of the mutex is next.
    Releasing,
    /// The mutex is the pass's own: MULTI is next.
    Own,
    /// DEL is next.
    ReleaseBegun,
    /// EXEC is next.
    ReleaseDeleted,
    /// The mutex is another's, or nobody's: UNWATCH is next.
    Foreign,
}

/// What the tries of a return are of.
#[derive(Clone, Copy, Drop)]
pub enum Tried {
    /// A return that hasn't shown its side yet.
    Open,
    /// A return at the head.
    Left,
    /// A return at the tail.
    Right,
    /// A pass's.
    OfPass,
}

/// Which answers to a command are listed, and what they tell.
#[derive(Clone, Copy, Drop)]
pub enum Awaited {
    /// An integer.
    Count,
    /// OK.
    Consent,
    /// QUEUED.
    Queueing,
    /// Two integers.
    Counts,
    /// Anything but an error.
    Anything,
    /// The bindings of a publication's exchange.
    Bindings,
    /// A message, or none.
    Message,
    /// An entry, or none.
    Entry,
    /// The bindings of an entry's exchange.
    Routes,
    /// A transaction that returns a message.
    Move,
    /// The mutex.
    Lock,
    /// Members of the index.
    Due,
    /// The mutex's holder.
    Holder,
    /// The transaction that lets go of the mutex.
    Release,
}

/// Where a client is: its stand, and the texts that it needs there.
#[derive(Drop)]
pub struct ClientSpot {
    /// The seed of the client's tags.
    pub seed: u64,
    /// How many tags it drew before its block.
    pub drawn: u64,
    /// How many passes it made before its block.
    pub passes: u64,
    /// Before which command it is.
    pub stand: Stand,
    /// What its tries are of.
    pub tried: Tried,
    /// How many tries came before.
    pub tries: u8,
    /// The text of the tag that is popped, ended or returned.
    pub tag: Bytes,
    /// The exchange whose bindings were read, or are to be read.
    pub exchange: Bytes,
    /// The envelope that is pushed, was popped or is returned.
    pub envelope: Bytes,
    /// The entry that was read.
    pub entry: Bytes,
    /// The bindings that were read, or the keys to push to.
    pub keys: Words,
    /// The tags that a pass has still to return.
    pub tags: Words,
}

impl ClientSpot {
    /// A client of this seed that said nothing yet; takes no memory.
    pub fn new(seed: u64) -> ClientSpot
        ensures spot { spot_of result ≡ Free 0 0 }
        ensures seed { result.seed ≡ seed }
    {
        ClientSpot {
            seed,
            drawn: 0,
            passes: 0,
            stand: Stand::Free,
            tried: Tried::Open,
            tries: 0,
            tag: Bytes::new(),
            exchange: Bytes::new(),
            envelope: Bytes::new(),
            entry: Bytes::new(),
            keys: Words::new(),
            tags: Words::new(),
        }
    }
}
