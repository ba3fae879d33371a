//! Commands with their arguments.
use std::fmt;
use store_tables::Deque;
use wire_values::Bytes;

/// What is wrong with the words of a command, in the order in which it is looked for.
#[derive(Debug, Drop)]
pub enum Fault {
    /// No command has this name, or there are no words at all.
    Name,
    /// The command doesn't take this number of words.
    Arity,
    /// A fixed word, as NX, EX or LIMIT, isn't where it must be.
    Syntax,
    /// An integer isn't in its one spelling, or is out of its range.
    Integer,
}

/// A command of Redis with its arguments, named as there.
#[derive(Drop)]
pub enum Command {
    Ping,
    /// The number of a database.
    Select(i64),
    /// A key.
    Get(Bytes),
    /// A key, its text, whether the key must be absent, and the seconds that it lives.
    Set(Bytes, Bytes, bool, Option<u32>),
    /// The keys.
    Del(Deque<Bytes>),
    /// A key and the seconds that it lives.
    Expire(Bytes, u32),
    /// A key and the elements, each pushed at the head in turn.
    Lpush(Bytes, Deque<Bytes>),
    /// A key and the elements, each pushed at the tail in turn.
    Rpush(Bytes, Deque<Bytes>),
    /// A key.
    Rpop(Bytes),
    /// The keys, of which the first that is present decides.
    Brpop(Deque<Bytes>),
    /// A key of a list.
    Llen(Bytes),
    /// A key of a hash.
    Hlen(Bytes),
    /// A key of a sorted set.
    Zcard(Bytes),
    /// A key and the members.
    Sadd(Bytes, Deque<Bytes>),
    /// A key and the members.
    Srem(Bytes, Deque<Bytes>),
    /// A key.
    Smembers(Bytes),
    /// A key, a field and its value.
    Hset(Bytes, Bytes, Bytes),
    /// A key and a field.
    Hget(Bytes, Bytes),
    /// A key and the fields.
    Hdel(Bytes, Deque<Bytes>),
    /// A key, a score and a member.
    Zadd(Bytes, i64, Bytes),
    /// A key and the members.
    Zrem(Bytes, Deque<Bytes>),
    /// A key, the highest score, the lowest, how many members to pass over, and how many to give.
    Zrevrangebyscore(Bytes, i64, i64, u64, u64),
    /// The keys.
    Watch(Deque<Bytes>),
    Unwatch,
    Multi,
    Exec,
    Discard,
    /// A channel and a message.
    Publish(Bytes, Bytes),
    /// A channel.
    Subscribe(Bytes),
    /// A channel.
    Unsubscribe(Bytes),
    /// Words that spell no command, and whether they have the name of one that a subscribed connection may use.
    Faulty(Fault, bool),
}

impl fmt::Debug for Command {
    fn fmt<W: fmt::Write>(&self, f: &mut fmt::Formatter<W>) -> fmt::Result {
        f.write_str("Command")
    }
}
