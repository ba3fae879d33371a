//! How commands are spelled as words.
ghost use Rattle.numerals.specs.Integers.{integer_of, natural_of};
ghost use Rattle.store_model.specs.Seconds.{seconds_of, within_seconds};
ghost use Rattle.store_model.specs.Words.{bare, brpop_of, command_of, connection_command, faulty, hash_command, key_command, lasting, list_command, named, range_of, select_of, expire_of, zadd_of, set_command, set_of, sorted_set_command, transaction_command, upper_byte, with_one, with_rest, with_some, with_three, with_two, zrevrangebyscore_of};
ghost use Rattle.std.specs.Prelude.{◌≡◌, Bool, List, [], ◌∷◌, IfOk, MatchOption, None, Some, false, map as mapped, true, ℕ};

use numerals::{integer, natural};
use std::alloc::{AllocError, Global};
use store_model::{Command, Fault, RANGE_LIMIT};
use store_tables::Deque;
use wire_values::{Bytes, Words};

/// The byte as a capital letter.
pub fn upper_byte(byte: u8) -> u8
    ensures { result ≡ upper_byte byte }
{
    if 97 <= byte && byte <= 122 {
        byte - 32
    } else {
        byte
    }
}

// The text in capital letters.
fn upper(alloc: Global, word: &[u8]) -> Result<Vec<u8>, AllocError>
    ensures { IfOk result (λ v. v.items ≡ mapped upper_byte word.now) }
{
    word.iter().map(|byte| upper_byte(*byte)).collect(alloc)
}

fn faulty(fault: Fault) -> Command
    ensures { result ≡ faulty fault }
{
    Command::Faulty(fault, false)
}

// The only argument, if there is just one.
fn one(alloc: Global, args: &[Bytes]) -> Result<Option<Bytes>, AllocError>
    ensures { IfOk result (λ r. (heard : Bool) (f : List ℕ → Command) → MatchOption r (with_one heard f args.now ≡ Command.Faulty Fault.Arity heard) (λ x. with_one heard f args.now ≡ f x)) }
{
    let mut words = Deque::copied(alloc, args)?;
    let Some(word) = words.pop_front() else {
        return Ok(None);
    };
    if !words.is_empty() {
        return Ok(None);
    }
    Ok(Some(word))
}

// The arguments, if there are any.
fn some(alloc: Global, args: &[Bytes]) -> Result<Option<Deque<Bytes>>, AllocError>
    ensures { IfOk result (λ r. (f : List (List ℕ) → Command) → MatchOption r (with_some f args.now ≡ faulty Fault.Arity) (λ x. with_some f args.now ≡ f x)) }
{
    if args.is_empty() {
        return Ok(None);
    }
    Ok(Some(Deque::copied(alloc, args)?))
}

// The first argument and the others, if there are two or more.
fn rest(alloc: Global, args: &[Bytes]) -> Result<Option<(Bytes, Deque<Bytes>)>, AllocError>
    ensures { IfOk result (λ r. (f : List ℕ → List (List ℕ) → Command) → MatchOption r (with_rest f args.now ≡ faulty Fault.Arity) (λ x. with_rest f args.now ≡ f x.0 x.1)) }
{
    let mut words = Deque::copied(alloc, args)?;
    let Some(first) = words.pop_front() else {
        return Ok(None);
    };
    if words.is_empty() {
        return Ok(None);
    }
    Ok(Some((first, words)))
}

// The seconds that a key lives, 1 to 4,294,967,295, that the word spells.
fn seconds(word: &[u8]) -> Option<u32>
    ensures { result ≡ seconds_of word.now }
{
    in_range(natural(word))
}

fn in_range(number: Option<u64>) -> Option<u32>
    ensures { result ≡ within_seconds number }
{
    let Some(number) = number else {
        return None;
    };
    if number == 0 || number > 4_294_967_295 {
        return None;
    }
    Some(number as u32)
}

// SET of a copied key and text.
fn set_text(
    alloc: Global,
    key: &Bytes,
    text: &Bytes,
    absent: bool,
    life: Option<u32>,
) -> Result<Command, AllocError>
    ensures { IfOk result (λ command. command ≡ Command.Set key.now text.now absent life) }
{
    let key = key.copy(alloc)?;
    let text = text.copy(alloc)?;
    Ok(Command::Set(key, text, absent, life))
}

// SET for as many seconds as the word spells.
fn set_lasting(
    alloc: Global,
    key: &Bytes,
    text: &Bytes,
    absent: bool,
    life: &Bytes,
) -> Result<Command, AllocError>
    ensures { IfOk result (λ command. command ≡ lasting key.now text.now absent (seconds_of life.now)) }
{
    match seconds(life.as_slice()) {
        Some(life) => set_text(alloc, key, text, absent, Some(life)),
        None => Ok(faulty(Fault::Integer)),
    }
}

// SET with NX.
fn set_new(alloc: Global, key: &Bytes, text: &Bytes, option: &Bytes) -> Result<Command, AllocError>
    ensures { IfOk result (λ command. command ≡ set_of (key.now ∷ text.now ∷ option.now ∷ [])) }
{
    if option.as_slice() != b"NX".as_slice() {
        return Ok(faulty(Fault::Syntax));
    }
    set_text(alloc, key, text, true, None)
}

// SET with EX and seconds.
fn set_expiring(
    alloc: Global,
    key: &Bytes,
    text: &Bytes,
    option: &Bytes,
    life: &Bytes,
) -> Result<Command, AllocError>
    ensures { IfOk result (λ command. command ≡ set_of (key.now ∷ text.now ∷ option.now ∷ life.now ∷ [])) }
{
    if option.as_slice() != b"EX".as_slice() {
        return Ok(faulty(Fault::Syntax));
    }
    set_lasting(alloc, key, text, false, life)
}

// SET with NX, EX and seconds.
fn set_new_expiring(
    alloc: Global,
    key: &Bytes,
    text: &Bytes,
    first: &Bytes,
    second: &Bytes,
    life: &Bytes,
) -> Result<Command, AllocError>
    ensures { IfOk result (λ command. command ≡ set_of (key.now ∷ text.now ∷ first.now ∷ second.now ∷ life.now ∷ [])) }
{
    let is_lawful = first.as_slice() == b"NX".as_slice() && second.as_slice() == b"EX".as_slice();
    if !is_lawful {
        return Ok(faulty(Fault::Syntax));
    }
    set_lasting(alloc, key, text, true, life)
}

// SET with NX, EX and seconds, or both.
fn set_of(alloc: Global, args: &[Bytes]) -> Result<Command, AllocError>
    ensures { IfOk result (λ command. command ≡ set_of args.now) }
{
    match args {
        [key, text] => set_text(alloc, key, text, false, None),
        [key, text, option] => set_new(alloc, key, text, option),
        [key, text, option, life] => set_expiring(alloc, key, text, option, life),
        [key, text, first, second, life] => {
            set_new_expiring(alloc, key, text, first, second, life)
        }
        [] | [_] | [_, _, _, _, _, _, ..] => Ok(faulty(Fault::Arity)),
    }
}

// EXPIRE with a key and seconds.
fn expire_of(alloc: Global, args: &[Bytes]) -> Result<Command, AllocError>
    ensures { IfOk result (λ command. command ≡ with_two (λ k s. expire_of k (seconds_of s)) args.now) }
{
    match args {
        [key, life] => match seconds(life.as_slice()) {
            Some(seconds) => Ok(Command::Expire(key.copy(alloc)?, seconds)),
            None => Ok(faulty(Fault::Integer)),
        },
        [] | [_] | [_, _, _, ..] => Ok(faulty(Fault::Arity)),
    }
}

// BRPOP with one or more keys and a time.
fn brpop_of(alloc: Global, args: &[Bytes]) -> Result<Command, AllocError>
    ensures { IfOk result (λ command. command ≡ brpop_of args.now) }
{
    let mut keys = Deque::copied(alloc, args)?;
    let Some(time) = keys.pop_back() else {
        return Ok(faulty(Fault::Arity));
    };
    if keys.is_empty() {
        return Ok(faulty(Fault::Arity));
    }
    let Some(_) = natural(time.as_slice()) else {
        return Ok(faulty(Fault::Integer));
    };
    Ok(Command::Brpop(keys))
}

// ZADD with a key, a score and a member.
fn zadd_of(alloc: Global, args: &[Bytes]) -> Result<Command, AllocError>
    ensures { IfOk result (λ command. command ≡ with_three (λ k s x. zadd_of k x (integer_of s)) args.now) }
{
    match args {
        [key, score, member] => match integer(score.as_slice()) {
            Some(score) => {
                let key = key.copy(alloc)?;
                let member = member.copy(alloc)?;
                Ok(Command::Zadd(key, score, member))
            }
            None => Ok(faulty(Fault::Integer)),
        },
        [] | [_] | [_, _] | [_, _, _, _, ..] => Ok(faulty(Fault::Arity)),
    }
}

fn range_of(
    key: Bytes,
    high: Option<i64>,
    low: Option<i64>,
    skip: Option<u64>,
    most: Option<u64>,
) -> Command
    ensures { result ≡ range_of key high low skip most }
{
    let Some(high) = high else {
        return faulty(Fault::Integer);
    };
    let Some(low) = low else {
        return faulty(Fault::Integer);
    };
    let Some(skip) = skip else {
        return faulty(Fault::Integer);
    };
    let Some(most) = most else {
        return faulty(Fault::Integer);
    };
    Command::Zrevrangebyscore(key, high, low, skip, most)
}

// ZREVRANGEBYSCORE with its bounds, and LIMIT with an offset and a count.
fn zrevrangebyscore_of(alloc: Global, args: &[Bytes]) -> Result<Command, AllocError>
    ensures { IfOk result (λ command. command ≡ zrevrangebyscore_of args.now) }
{
    match args {
        [key, high, low] => {
            let key = key.copy(alloc)?;
            let (high, low) = (integer(high.as_slice()), integer(low.as_slice()));
            Ok(range_of(key, high, low, Some(0), Some(RANGE_LIMIT)))
        }
        [key, high, low, word, skip, most] => {
            if word.as_slice() != b"LIMIT".as_slice() {
                return Ok(faulty(Fault::Syntax));
            }
            limited(alloc, key, high, low, skip, most)
        }
        [] | [_] | [_, _] | [_, _, _, _] | [_, _, _, _, _] | [_, _, _, _, _, _, _, ..] => {
            Ok(faulty(Fault::Arity))
        }
    }
}

// ZREVRANGEBYSCORE with its bounds, an offset and a count.
fn limited(
    alloc: Global,
    key: &Bytes,
    high: &Bytes,
    low: &Bytes,
    skip: &Bytes,
    most: &Bytes,
) -> Result<Command, AllocError>
    ensures { IfOk result (λ command. command ≡ range_of key.now (integer_of high.now) (integer_of low.now) (natural_of skip.now) (natural_of most.now)) }
{
    let key = key.copy(alloc)?;
    let (high, low) = (integer(high.as_slice()), integer(low.as_slice()));
    let (skip, most) = (natural(skip.as_slice()), natural(most.as_slice()));
    Ok(range_of(key, high, low, skip, most))
}

// GET with a key.
fn get_of(alloc: Global, args: &[Bytes]) -> Result<Command, AllocError>
    ensures { IfOk result (λ command. command ≡ with_one false Command.Get args.now) }
{
    let Some(key) = one(alloc, args)? else {
        return Ok(faulty(Fault::Arity));
    };
    Ok(Command::Get(key))
}

// DEL with its keys.
fn del_of(alloc: Global, args: &[Bytes]) -> Result<Command, AllocError>
    ensures { IfOk result (λ command. command ≡ with_some Command.Del args.now) }
{
    let Some(keys) = some(alloc, args)? else {
        return Ok(faulty(Fault::Arity));
    };
    Ok(Command::Del(keys))
}

// Commands on texts and on keys of any kind.
fn key_command(alloc: Global, name: &[u8], args: &[Bytes]) -> Option<Result<Command, AllocError>>
    ensures { MatchOption result (None ≡ key_command name.now args.now) (λ read. IfOk read (λ command. Some command ≡ key_command name.now args.now)) }
{
    if name == b"GET".as_slice() {
        return Some(get_of(alloc, args));
    }
    if name == b"SET".as_slice() {
        return Some(set_of(alloc, args));
    }
    if name == b"DEL".as_slice() {
        return Some(del_of(alloc, args));
    }
    if name == b"EXPIRE".as_slice() {
        return Some(expire_of(alloc, args));
    }
    None
}

// LPUSH with a key and the elements.
fn lpush_of(alloc: Global, args: &[Bytes]) -> Result<Command, AllocError>
    ensures { IfOk result (λ command. command ≡ with_rest Command.Lpush args.now) }
{
    let Some((key, others)) = rest(alloc, args)? else {
        return Ok(faulty(Fault::Arity));
    };
    Ok(Command::Lpush(key, others))
}

// RPUSH with a key and the elements.
fn rpush_of(alloc: Global, args: &[Bytes]) -> Result<Command, AllocError>
    ensures { IfOk result (λ command. command ≡ with_rest Command.Rpush args.now) }
{
    let Some((key, others)) = rest(alloc, args)? else {
        return Ok(faulty(Fault::Arity));
    };
    Ok(Command::Rpush(key, others))
}

// RPOP with a key.
fn rpop_of(alloc: Global, args: &[Bytes]) -> Result<Command, AllocError>
    ensures { IfOk result (λ command. command ≡ with_one false Command.Rpop args.now) }
{
    let Some(key) = one(alloc, args)? else {
        return Ok(faulty(Fault::Arity));
    };
    Ok(Command::Rpop(key))
}

// LLEN with a key.
fn llen_of(alloc: Global, args: &[Bytes]) -> Result<Command, AllocError>
    ensures { IfOk result (λ command. command ≡ with_one false Command.Llen args.now) }
{
    let Some(key) = one(alloc, args)? else {
        return Ok(faulty(Fault::Arity));
    };
    Ok(Command::Llen(key))
}

// Commands on lists.
fn list_command(alloc: Global, name: &[u8], args: &[Bytes]) -> Option<Result<Command, AllocError>>
    ensures { MatchOption result (None ≡ list_command name.now args.now) (λ read. IfOk read (λ command. Some command ≡ list_command name.now args.now)) }
{
    if name == b"LPUSH".as_slice() {
        return Some(lpush_of(alloc, args));
    }
    if name == b"RPUSH".as_slice() {
        return Some(rpush_of(alloc, args));
    }
    if name == b"RPOP".as_slice() {
        return Some(rpop_of(alloc, args));
    }
    if name == b"BRPOP".as_slice() {
        return Some(brpop_of(alloc, args));
    }
    if name == b"LLEN".as_slice() {
        return Some(llen_of(alloc, args));
    }
    None
}

// SADD with a key and the members.
fn sadd_of(alloc: Global, args: &[Bytes]) -> Result<Command, AllocError>
    ensures { IfOk result (λ command. command ≡ with_rest Command.Sadd args.now) }
{
    let Some((key, others)) = rest(alloc, args)? else {
        return Ok(faulty(Fault::Arity));
    };
    Ok(Command::Sadd(key, others))
}

// SREM with a key and the members.
fn srem_of(alloc: Global, args: &[Bytes]) -> Result<Command, AllocError>
    ensures { IfOk result (λ command. command ≡ with_rest Command.Srem args.now) }
{
    let Some((key, others)) = rest(alloc, args)? else {
        return Ok(faulty(Fault::Arity));
    };
    Ok(Command::Srem(key, others))
}

// SMEMBERS with a key.
fn smembers_of(alloc: Global, args: &[Bytes]) -> Result<Command, AllocError>
    ensures { IfOk result (λ command. command ≡ with_one false Command.Smembers args.now) }
{
    let Some(key) = one(alloc, args)? else {
        return Ok(faulty(Fault::Arity));
    };
    Ok(Command::Smembers(key))
}

// Commands on sets.
fn set_command(alloc: Global, name: &[u8], args: &[Bytes]) -> Option<Result<Command, AllocError>>
    ensures { MatchOption result (None ≡ set_command name.now args.now) (λ read. IfOk read (λ command. Some command ≡ set_command name.now args.now)) }
{
    if name == b"SADD".as_slice() {
        return Some(sadd_of(alloc, args));
    }
    if name == b"SREM".as_slice() {
        return Some(srem_of(alloc, args));
    }
    if name == b"SMEMBERS".as_slice() {
        return Some(smembers_of(alloc, args));
    }
    None
}

// HSET with a key, a field and its value.
fn hset_of(alloc: Global, args: &[Bytes]) -> Result<Command, AllocError>
    ensures { IfOk result (λ command. command ≡ with_three Command.Hset args.now) }
{
    match args {
        [key, field, value] => {
            let key = key.copy(alloc)?;
            let field = field.copy(alloc)?;
            let value = value.copy(alloc)?;
            Ok(Command::Hset(key, field, value))
        }
        [] | [_] | [_, _] | [_, _, _, _, ..] => Ok(faulty(Fault::Arity)),
    }
}

// HGET with a key and a field.
fn hget_of(alloc: Global, args: &[Bytes]) -> Result<Command, AllocError>
    ensures { IfOk result (λ command. command ≡ with_two Command.Hget args.now) }
{
    match args {
        [first, second] => {
            let first = first.copy(alloc)?;
            let second = second.copy(alloc)?;
            Ok(Command::Hget(first, second))
        }
        [] | [_] | [_, _, _, ..] => Ok(faulty(Fault::Arity)),
    }
}

// HDEL with a key and the fields.
fn hdel_of(alloc: Global, args: &[Bytes]) -> Result<Command, AllocError>
    ensures { IfOk result (λ command. command ≡ with_rest Command.Hdel args.now) }
{
    let Some((key, others)) = rest(alloc, args)? else {
        return Ok(faulty(Fault::Arity));
    };
    Ok(Command::Hdel(key, others))
}

// HLEN with a key.
fn hlen_of(alloc: Global, args: &[Bytes]) -> Result<Command, AllocError>
    ensures { IfOk result (λ command. command ≡ with_one false Command.Hlen args.now) }
{
    let Some(key) = one(alloc, args)? else {
        return Ok(faulty(Fault::Arity));
    };
    Ok(Command::Hlen(key))
}

// Commands on hashes.
fn hash_command(alloc: Global, name: &[u8], args: &[Bytes]) -> Option<Result<Command, AllocError>>
    ensures { MatchOption result (None ≡ hash_command name.now args.now) (λ read. IfOk read (λ command. Some command ≡ hash_command name.now args.now)) }
{
    if name == b"HSET".as_slice() {
        return Some(hset_of(alloc, args));
    }
    if name == b"HGET".as_slice() {
        return Some(hget_of(alloc, args));
    }
    if name == b"HDEL".as_slice() {
        return Some(hdel_of(alloc, args));
    }
    if name == b"HLEN".as_slice() {
        return Some(hlen_of(alloc, args));
    }
    None
}

// ZREM with a key and the members.
fn zrem_of(alloc: Global, args: &[Bytes]) -> Result<Command, AllocError>
    ensures { IfOk result (λ command. command ≡ with_rest Command.Zrem args.now) }
{
    let Some((key, others)) = rest(alloc, args)? else {
        return Ok(faulty(Fault::Arity));
    };
    Ok(Command::Zrem(key, others))
}

// ZCARD with a key.
fn zcard_of(alloc: Global, args: &[Bytes]) -> Result<Command, AllocError>
    ensures { IfOk result (λ command. command ≡ with_one false Command.Zcard args.now) }
{
    let Some(key) = one(alloc, args)? else {
        return Ok(faulty(Fault::Arity));
    };
    Ok(Command::Zcard(key))
}

// Commands on sorted sets.
fn sorted_set_command(
    alloc: Global,
    name: &[u8],
    args: &[Bytes],
) -> Option<Result<Command, AllocError>>
    ensures { MatchOption result (None ≡ sorted_set_command name.now args.now) (λ read. IfOk read (λ command. Some command ≡ sorted_set_command name.now args.now)) }
{
    if name == b"ZADD".as_slice() {
        return Some(zadd_of(alloc, args));
    }
    if name == b"ZREM".as_slice() {
        return Some(zrem_of(alloc, args));
    }
    if name == b"ZCARD".as_slice() {
        return Some(zcard_of(alloc, args));
    }
    if name == b"ZREVRANGEBYSCORE".as_slice() {
        return Some(zrevrangebyscore_of(alloc, args));
    }
    None
}

// WATCH with its keys.
fn watch_of(alloc: Global, args: &[Bytes]) -> Result<Command, AllocError>
    ensures { IfOk result (λ command. command ≡ with_some Command.Watch args.now) }
{
    let Some(keys) = some(alloc, args)? else {
        return Ok(faulty(Fault::Arity));
    };
    Ok(Command::Watch(keys))
}

// Commands of transactions.
fn transaction_command(
    alloc: Global,
    name: &[u8],
    args: &[Bytes],
) -> Option<Result<Command, AllocError>>
    ensures { MatchOption result (None ≡ transaction_command name.now args.now) (λ read. IfOk read (λ command. Some command ≡ transaction_command name.now args.now)) }
{
    if name == b"WATCH".as_slice() {
        return Some(watch_of(alloc, args));
    }
    if name == b"UNWATCH".as_slice() {
        if !args.is_empty() {
            return Some(Ok(Command::Faulty(Fault::Arity, false)));
        }
        return Some(Ok(Command::Unwatch));
    }
    if name == b"MULTI".as_slice() {
        if !args.is_empty() {
            return Some(Ok(Command::Faulty(Fault::Arity, false)));
        }
        return Some(Ok(Command::Multi));
    }
    if name == b"EXEC".as_slice() {
        if !args.is_empty() {
            return Some(Ok(Command::Faulty(Fault::Arity, false)));
        }
        return Some(Ok(Command::Exec));
    }
    if name == b"DISCARD".as_slice() {
        if !args.is_empty() {
            return Some(Ok(Command::Faulty(Fault::Arity, false)));
        }
        return Some(Ok(Command::Discard));
    }
    None
}

// SELECT with a number.
fn select_of(args: &[Bytes]) -> Command
    ensures { result ≡ with_one false (λ n. select_of (integer_of n)) args.now }
{
    match args {
        [number] => match integer(number.as_slice()) {
            Some(number) => Command::Select(number),
            None => faulty(Fault::Integer),
        },
        [] | [_, _, ..] => faulty(Fault::Arity),
    }
}

// PUBLISH with a channel and a message.
fn publish_of(alloc: Global, args: &[Bytes]) -> Result<Command, AllocError>
    ensures { IfOk result (λ command. command ≡ with_two Command.Publish args.now) }
{
    match args {
        [first, second] => {
            let first = first.copy(alloc)?;
            let second = second.copy(alloc)?;
            Ok(Command::Publish(first, second))
        }
        [] | [_] | [_, _, _, ..] => Ok(faulty(Fault::Arity)),
    }
}

// SUBSCRIBE with a channel.
fn subscribe_of(alloc: Global, args: &[Bytes]) -> Result<Command, AllocError>
    ensures { IfOk result (λ command. command ≡ with_one true Command.Subscribe args.now) }
{
    let Some(channel) = one(alloc, args)? else {
        return Ok(Command::Faulty(Fault::Arity, true));
    };
    Ok(Command::Subscribe(channel))
}

// UNSUBSCRIBE with a channel.
fn unsubscribe_of(alloc: Global, args: &[Bytes]) -> Result<Command, AllocError>
    ensures { IfOk result (λ command. command ≡ with_one true Command.Unsubscribe args.now) }
{
    let Some(channel) = one(alloc, args)? else {
        return Ok(Command::Faulty(Fault::Arity, true));
    };
    Ok(Command::Unsubscribe(channel))
}

// Commands on the connection and on channels.
fn connection_command(
    alloc: Global,
    name: &[u8],
    args: &[Bytes],
) -> Option<Result<Command, AllocError>>
    ensures { MatchOption result (None ≡ connection_command name.now args.now) (λ read. IfOk read (λ command. Some command ≡ connection_command name.now args.now)) }
{
    if name == b"PING".as_slice() {
        if !args.is_empty() {
            return Some(Ok(Command::Faulty(Fault::Arity, true)));
        }
        return Some(Ok(Command::Ping));
    }
    if name == b"SELECT".as_slice() {
        return Some(Ok(select_of(args)));
    }
    if name == b"PUBLISH".as_slice() {
        return Some(publish_of(alloc, args));
    }
    if name == b"SUBSCRIBE".as_slice() {
        return Some(subscribe_of(alloc, args));
    }
    if name == b"UNSUBSCRIBE".as_slice() {
        return Some(unsubscribe_of(alloc, args));
    }
    None
}

// The command of this name, in capital letters, with these arguments.
fn named(alloc: Global, name: &[u8], args: &[Bytes]) -> Result<Command, AllocError>
    ensures { IfOk result (λ command. command ≡ named name.now args.now) }
{
    if let Some(read) = key_command(alloc, name, args) {
        return read;
    }
    if let Some(read) = list_command(alloc, name, args) {
        return read;
    }
    if let Some(read) = set_command(alloc, name, args) {
        return read;
    }
    if let Some(read) = hash_command(alloc, name, args) {
        return read;
    }
    if let Some(read) = sorted_set_command(alloc, name, args) {
        return read;
    }
    if let Some(read) = transaction_command(alloc, name, args) {
        return read;
    }
    if let Some(read) = connection_command(alloc, name, args) {
        return read;
    }
    Ok(faulty(Fault::Name))
}

/// The command that the words spell: total, since a faulty spelling is a command that answers its error.
#[tactic(auto, unfolding(store_model::specs::Words::command_of))]
pub fn command_of(alloc: Global, words: &Words) -> Result<Command, AllocError>
    ensures { IfOk result (λ command. command ≡ command_of words.now) }
{
    match words.as_slice() {
        [] => Ok(faulty(Fault::Name)),
        [name, args @ ..] => {
            let capitals = upper(alloc, name.as_slice())?;
            named(alloc, capitals.as_slice(), args)
        }
    }
}
