//! What the commands of the store keep: laws over its definitions, whose functions have empty bodies.
//!
//! A command tells which keys it altered. Marks on connections, and so transactions that watch keys, rest on one law: a
//! key that it doesn't tell of holds what it held.
#![tactic(auto)]

ghost use Rattle.std.specs.FinMap.{FinMap};
ghost use Rattle.std.specs.Prelude.{◌≡◌, ◌↔◌, List, false, true, ℕ, ℤ};
ghost use Rattle.wire_values.specs.Order.{bytes_cmp};
ghost use Rattle.wire_grammar.specs.Fits.{IsWithinLimits};
ghost use Rattle.store_model.specs.Commands.{Around};
ghost use Rattle.store_model.specs.Connections.{Conns};
ghost use Rattle.store_model.specs.Keys.{Keys};
ghost use Rattle.store_model.specs.Store.{State, apply_of, empty_state, gone_of, ready_of};
ghost use Rattle.store_model.specs.Words.{Bytes, Words};
ghost use Rattle.store_model.specs.declared.command.Command.{Command};
ghost use Rattle.store_laws.specs.Laws.{DropsDue, IsElsewhere, IsGone, KeepsOthers, MarksDue, QueueKeepsOthers};
ghost use Rattle.store_laws.specs.Ranges.{GivesRange};
ghost use Rattle.store_laws.specs.StoreLimits.{HasLimits, ReplyFits, WouldWait, has_counts};

/// One law for every command: a key that isn't among those that it altered holds what it held.
pub fn one_law()
    ensures { (e : Around) (m : Keys) (command : Command) (k : Bytes) → KeepsOthers e m command k }
{}

/// The same of the commands of a transaction: a key that none of them altered holds what it held.
pub fn queue_law()
    ensures { (at : ℕ) (m : Keys) (cs : Conns) (commands : List Command) (k : Bytes) → QueueKeepsOthers at m cs commands k }
{}

/// Settling at a moment drops the keys whose expiry is reached, and no others.
pub fn settled_keys()
    ensures { (s : State) (at : ℕ) (k : Bytes) → DropsDue s at k }
{}

/// Settling at a moment marks the connections that watch a key whose expiry is reached, and changes nothing else of any.
pub fn settled_marks()
    ensures { (s : State) (at : ℕ) → MarksDue s at }
{}

/// A connection's command, whatever its words: there are keys that were altered, each other key holds what it held, and
/// each other connection is marked where it watches an altered key, may have further messages pending, and is else as before.
pub fn step_law()
    ensures { (s : State) (at c : ℕ) (words : Words) → IsElsewhere s (apply_of s at c words).0 c }
{}

/// A connection that goes is as one that was never known, and all else is as before.
pub fn gone_law()
    ensures { (s : State) (c : ℕ) → IsGone s (gone_of s c) c }
{}

/// A range by score is what the sorted set holds between the bounds, the higher scores first and of equal scores the later
/// in byte order; there is one, and its members are what ZREVRANGEBYSCORE gives, less those that are passed over.
pub fn range_law()
    ensures { (high low : ℤ) (h : FinMap bytes_cmp ℤ) (skip most : ℕ) → GivesRange high low skip most h }
{}

/// A store stays within its limits: the empty one is, each command whose words fit leaves it so, whatever the command,
/// and so does a connection that goes. So no key, text, element, member, field or message that it holds is too long for
/// the wire, no list, set, hash or sorted set is empty, a queue has at most 4,096 commands, all of which may be queued, and
/// stands beside no channels, and at most 1,024 messages of a connection are pending.
pub fn limits_stay()
    ensures begun { HasLimits empty_state }
    ensures kept { (s : State) (at c : ℕ) (words : Words) → HasLimits s → IsWithinLimits words → HasLimits (apply_of s at c words).0 }
    ensures gone { (s : State) (c : ℕ) → HasLimits s → HasLimits (gone_of s c) }
{}

/// Each value that a store within its limits answers to words that fit can be written, as far as its integers are of 64
/// bits; those of the code always are.
pub fn replies_fit()
    ensures { (s : State) (at c : ℕ) (words : Words) → HasLimits s → IsWithinLimits words
        → has_counts (apply_of s at c words).1.answer ≡ true → ReplyFits (apply_of s at c words).1 }
{}

/// A command isn't ready exactly where its words are a lawful BRPOP that would answer the null array at this moment.
pub fn ready_law()
    ensures { (s : State) (at : ℕ) (words : Words) → HasLimits s → (ready_of s at words ≡ false) ↔ WouldWait s at words }
{}
