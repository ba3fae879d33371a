//! What the definitions of keys, lookups, tokens and settings keep, for every key layout: laws, whose functions have empty
//! bodies.
#![tactic(auto)]

ghost use Rattle.key_laws.specs.KeyLaws.{KeyTells, SplitTells, OnlyKeysSplit, OthersApart, PopsCount, PopsTell, StepsTell, RoutesTell, MembersTell, TokenTells};
ghost use Rattle.command_blocks.specs.EnvelopeTexts.{EnvelopesServe};
ghost use Rattle.key_laws.specs.Lookups.{LookupsTell, MembersSpell, OneLookup};
ghost use Rattle.key_laws.specs.PatternLaws.{PatternsTell};
ghost use Rattle.key_laws.specs.SettingLaws.{LayoutsServe};

/// A queue's key tells the queue and its step, and the split of a key gives them for such a key alone.
pub fn key_fact()
    ensures tells { KeyTells }
    ensures split { SplitTells }
    ensures only { OnlyKeysSplit }
{}

/// No other key that is written is a queue's, and none is that of the table or its index.
pub fn others_apart()
    ensures { OthersApart }
{}

/// The keys of a pop are queues', one for each queue at each step, and each priority has a step.
pub fn pops()
    ensures keys { PopsTell }
    ensures count { PopsCount }
    ensures steps { StepsTell }
{}

/// A lookup gives keys of queues, each once, and reads each member as it was made.
pub fn lookups()
    ensures keys { RoutesTell }
    ensures members { MembersTell }
{}

/// A queue is in the lookup of some members for a routing key exactly where one of them spells a binding of it, with the same
/// key and no pattern or with a pattern that matches; each stands there once, in byte order of the names, and no other list
/// is so. A member is read as the binding that it spells.
pub fn bound_queues()
    ensures lookup { LookupsTell }
    ensures only { OneLookup }
    ensures members { MembersSpell }
{}

/// A pattern matches a routing key exactly where its words fit the key's, the texts between the dots: each stands for itself,
/// `*` for one word and `#` for none or more.
pub fn pattern_words()
    ensures { PatternsTell }
{}

/// A token tells its seed and its number.
pub fn tokens()
    ensures { TokenTells }
{}

/// With texts that keep their facts, each lawful layout gives a lawful setting, and the texts of envelopes keep them.
pub fn layouts_serve()
    ensures layouts { LayoutsServe }
    ensures envelopes { EnvelopesServe }
{}
