//! Blocks and their scripts: laws over the definitions, whose functions have empty bodies.
//!
//! A script says a block's commands one by one, by the answers so far. What was said by the script of a lawful plan
//! begins a block of that plan; what isn't listed by the script is in no such block.
#![tactic(auto)]

ghost use Rattle.block_laws.specs.Rows.{BlocksAreSaid, PlansAreRows, TalksGoOn, TalksPutOff, TalksUnlisted};

/// Each plan's script can always be said to its end, and what was said to its end is the plan's block. What was said so
/// far begins such a block, or would with another answer to the last words.
pub fn rows()
    ensures whole { PlansAreRows }
    ensures listed { TalksGoOn }
    ensures unlisted { TalksPutOff }
{}

/// Each whole block of a plan is said by the plan's script to its end, and what isn't listed by the script begins no
/// block of the plan.
pub fn blocks_are_said()
    ensures said { BlocksAreSaid }
    ensures unlisted { TalksUnlisted }
{}
