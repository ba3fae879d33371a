//! What a client that says blocks is.
ghost use Rattle.std.specs.Prelude.{List as Listed, ◌≡◌, ◌<◌, ◌∷◌, [], ◌++◌, ℕ, Bool, true, false, Option, option_map, Err, Some, None, IfOk, IfSome, IsSome, OnOk, alloc_error};
ghost use Rattle.store_model.specs.Limits.{moment_limit};
ghost use Rattle.store_model.specs.Words.{Words as Said};
ghost use Rattle.wire_grammar.specs.Fits.{IsWithinLimits};
ghost use Rattle.block_core.specs.declared.fault.ReplyFault.TheVariants.{Memory};
ghost use Rattle.command_blocks.specs.Scripts.{Over, Off, Script, next_words};
ghost use Rattle.steps.specs.Begins.{IsLawfulBlock, errand_of};
ghost use Rattle.steps.specs.Clients.{next_tag_of};
ghost use Rattle.steps.specs.declared.counts.ClientCounts.{ClientCounts};
ghost use Rattle.steps.specs.Ends.{TellsOfErrand};
ghost use Rattle.steps.specs.Errands.{Errand, HasSaidOf};
ghost use Rattle.steps.specs.Goings.{HasBegun, HasTakenReply, HasHeardOn, is_idle};
ghost use Rattle.steps.specs.Trips.{RoundTrip, trip};
ghost use Rattle.steps.specs.declared.ended.BlockEnd.{BlockEnd as End};

use crate::{BeginFault, Block, BlockEnd};
use block_core::ReplyFault;
use envelope::Tag;
use std::alloc::{AllocError, Global};
use store_model::Reply;
use wire_values::Words;

/// A client that says blocks, one after the other, command by command.
///
/// After want of memory in `begin` or `took` it is spent: `next` and `took` answer want of memory from then on.
pub trait Steps {
    /// Its seed, and how many tags it drew and passes it began.
    ghost client: { Self → ClientCounts };

    /// What is left to say of its block.
    ghost left: { Self → Script };

    /// It began this errand when its counters were so, and since then made these round trips.
    ghost had: { Self → ClientCounts → Errand → Listed RoundTrip → Type 0 };

    /// How its block ended, where that wasn't told yet.
    ghost ended: { Self → Option End };

    /// Whether memory was wanting.
    ghost spent: { Self → Bool };

    /// Whether a block may begin: there is none, or it is over.
    fn idle(&self) -> bool
        ensures { result ≡ is_idle (left self.now) };

    /// The tag that it draws next. None where it drew the last one.
    fn next_tag(&self) -> Option<Tag>
        ensures { option_map (λ tag. tag.0) result ≡ next_tag_of (client self.now) };

    /// Begins a block. A publication draws the next tag.
    ///
    /// # Errors
    /// The first of `NoTag`, `Name`, `Draft` that holds of a publication, or `BadNeutral`; then nothing changes, and no
    /// tag is drawn. `Memory` is want of memory.
    fn begin(&mut self, alloc: Global, block: Block) -> Result<(), BeginFault>
        requires idle { left self.old ≡ Over }
        requires lawful { IsLawfulBlock (client self.old) block }
        ensures begun { HasBegun client left had spent self.old self.new (errand_of (client self.old) block) result }
        // There is a first command to say.
        ensures says { OnOk result ((at : ℕ) → IsSome (next_words (left self.new) at)) };

    /// The next command, at this moment in seconds. None exactly where no block goes on: it is idle, or a reply was
    /// refused.
    ///
    /// # Errors
    /// Want of memory, now or in an earlier call.
    fn next(&self, alloc: Global, at: u64) -> Result<Option<Words>, AllocError>
        ensures words { IfOk result (λ words. words ≡ next_words (left self.now) at) }
        ensures limits { IfOk result (λ words. IfSome words IsWithinLimits) }
        ensures spent { spent self.now ≡ true → result ≡ Err alloc_error };

    /// Takes the reply to the command that was next at this moment.
    ///
    /// # Errors
    /// `Refused` with the reply exactly where the block lists no such answer there; it says nothing after that.
    /// `Memory` is want of memory, now or in an earlier call.
    fn took(&mut self, alloc: Global, at: u64, reply: &Reply) -> Result<(), ReplyFault>
        requires moment { at < moment_limit }
        requires asked { spent self.old ≡ false → IsSome (next_words (left self.old) at) }
        ensures taken { HasTakenReply left spent self.old self.new reply.now result }
        ensures end { OnOk result (left self.new ≡ Over → IsSome (ended self.new)) }
        ensures spent { spent self.old ≡ true → result ≡ Err Memory }
        ensures same { client self.new ≡ client self.old }
        // Whatever it had before, now it has had one round trip more.
        ensures had { (c : ClientCounts) (errand : Errand) (trips : Listed RoundTrip) (words : Said) → had self.old c errand trips
            → next_words (left self.old) at ≡ Some words → HasHeardOn (had self.new c errand) trips (trip at words reply.now) result };

    /// How the block ended, once, after its last reply.
    fn end(&mut self) -> Option<BlockEnd>
        ensures given { result ≡ ended self.old }
        ensures once { ended self.new ≡ None }
        ensures left { left self.new ≡ left self.old }
        ensures same { client self.new ≡ client self.old }
        ensures spent { spent self.new ≡ spent self.old }
        // What is told is what the round trips show.
        ensures tells { (c : ClientCounts) (errand : Errand) (trips : Listed RoundTrip) → had self.old c errand trips → IfSome result (TellsOfErrand errand trips) };

    /// What it had since it began a lawful errand was said by the errand's script, of which the rest is left.
    ghost says: { (s : Self) (c : ClientCounts) (errand : Errand) (trips : Listed RoundTrip) → had s c errand trips → HasSaidOf c errand trips (left s) };

    /// An end is there only where nothing is left to say.
    ghost ends: { (s : Self) (end : End) → ended s ≡ Some end → left s ≡ Over };

    /// Where memory was wanting no block may begin.
    ghost stops: { (s : Self) → spent s ≡ true → left s ≡ Off };
}
