//! What a pass reads, and what becomes of it.
ghost use Rattle.store_model.specs.Replies.{bulks};
ghost use Rattle.store_model.specs.Words.{Words, command_of};
ghost use Rattle.store_model.specs.declared.command.Command.TheVariants.{Zrevrangebyscore};
ghost use Rattle.store_model.specs.declared.reply.Reply.{Reply};
ghost use Rattle.command_blocks.specs.Calls.{Call};
ghost use Rattle.place_model.specs.Histories.{History, IsHistoryPrefix, after, and_then, calls_of};
ghost use Rattle.queue_keys.specs.Names.{Bytes};
ghost use Rattle.command_blocks.specs.PassBlocks.{Done, IsPassBlock, IsReturns, due_words, tags_among};
ghost use Rattle.place_model.specs.Passes.{AccountsForAll, AreEarly, ReadsTags, due_members, gone_count, moved_count, stayed_count};
ghost use Rattle.command_blocks.specs.ReturnBlocks.{ReturnEnd};
ghost use Rattle.command_blocks.specs.Setting.{IsLawful, Setting};
ghost use Rattle.place_model.specs.Starts.{IsSound};
ghost use Rattle.place_model.specs.declared.history.Entry.TheVariants.{Call as Called};
ghost use Rattle.std.specs.Prelude.{◌≡◌, ◌+◌, ◌++◌, ◌<◌, ◌^◌, [], ◌∷◌, ℕ, ℤ, List, length};

/// What a range of the index gives are its members with these scores, the highest first, and each of them is a tag.
pub fn pass_reads<N>()
    ensures { (σ : Setting) → IsLawful σ → (h p : History N) (c at : ℕ) (words : Words) (reply : Reply) (high low : ℤ) (skip most : ℕ) (ms : List Bytes)
        → IsSound σ h → IsHistoryPrefix (and_then p (Called c at words reply ∷ [])) h
        → command_of words ≡ Zrevrangebyscore σ.index high low skip most → reply.answer ≡ bulks ms
        → ReadsTags σ (after p) at high low skip most ms }
{}

/// So a pass reads the ten due messages, and its returns, where none of them was contended, moved each of them, found it
/// gone, or let it stay: the three counts are all that it read.
pub fn pass_accounts<N>()
    ensures { (σ : Setting) → IsLawful σ → (h p : History N) (c at v : ℕ) (reply : Reply) (ms : List Bytes) (ends : List ReturnEnd) (l : List Call)
        → IsSound σ h → IsHistoryPrefix (and_then p (Called c at (due_words σ at v) reply ∷ [])) h → at < 2 ^ 63 → v < 2 ^ 63
        → reply.answer ≡ bulks ms → IsReturns σ (tags_among σ ms) (Done ends) l
        → (ms ≡ due_members σ (after p) at v) × (moved_count ends + gone_count ends + stayed_count ends ≡ length ms) }
{}

/// So each pass among a client's calls that wasn't ended early accounts for all that it read: by its own range call, its
/// own returns in their order, and their three counts.
pub fn whole_pass<N>()
    ensures { (σ : Setting) → IsLawful σ → (h : History N) (c v : ℕ) (token : Bytes) (ends : List ReturnEnd) (earlier l rest : List Call) → IsSound σ h
        → calls_of c h.entries ≡ earlier ++ (l ++ rest) → IsPassBlock σ token v (Done ends) l → AreEarly l → v < 2 ^ 63
        → AccountsForAll σ h c v token ends earlier l }
{}
