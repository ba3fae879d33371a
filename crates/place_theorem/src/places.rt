//! Where each message is, after each prefix of a sound history.
ghost use Rattle.store_model.specs.Words.{Words, command_of};
ghost use Rattle.store_model.specs.declared.command.Command.{Command};
ghost use Rattle.store_model.specs.declared.command.Command.TheVariants.{Exec};
ghost use Rattle.store_model.specs.declared.reply.Reply.{Reply};
ghost use Rattle.command_blocks.specs.Answers.{items_of};
ghost use Rattle.place_model.specs.Counts.{IsAccepted, IsPlaced, IsSingle, copy_count, place_count};
ghost use Rattle.place_model.specs.Histories.{Client, History, IsHistoryPrefix, after, and_then};
ghost use Rattle.queue_keys.specs.Names.{Bytes};
ghost use Rattle.place_model.specs.PlaceOf.{StopMoves, place_of};
ghost use Rattle.place_model.specs.Seen.{seen};
ghost use Rattle.command_blocks.specs.Setting.{IsLawful, Setting};
ghost use Rattle.place_model.specs.Starts.{IsSound};
ghost use Rattle.place_theorem.specs.Bindings.{ReturnsByBindings};
ghost use Rattle.place_model.specs.declared.history.Entry.TheVariants.{Call as Called, Stop};
ghost use Rattle.place_model.specs.declared.place.Place.TheVariants.{Never};
ghost use Rattle.wire_values.specs.declared.value.Value.{Value};
ghost use Rattle.std.specs.FinMap.{get};
ghost use Rattle.std.specs.Prelude.{◌≡◌, [], ◌∷◌, ℕ, List, Some};

/// Each prefix of a sound history is sound.
pub fn prefixes<N>()
    ensures { (σ : Setting) → (h p : History N) → IsSound σ h → IsHistoryPrefix p h → IsSound σ p }
{}

/// Each message that is accepted and single is in exactly one place, and in the table just where it is in the table's index.
pub fn one_place<N>()
    ensures { (σ : Setting) → IsLawful σ → (h p : History N) (t : Bytes) → IsSound σ h → IsHistoryPrefix p h
        → IsAccepted σ p t → IsSingle σ p t → IsPlaced σ p t }
{}

/// So the place that is reported of it is never "never".
pub fn somewhere<N>()
    ensures { (σ : Setting) → IsLawful σ → (h p : History N) (t : Bytes) → IsSound σ h → IsHistoryPrefix p h
        → IsAccepted σ p t → IsSingle σ p t → place_of σ p t ≡ Never → ⊥ }
{}

/// What wasn't accepted has no place: no list, no table, no hand, and no transaction that ended or copied it.
pub fn no_place<N>()
    ensures { (σ : Setting) → IsLawful σ → (h p : History N) (t : Bytes) → IsSound σ h → IsHistoryPrefix p h
        → (IsAccepted σ p t → ⊥) → (place_count σ (after p) t ≡ 0) × (copy_count σ (after p) t ≡ 0) }
{}

/// A stop alters no key. Each message's place stays, but for one at most, which goes from the client's hand to what is lost with it.
pub fn a_stop<N>()
    ensures { (σ : Setting) → IsLawful σ → (h p : History N) (c : ℕ) → IsSound σ h → IsHistoryPrefix (and_then p (Stop c ∷ [])) h
        → StopMoves σ p c }
{}

/// Each EXEC that answered an array, of a transaction with more than two commands, is that of a return, and returned its
/// message whole: out of the table and its index, and to each of the queues that its lookup gave, over what SMEMBERS answered
/// in this try of the bindings of the entry's own exchange.
pub fn whole_return<N>()
    ensures { (σ : Setting) → IsLawful σ → (h p : History N) (c at : ℕ) (words : Words) (reply : Reply) (cl : Client) (xs : List Value) (a b q : Command) (qs : List Command)
        → IsSound σ h → IsHistoryPrefix (and_then p (Called c at words reply ∷ [])) h
        → get (after p).clients c ≡ Some cl → command_of words ≡ Exec → items_of reply.answer ≡ Some xs → (seen σ cl.calls).since ≡ a ∷ b ∷ q ∷ qs
        → ReturnsByBindings σ cl.calls (after p).store.keys (after (and_then p (Called c at words reply ∷ []))).store.keys at }
{}
