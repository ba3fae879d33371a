//! The manner of a client, one call at a time.
//!
//! `specs/Machine.antt` has the blocks as an exact machine: what words may come at a spot and ask, and where their answer
//! leads. `specs/Cursor.antt` has the same machine as a function of cursor and call, decided by tests alone, which a program
//! can run. The laws here say that both are the manner, no more and no less.
#![tactic(auto)]

ghost use Rattle.std.specs.Prelude.{◌≡◌, ◌⊎◌, ℕ, ◌^◌, ◌<◌, List, [], ◌∷◌, ◌++◌, Option, Some};
ghost use Rattle.wire_values.specs.declared.value.Value.{Value};
ghost use Rattle.store_model.specs.Words.{Words};
ghost use Rattle.queue_keys.specs.Names.{Bytes};
ghost use Rattle.command_blocks.specs.Setting.{Setting, IsLawful};
ghost use Rattle.command_blocks.specs.Calls.{Call};
ghost use Rattle.command_blocks.specs.Blocks.{IsFrontOfBlocks, IsUnlisted, IsMannered};
ghost use Rattle.manner_laws.specs.Spots.{Spot, Free, Ask};
ghost use Rattle.manner_laws.specs.Machine.{Asks, TellsSpot, Runs, RunsThrough, RunsOff, TellsExchanges};
ghost use Rattle.manner_laws.specs.Cursor.{ask_at, spot_after, At, Unlisted, Unmannered, judge, cursor_of, IsReadable, HaveMomentsOf64Bits};
ghost use Rattle.manner_laws.specs.LayoutKeys.{LayoutsTell};

// The prefixes of blocks of a client are just the lists of calls that the exact machine runs through from its start.
pub fn exact_machine()
    ensures { (σ : Setting) → IsLawful σ → TellsExchanges σ → (s : ℕ) (l : List Call) → (IsFrontOfBlocks σ s l → RunsThrough σ s l) × (RunsThrough σ s l → IsFrontOfBlocks σ s l) }
{}

// And the manner of a client is that: its calls run through the machine, or they leave it at the last answer.
pub fn exact_manner()
    ensures { (σ : Setting) → IsLawful σ → TellsExchanges σ → (s : ℕ) (l : List Call) → (IsMannered σ s l → RunsThrough σ s l ⊎ RunsOff σ s l) × (RunsThrough σ s l ⊎ RunsOff σ s l → IsMannered σ s l) }
{}

// The cursor judges a client's calls one by one just as its manner does: it comes to a spot just where they are a prefix of
// blocks, to `Unlisted` just where the answer to the last one isn't listed, and to neither just where they aren't mannered.
pub fn cursor_exact()
    ensures front { (σ : Setting) (exchange_at : Bytes → Option Bytes) → IsLawful σ → IsReadable σ exchange_at → (s : ℕ) (l : List Call) → HaveMomentsOf64Bits l
        → (IsFrontOfBlocks σ s l → (c : Spot) × (cursor_of σ exchange_at s l ≡ At c)) × ((c : Spot) → cursor_of σ exchange_at s l ≡ At c → IsFrontOfBlocks σ s l) }
    ensures unlisted { (σ : Setting) (exchange_at : Bytes → Option Bytes) → IsLawful σ → IsReadable σ exchange_at → (s : ℕ) (l : List Call) → HaveMomentsOf64Bits l
        → (IsUnlisted σ s l → cursor_of σ exchange_at s l ≡ Unlisted) × (cursor_of σ exchange_at s l ≡ Unlisted → IsUnlisted σ s l) }
    ensures mannered { (σ : Setting) (exchange_at : Bytes → Option Bytes) → IsLawful σ → IsReadable σ exchange_at → (s : ℕ) (l : List Call) → HaveMomentsOf64Bits l
        → (IsMannered σ s l → cursor_of σ exchange_at s l ≡ Unmannered → ⊥) × ((cursor_of σ exchange_at s l ≡ Unmannered → ⊥) → IsMannered σ s l) }
{}

// A cursor is the machine: its two functions say what words ask and where answers lead, and one more call is one step.
pub fn cursor_steps()
    ensures asks { (σ : Setting) (exchange_at : Bytes → Option Bytes) → IsLawful σ → IsReadable σ exchange_at → (s : ℕ) (c : Spot) (a : ℕ) (words : Words) (q : Ask) → a < 2 ^ 64
        → (ask_at σ exchange_at s c a words ≡ Some q → Asks σ s c a words q) × (Asks σ s c a words q → ask_at σ exchange_at s c a words ≡ Some q) }
    ensures tells { (σ : Setting) (s : ℕ) (q : Ask) (r : Value) (c : Spot) → (spot_after σ s q r ≡ Some c → TellsSpot σ s q r c) × (TellsSpot σ s q r c → spot_after σ s q r ≡ Some c) }
    ensures next { (σ : Setting) (exchange_at : Bytes → Option Bytes) (s : ℕ) (l : List Call) (x : Call) → cursor_of σ exchange_at s (l ++ x ∷ []) ≡ judge σ exchange_at s (cursor_of σ exchange_at s l) x }
{}

// The keys of each lawful layout tell the cursor what it needs.
pub fn layouts_tell()
    ensures { LayoutsTell }
{}
