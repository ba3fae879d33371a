//! The manner of a client, judged call by call.
ghost use Rattle.store_model.specs.Words.{Words};
ghost use Rattle.manner_laws.specs.Cursor.{At, HaveMomentsOf64Bits, Unlisted, Unmannered, ask_at, cursor_of};
ghost use Rattle.manner_laws.specs.LayoutKeys.{exchange_of_key};
ghost use Rattle.manner_laws.specs.Machine.{Asks};
ghost use Rattle.manner_laws.specs.Spots.{Ask, Spot};
ghost use Rattle.command_blocks.specs.Blocks.{IsFrontOfBlocks, IsMannered, IsUnlisted};
ghost use Rattle.command_blocks.specs.Calls.{Call};
ghost use Rattle.command_blocks.specs.EnvelopeTexts.{texts};
ghost use Rattle.queue_keys.specs.Layouts.{Layout, is_layout};
ghost use Rattle.command_blocks.specs.Setting.{setting_of};
ghost use Rattle.std.specs.Prelude.{◌≡◌, true, ◌^◌, ◌<◌, ℕ, List, Some};

/// The cursor judges a client's calls just as its manner does: it comes to a spot just where they are a prefix of blocks, to
/// `Unlisted` just where the answer to the last one isn't listed, and to neither just where they aren't mannered.
pub fn cursor_exact()
    ensures front { (κ : Layout) → is_layout κ ≡ true → let σ = setting_of κ texts in (s : ℕ) (l : List Call) → HaveMomentsOf64Bits l
        → (IsFrontOfBlocks σ s l → (c : Spot) × (cursor_of σ (exchange_of_key κ) s l ≡ At c)) × ((c : Spot) → cursor_of σ (exchange_of_key κ) s l ≡ At c → IsFrontOfBlocks σ s l) }
    ensures unlisted { (κ : Layout) → is_layout κ ≡ true → let σ = setting_of κ texts in (s : ℕ) (l : List Call) → HaveMomentsOf64Bits l
        → (IsUnlisted σ s l → cursor_of σ (exchange_of_key κ) s l ≡ Unlisted) × (cursor_of σ (exchange_of_key κ) s l ≡ Unlisted → IsUnlisted σ s l) }
    ensures mannered { (κ : Layout) → is_layout κ ≡ true → let σ = setting_of κ texts in (s : ℕ) (l : List Call) → HaveMomentsOf64Bits l
        → (IsMannered σ s l → cursor_of σ (exchange_of_key κ) s l ≡ Unmannered → ⊥) × ((cursor_of σ (exchange_of_key κ) s l ≡ Unmannered → ⊥) → IsMannered σ s l) }
{}

/// What its function asks at a spot is what the words ask there, no more and no less.
pub fn cursor_steps()
    ensures { (κ : Layout) → is_layout κ ≡ true → let σ = setting_of κ texts in (s : ℕ) (c : Spot) (a : ℕ) (words : Words) (q : Ask) → a < 2 ^ 64
        → (ask_at σ (exchange_of_key κ) s c a words ≡ Some q → Asks σ s c a words q) × (Asks σ s c a words q → ask_at σ (exchange_of_key κ) s c a words ≡ Some q) }
{}
