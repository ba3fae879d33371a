//! All envelopes of a message are the one that was published, but for the marks of redelivery.
ghost use Rattle.command_blocks.specs.Blocks.{AreBlocks, drawn_by};
ghost use Rattle.command_blocks.specs.Calls.{Call};
ghost use Rattle.command_blocks.specs.EnvelopeTexts.{texts};
ghost use Rattle.place_model.specs.Histories.{Client, History, IsHistoryPrefix, after};
ghost use Rattle.place_model.specs.Identity.{HasAnywhere, HasOrigin, IsNowhere, IsPublished};
ghost use Rattle.queue_keys.specs.Layouts.{Layout, is_layout};
ghost use Rattle.queue_keys.specs.Names.{Bytes};
ghost use Rattle.command_blocks.specs.Setting.{setting_of};
ghost use Rattle.place_model.specs.Starts.{IsSound};
ghost use Rattle.place_theorem.specs.Begun.{BeginsBlocks};
ghost use Rattle.std.specs.FinMap.{get};
ghost use Rattle.std.specs.Prelude.{◌≡◌, ◌<◌, true, ℕ, List, Some};

/// Each envelope that stands in a list or in the table, or that a client has in hand, has the body of one that
/// was published under its tag, or that stood in the start.
pub fn origin<N>()
    ensures { (κ : Layout) → is_layout κ ≡ true → let σ = setting_of κ texts in (h p : History N) (t b : Bytes) → IsSound σ h → IsHistoryPrefix p h
        → HasAnywhere σ (after p) t b → HasOrigin σ p t b }
{}

/// What is published under one tag has one body, after each prefix of a history, so in the whole of it.
pub fn one_publication<N>()
    ensures { (κ : Layout) → is_layout κ ≡ true → let σ = setting_of κ texts in (h p : History N) (t b b' : Bytes) → IsSound σ h → IsHistoryPrefix p h
        → IsPublished σ (after p) t b → IsPublished σ (after p) t b' → b ≡ b' }
{}

/// So all envelopes of a tag in lists, table and hands have one body, at whatever moments of a history they stand there.
pub fn one_tree<N>()
    ensures { (κ : Layout) → is_layout κ ≡ true → let σ = setting_of κ texts in (h p p' : History N) (t b b' : Bytes) → IsSound σ h → IsHistoryPrefix p h → IsHistoryPrefix p' h
        → HasAnywhere σ (after p) t b → HasAnywhere σ (after p') t b' → b ≡ b' }
{}

/// A tag that a client hasn't drawn stands nowhere: nobody published it, and no list, no table, no saved start, no hand and no
/// transaction has it. Where a client's calls so far begin these blocks, which may be amid one of them, it has drawn no more tags
/// than these blocks draw: that of a publication with its first call. So the next tag is that of the number above, also where a
/// publication is begun, and it and each later one stand nowhere.
pub fn fresh_tag<N>()
    ensures { (κ : Layout) → is_layout κ ≡ true → let σ = setting_of κ texts in (h p : History N) → IsSound σ h → IsHistoryPrefix p h
        → (c : ℕ) (cl : Client) (bs : List (List Call)) (blocks : AreBlocks σ cl.seed 0 0 bs) (n : ℕ)
        → get (after p).clients c ≡ Some cl → BeginsBlocks cl.calls bs → drawn_by σ cl.seed 0 0 bs blocks < n
        → IsNowhere σ p (σ.tag cl.seed n) }
{}
