//! The premises of the laws can be met.
ghost use Rattle.queue_keys.specs.Layouts.{Layout, is_layout, plain};
ghost use Rattle.command_blocks.specs.EnvelopeTexts.{texts};
ghost use Rattle.command_blocks.specs.Setting.{IsLawful, Setting, setting_of};
ghost use Rattle.place_model.specs.Starts.{IsSoundStart};
ghost use Rattle.std.specs.FinMap.{empty};
ghost use Rattle.std.specs.Prelude.{◌≡◌, [], true};

/// The setting of Kombu's envelopes is lawful in each lawful layout, the plain one among them.
pub fn envelopes_are_lawful()
    ensures layouts { (l : Layout) → is_layout l ≡ true → IsLawful (setting_of l texts) }
    ensures plain { IsLawful (setting_of plain texts) }
{}

/// A history may begin with no key.
pub fn an_empty_start()
    ensures { (σ : Setting) → IsLawful σ → IsSoundStart σ empty [] }
{}
