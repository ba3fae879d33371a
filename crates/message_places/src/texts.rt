//! Celery's texts keep what the laws of places need of texts.
ghost use Rattle.manner_laws.specs.Cursor.{IsReadable};
ghost use Rattle.manner_laws.specs.LayoutKeys.{TellsShortExchanges, exchange_of_key};
ghost use Rattle.command_blocks.specs.EnvelopeTexts.{plain_setting, texts};
ghost use Rattle.queue_keys.specs.Layouts.{Layout, is_layout};
ghost use Rattle.command_blocks.specs.Setting.{IsLawful, IsTexts, setting_of};
ghost use Rattle.std.specs.Prelude.{◌≡◌, true};

/// Tags, envelopes and entries keep their facts, and an envelope's exchange is UTF-8 of at most 255 bytes.
pub fn texts_serve()
    ensures facts { IsTexts texts }
    ensures exchanges { TellsShortExchanges texts }
{}

/// With them each lawful layout gives a lawful setting, and so do the keys without a prefix.
pub fn layouts_serve()
    ensures all { (l : Layout) → is_layout l ≡ true → IsLawful (setting_of l texts) }
    ensures plain { IsLawful plain_setting }
{}

/// And its keys and envelopes tell a cursor what it needs.
pub fn layouts_tell()
    ensures { (l : Layout) → is_layout l ≡ true → IsReadable (setting_of l texts) (exchange_of_key l) }
{}
