//! Texts of tags.
ghost use Rattle.std.specs.Prelude.{◌≡◌};
ghost use Rattle.delivery_tags.specs.Tags.{is_tag};

use delivery_tags::Tag;

/// Whether it is a tag's text.
pub fn is_tag(text: &[u8]) -> bool
    ensures { result ≡ is_tag text.now }
{
    Tag::read(text).is_some()
}
