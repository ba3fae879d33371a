//! Delivery tags: the identity of a message.
ghost use Rattle.std.specs.Prelude.{◌≡◌, ◌*◌, ◌+◌, ◌/◌, ◌%◌, ◌<◌, ◌^◌, ◌↔◌, Some, option_map};
ghost use Rattle.delivery_tags.specs.Tags.{tag_number, tag_of_text, tag_text};
ghost use Rattle.delivery_tags.specs.declared.tag.Tag.{Tag};

use uuid::Uuid;

/// A delivery tag: a producer's seed in the high 64 bits, its counter in the low 64 bits.
///
/// Its text is that of a UUID: 36 bytes, hyphenated, in lower case, the high byte first. The tag of seed 7 and
/// counter 1 is `00000000-0000-0007-0000-000000000001`.
#[derive(Clone, Copy, Debug, PartialEq, Eq)]
pub struct Tag(pub u128);

impl Tag {
    /// The tag of a seed and a counter.
    pub fn of(seed: u64, counter: u64) -> Tag
        ensures { result.0 ≡ tag_number seed counter }
    {
        Tag(seed as u128 * (1u128 << 64) + counter as u128)
    }

    /// The seed of its producer.
    pub fn seed(self) -> u64
        ensures { result ≡ self.0 / 2 ^ 64 }
    {
        (self.0 >> 64) as u64
    }

    /// Which of its producer's tags it is.
    pub fn counter(self) -> u64
        ensures { result ≡ self.0 % 2 ^ 64 }
    {
        (self.0 % (1u128 << 64)) as u64
    }

    /// The text of the tag, 36 bytes of ASCII.
    pub fn text(self) -> [u8; 36]
        ensures value { result ≡ tag_text self.0 }
        // The text is read as this tag.
        ensures read { tag_of_text result ≡ Some self.0 }
    {
        text_of_number(self.0)
    }

    /// The tag whose text the bytes are. None where they are no tag's text: upper case, braces, a `urn:uuid:` front
    /// and a UUID without hyphens are refused.
    pub fn read(bytes: &[u8]) -> Option<Tag>
        // A tag's text is read as that tag, and nothing else is.
        ensures exact { (t : Tag) → t.0 < 2 ^ 128 → (result ≡ Some t) ↔ (bytes.now ≡ tag_text t.0) }
        ensures value { option_map (λ t. t.0) result ≡ tag_of_text bytes.now }
    {
        let Ok(text) = str::from_utf8(bytes) else {
            return None;
        };
        let Ok(id) = Uuid::parse_str(text) else {
            return None;
        };
        let tag = Tag(id.as_u128());
        if bytes == tag.text().as_slice() {
            Some(tag)
        } else {
            None
        }
    }
}

/// The text of a tag's number.
fn text_of_number(number: u128) -> [u8; 36]
    ensures value { result ≡ tag_text number }
    ensures read { tag_of_text result ≡ Some number }
{
    let mut buffer = [0u8; 36];
    let text = Uuid::from_u128(number)
        .hyphenated()
        .encode_lower(&mut buffer);
    let mut out = [0u8; 36];
    out.copy_from_slice(text.as_bytes());
    out
}
