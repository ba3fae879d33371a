//! Words that name a tag.
ghost use Rattle.client_asks.specs.Asks.{IsTagSaid};

use manner_texts::{is_tag, says_three, third};
use wire_values::Bytes;

/// The third word, where it is a tag's text, and the words are these two and it.
pub(crate) fn said_tag<'a>(words: &'a [Bytes], name: &[u8], key: &[u8]) -> Option<&'a [u8]>
    ensures { IsTagSaid name.now key.now words.now result }
{
    let tag = third(words);
    if !is_tag(tag) {
        return None;
    }
    if !says_three(words, name, key, tag) {
        return None;
    }
    Some(tag)
}
