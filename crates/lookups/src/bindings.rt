//! Bindings: what a member of an exchange's set spells (Kombu's Redis transport).
ghost use Rattle.std.specs.Prelude.{◌≡◌, ◌≤◌, ◌+◌, ◌-◌, [], ◌∷◌, drop, length, true, IfSome, MatchOption, Some, None};
ghost use Rattle.queue_keys.specs.Names.{has_front, is_name};
ghost use Rattle.lookups.specs.Parts.{bound_queue, binds_by, cut, separator_from, three_parts};

use crate::patterns::matches;
use queue_keys::{are_same, is_name};

/// The queue of the binding that a member spells, where the routing key goes to it.
///
/// A member is a routing key, a pattern and the lawful name of a queue, parted by 06 16 (hexadecimal); any other is
/// passed over.
pub(crate) fn bound_queue<'a>(routing_key: &[u8], member: &'a [u8]) -> Option<&'a [u8]>
    ensures queue { MatchOption result (bound_queue routing_key.now member.now ≡ None)
        (λ queue. bound_queue routing_key.now member.now ≡ Some queue.now) }
    ensures lawful { IfSome result (λ queue. is_name queue.now ≡ true) }
{
    let (direct, pattern, queue) = three_parts(member)?;
    if is_name(queue) && binds(direct, pattern, routing_key) {
        Some(queue)
    } else {
        None
    }
}

/// Whether a routing key goes to a binding: by its pattern, or with none by the same key.
fn binds(direct: &[u8], pattern: &[u8], routing_key: &[u8]) -> bool
    ensures { result ≡ binds_by direct.now pattern.now routing_key.now }
{
    if are_same(b"", pattern) {
        are_same(direct, routing_key)
    } else {
        matches(pattern, routing_key)
    }
}

/// The three parts of a text that has just three.
fn three_parts(text: &[u8]) -> Option<(&[u8], &[u8], &[u8])>
    ensures { MatchOption result (three_parts text.now ≡ None)
        (λ p. three_parts text.now ≡ Some (p.0.now, p.1.now, p.2.now)) }
{
    let (first, rest) = cut(text)?;
    let (second, third) = cut(rest)?;
    if cut(third).is_some() {
        return None;
    }
    Some((first, second, third))
}

/// What stands before the first separator, and what after it.
fn cut(text: &[u8]) -> Option<(&[u8], &[u8])>
    ensures { MatchOption result (cut text.now ≡ None) (λ p. cut text.now ≡ Some (p.0.now, p.1.now)) }
{
    let place = separator(text)?;
    Some((&text[..place], after(text, place + 2)))
}

/// Where the first separator stands.
fn separator(text: &[u8]) -> Option<usize>
    ensures place { result ≡ separator_from 0 text.now }
    ensures within { IfSome result (λ place. place + 2 ≤ length text.now) }
{
    for place in 0..text.len() {
        if is_separated(after(text, place)) {
            return Some(place);
        }
    }
    None
}

/// Whether a text begins with a separator.
fn is_separated(text: &[u8]) -> bool
    ensures told { result ≡ has_front (6 ∷ 22 ∷ []) text.now }
    ensures long { result ≡ true → 2 ≤ length text.now }
{
    text.starts_with(b"\x06\x16")
}

/// What follows so many bytes.
pub(crate) fn after(text: &[u8], count: usize) -> &[u8]
    requires { count ≤ length text.now }
    ensures rest { result.now ≡ drop count text.now }
    ensures length { length result.now ≡ length text.now - count }
{
    &text[count..]
}
