//! Patterns of routing keys (topics of AMQP): words between dots, of which `*` is any one and `#` none or more.
ghost use Rattle.std.specs.Prelude.{◌≡◌, ◌∷◌, ◌≤◌, length, position, ◌==◌};
ghost use Rattle.queue_keys.specs.Patterns.{any_end, dotted_words, matches, word_matches, words_match};
ghost use Rattle.lookups.specs.Runs.{HasPassed};
ghost use Rattle.lookups.specs.WordsLeft.{text_extent, told, words_in};

use crate::bindings::after;
use queue_keys::are_same;

/// Whether a pattern matches a routing key; takes no memory.
///
/// The words after a `#`, up to the next one, are tried at each word of the key until they pass,
/// and no earlier choice is tried again after that. So with m words of the pattern and n of the key
/// at most m * (n + 2) words are compared.
#[tactic(auto, unfolding(queue_keys::specs::Patterns::matches))]
pub fn matches(pattern: &[u8], routing_key: &[u8]) -> bool
    ensures { result ≡ matches pattern.now routing_key.now }
{
    match pass_words(Some(pattern), Some(routing_key)) {
        Run::Whole => true,
        Run::Stopped => false,
        Run::Hash(others, left) => any_end(others, left),
    }
}

/// How far a pattern's words before its first `#` pass the first words of a key.
#[derive(Clone, Copy)]
pub(crate) enum Run<'a> {
    /// The pattern has no `#`, and its words pass all those of the key.
    Whole,
    /// They don't pass.
    Stopped,
    /// They pass up to a `#`: what the pattern has after it, and what is left of the key.
    Hash(Option<&'a [u8]>, Option<&'a [u8]>),
}

/// Whether some end of a key's words passes the words of a pattern; without a text there are no words.
fn any_end(pattern: Option<&[u8]>, key: Option<&[u8]>) -> bool
    ensures { result ≡ any_end (words_match (words_in (told pattern.entry))) (words_in (told key.entry)) }
{
    let mut others = pattern;
    let mut left = key;
    'ends: loop {
        match pass_words(others, left) {
            Run::Whole => return true,
            Run::Hash(next, rest) => {
                others = next;
                left = rest;
            }
            Run::Stopped => {
                let Some(text) = left else {
                    return false;
                };
                let (_, rest) = first_word(text);
                left = rest;
            }
        }
    }
}

/// Has the words of a pattern pass the first words of a key, up to the first `#`.
fn pass_words<'a>(pattern: Option<&'a [u8]>, key: Option<&'a [u8]>) -> Run<'a>
    ensures { HasPassed (told pattern.entry) (told key.entry) result }
{
    let mut words = pattern;
    let mut left = key;
    'words: while let Some(text) = words {
        let (word, others) = first_word(text);
        if are_same(b"#", word) {
            return Run::Hash(others, left);
        }
        let Some(key_text) = left else {
            return Run::Stopped;
        };
        let (found, rest) = first_word(key_text);
        if !word_passes(word, found) {
            return Run::Stopped;
        }
        words = others;
        left = rest;
    }
    match left {
        None => Run::Whole,
        Some(_) => Run::Stopped,
    }
}

/// Whether a word passes: any where the pattern has `*`, else the same.
fn word_passes(word: &[u8], found: &[u8]) -> bool
    ensures { result ≡ word_matches word.now found.now }
{
    are_same(b"*", word) || are_same(word, found)
}

/// The first word of a text, and the text of the words after it, if there is a dot.
fn first_word(text: &[u8]) -> (&[u8], Option<&[u8]>)
    ensures words { dotted_words text.now ≡ result.0.now ∷ words_in (told result.1) }
    ensures shorter { text_extent (told result.1) ≤ length text.now }
{
    match first_dot(text) {
        Some(place) => (&text[..place], Some(after(text, place + 1))),
        None => (text, None),
    }
}

/// Where the first dot stands.
fn first_dot(text: &[u8]) -> Option<usize>
    ensures { result ≡ position (λ b. b == 46) text.now }
{
    text.iter().position(|byte| *byte == b'.')
}
