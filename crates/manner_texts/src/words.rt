//! Words of a command.
ghost use Rattle.std.specs.Prelude.{◌≡◌, ◌∷◌, [], bytes_eq};
ghost use Rattle.manner_laws.specs.Cursor.{further, is_command, middle, same_words, second, third};
ghost use Rattle.manner_texts.specs.Heads.{HasWord};

use wire_values::Bytes;

/// Whether the words are this one.
pub fn says_one(words: &[Bytes], first: &[u8]) -> bool
    ensures { result ≡ same_words (first.now ∷ []) words.now }
{
    match after_word(first, words) {
        Some(rest) => are_none(rest),
        None => false,
    }
}

/// Whether there are no words.
fn are_none(words: &[Bytes]) -> bool
    ensures { result ≡ same_words [] words.now }
{
    match words {
        [] => true,
        [_, ..] => false,
    }
}

/// Whether the words are these two.
pub fn says_two(words: &[Bytes], first: &[u8], second: &[u8]) -> bool
    ensures { result ≡ same_words (first.now ∷ second.now ∷ []) words.now }
{
    match after_word(first, words) {
        Some(rest) => says_one(rest, second),
        None => false,
    }
}

/// Whether the words are these three.
pub fn says_three(words: &[Bytes], first: &[u8], second: &[u8], third: &[u8]) -> bool
    ensures { result ≡ same_words (first.now ∷ second.now ∷ third.now ∷ []) words.now }
{
    match after_word(first, words) {
        Some(rest) => says_two(rest, second, third),
        None => false,
    }
}

/// Whether the words are these four.
pub fn says_four(words: &[Bytes], first: &[u8], second: &[u8], third: &[u8], fourth: &[u8]) -> bool
    ensures { result ≡ same_words (first.now ∷ second.now ∷ third.now ∷ fourth.now ∷ []) words.now }
{
    match after_word(first, words) {
        Some(rest) => says_three(rest, second, third, fourth),
        None => false,
    }
}

/// The words after the first, where that is this one.
fn after_word<'a>(first: &[u8], words: &'a [Bytes]) -> Option<&'a [Bytes]>
    ensures { HasWord first.now words.now result }
{
    match words {
        [] => None,
        [word, rest @ ..] => {
            if are_equal(first, word.as_slice()) {
                Some(rest)
            } else {
                None
            }
        }
    }
}

/// Whether two lists of words are the same.
pub fn same_words(one: &[Bytes], other: &[Bytes]) -> bool
    ensures { result ≡ same_words one.now other.now }
{
    let mut left = one;
    let mut others = other;
    'words: loop {
        match left {
            [] => return others.is_empty(),
            [first, rest @ ..] => {
                let Some(more) = after_word(first.as_slice(), others) else {
                    return false;
                };
                left = rest;
                others = more;
            }
        }
    }
}

/// Whether two texts are equal.
pub(crate) fn are_equal(one: &[u8], other: &[u8]) -> bool
    ensures { result ≡ bytes_eq one.now other.now }
{
    one == other
}

/// Whether the first word is this.
pub fn is_command(name: &[u8], words: &[Bytes]) -> bool
    ensures { result ≡ is_command name.now words.now }
{
    match words {
        [] => false,
        [word, ..] => are_equal(name, word.as_slice()),
    }
}

/// The second word, empty where there is none.
pub fn second(words: &[Bytes]) -> &[u8]
    ensures { result.now ≡ second words.now }
{
    match words {
        [] | [_] => b"",
        [_, word, ..] => word.as_slice(),
    }
}

/// The third word, empty where there is none.
pub fn third(words: &[Bytes]) -> &[u8]
    ensures { result.now ≡ third words.now }
{
    match words {
        [] | [_] | [_, _] => b"",
        [_, _, word, ..] => word.as_slice(),
    }
}

/// The words after the third.
pub fn further(words: &[Bytes]) -> &[Bytes]
    ensures { result.now ≡ further words.now }
{
    match words {
        [] | [_] | [_, _] => &[],
        [_, _, _, rest @ ..] => rest,
    }
}

/// The words between the first and the last.
pub fn middle(words: &[Bytes]) -> &[Bytes]
    ensures { result.now ≡ middle words.now }
{
    match words {
        [] | [_] => &[],
        [_, rest @ .., _] => rest,
    }
}
