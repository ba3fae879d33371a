//! The words of `serve` and of `publish`.
ghost use Rattle.std.specs.Prelude.{map, ◌≡◌};
ghost use Rattle.wait_words.specs.Words.{address_in, bad_wait_place, can_end, can_stand, connections_in, is_address, is_dashed, is_needed, is_option, is_other, is_program, is_value, names_publish, second_value, seed_in, turns_in, option_limit, option_value};

use line_text::number_in;

/// The most connections that `serve` may be told to serve.
pub const CONNECTION_LIMIT: u64 = 4_095;

/// The most turns that a session may be told to have, and as many as it has where nothing is said of them.
pub const TURN_LIMIT: u64 = 1_000_000;

/// The greatest seed that a publisher may be told to have.
pub const SEED_LIMIT: u64 = 1 << 62;

/// The most bytes of a word.
const WORD_LIMIT: usize = 65_536;

/// The place of the first bad word, counted from 0, or the count of words where one is missing.
///
/// The words are the name of a program, an address, and options in any order, each at most once with its value. Those of
/// `serve` are `--connections` with a number of 1 to 4,095, which has to stand there, and `--turns` with a number of 1 to
/// 1,000,000; that of `publish` is `--seed` with a number of 1 to 2^62, which has to stand there.
pub fn bad_word(words: &[&str]) -> Option<u64>
    ensures { result ≡ bad_wait_place (map (λ w. w.now) words.now) }
{
    'words: for place in 0..words.len() {
        if !can_stand(&words[..place], words[place]) {
            return Some(place as u64);
        }
    }
    if can_end(words) {
        None
    } else {
        Some(words.len() as u64)
    }
}

/// Whether a word can stand after these.
fn can_stand(before: &[&str], word: &str) -> bool
    ensures { result ≡ can_stand (map (λ w. w.now) before.now) word.now }
{
    match before {
        [] => is_program(word),
        [_] => is_address(word.as_bytes()),
        [name, _] => is_option(name, word),
        [_, _, option] => is_value(option, word),
        [_, _, option, _] => is_other(option, word),
        [_, _, _, _, option] => is_value(option, word),
        [_, _, _, _, _, _, ..] => false,
    }
}

/// Whether words, each of which can stand after those before it, can end so.
fn can_end(words: &[&str]) -> bool
    ensures { result ≡ can_end (map (λ w. w.now) words.now) }
{
    match words {
        [] => false,
        [_] => false,
        [_, _] => false,
        [_, _, _] => false,
        [_, _, option, _] => is_needed(option),
        [_, _, _, _, _] => false,
        [_, _, _, _, _, _, ..] => true,
    }
}

/// Whether an option has to stand there.
fn is_needed(option: &str) -> bool
    ensures { result ≡ is_needed option.now }
{
    option == "--connections" || option == "--seed"
}

/// Whether a word can be an address: at most 65,536 bytes, no `-` before the others and no `=` among them.
fn is_address(word: &[u8]) -> bool
    ensures { result ≡ is_address word.now }
{
    word.len() <= WORD_LIMIT && !is_dashed(word) && !word.contains(&b'=')
}

/// Whether a `-` stands before the others.
fn is_dashed(word: &[u8]) -> bool
    ensures { result ≡ is_dashed word.now }
{
    match word {
        [] => false,
        [first, ..] => *first == b'-',
    }
}

/// Whether a word names a program that waits for others.
fn is_program(word: &str) -> bool
    ensures { result ≡ is_program word.now }
{
    word == "serve" || word == "publish"
}

/// Whether a word is an option of the program of this name.
fn is_option(name: &str, word: &str) -> bool
    ensures { result ≡ is_option name.now word.now }
{
    if name == "publish" {
        word == "--seed"
    } else {
        word == "--connections" || word == "--turns"
    }
}

/// The greatest value of an option.
fn option_limit(option: &str) -> u64
    ensures { result ≡ option_limit option.now }
{
    if option == "--connections" {
        CONNECTION_LIMIT
    } else if option == "--seed" {
        SEED_LIMIT
    } else {
        TURN_LIMIT
    }
}

/// Whether a word can be the value of this option.
fn is_value(option: &str, word: &str) -> bool
    ensures { result ≡ is_value option.now word.now }
{
    number_in(1, option_limit(option), word).is_some()
}

/// Whether a word is the other option beside this one; there is none beside a seed.
fn is_other(option: &str, word: &str) -> bool
    ensures { result ≡ is_other option.now word.now }
{
    if option == "--connections" {
        word == "--turns"
    } else {
        option != "--seed" && word == "--connections"
    }
}

/// The address that lawful words have.
pub fn address_in<'a>(words: &[&'a str]) -> &'a str
    ensures { result.now ≡ address_in (map (λ w. w.now) words.now) }
{
    match words {
        [] => "",
        [_] => "",
        [_, address, ..] => address,
    }
}

/// The value of the option of this name in lawful words; an empty text where it isn't there.
fn option_value<'a>(option: &str, words: &[&'a str]) -> &'a str
    ensures { result.now ≡ option_value option.now (map (λ w. w.now) words.now) }
{
    match words {
        [] => "",
        [_] => "",
        [_, _] => "",
        [_, _, _] => "",
        [_, _, first, value, others @ ..] => {
            if *first == option {
                value
            } else {
                second_value(others)
            }
        }
    }
}

/// The value of the second option; an empty text where it isn't there.
fn second_value<'a>(words: &[&'a str]) -> &'a str
    ensures { result.now ≡ second_value (map (λ w. w.now) words.now) }
{
    match words {
        [] => "",
        [_] => "",
        [_, value, ..] => value,
    }
}

/// How many connections lawful words ask for.
pub fn connections_in(words: &[&str]) -> u32
    ensures { result ≡ connections_in (map (λ w. w.now) words.now) }
{
    number_in(1, CONNECTION_LIMIT, option_value("--connections", words)).unwrap_or(0) as u32
}

/// How many turns lawful words give each session.
pub fn turns_in(words: &[&str]) -> u64
    ensures { result ≡ turns_in (map (λ w. w.now) words.now) }
{
    number_in(1, TURN_LIMIT, option_value("--turns", words)).unwrap_or(TURN_LIMIT)
}

/// The seed that lawful words give a publisher.
pub fn seed_in(words: &[&str]) -> u64
    ensures { result ≡ seed_in (map (λ w. w.now) words.now) }
{
    number_in(1, SEED_LIMIT, option_value("--seed", words)).unwrap_or(0)
}

/// Whether the first word names the program that publishes.
pub fn names_publish(words: &[&str]) -> bool
    ensures { result ≡ names_publish (map (λ w. w.now) words.now) }
{
    match words {
        [] => false,
        [name, ..] => *name == "publish",
    }
}
