//! The words of the command line: which are lawful, and which is the first bad one.
ghost use Rattle.std.specs.Prelude.{map, ◌≡◌, IfOk, string_bytes};
ghost use Rattle.top_call.specs.Words.{bad_place, count_in, is_recording, is_show, made_count, place_after, place_after_make, place_after_record, place_after_replay};

use line_text::number_in;
use std::alloc::{AllocError, Global};
use std::env::{Env, FillError};
use std::str;

/// The place of the first bad word, counted from 0, or the count of words where one is missing.
///
/// The words are exactly the name of one program, `replay` or `show`; `replay` may have the flag `--record` after it, or
/// `--make` and a number from 1 to 50,000.
pub fn bad_word(words: &[&str]) -> Option<u64>
    ensures { result ≡ bad_place (map (λ w. w.now) words.now) }
{
    match words {
        [] => Some(0),
        [name, rest @ ..] => {
            if *name == "replay" {
                bad_after_replay(rest)
            } else if *name == "show" {
                bad_after(rest)
            } else {
                Some(0)
            }
        }
    }
}

/// The first of words after the name of a program that takes none.
fn bad_after(words: &[&str]) -> Option<u64>
    ensures { result ≡ place_after (map (λ w. w.now) words.now) }
{
    match words {
        [] => None,
        [_, ..] => Some(1),
    }
}

/// The place of the first bad word after the name of `replay`.
fn bad_after_replay(words: &[&str]) -> Option<u64>
    ensures { result ≡ place_after_replay (map (λ w. w.now) words.now) }
{
    match words {
        [] => None,
        [option, rest @ ..] => {
            if *option == "--record" {
                bad_after_record(rest)
            } else if *option == "--make" {
                bad_after_make(rest)
            } else {
                Some(1)
            }
        }
    }
}

/// The place of the first word after `replay --record`.
fn bad_after_record(words: &[&str]) -> Option<u64>
    ensures { result ≡ place_after_record (map (λ w. w.now) words.now) }
{
    match words {
        [] => None,
        [_, ..] => Some(2),
    }
}

/// The place of the first bad word after `replay --make`.
fn bad_after_make(words: &[&str]) -> Option<u64>
    ensures { result ≡ place_after_make (map (λ w. w.now) words.now) }
{
    match words {
        [] => Some(2),
        [word] => {
            if count_in(word).is_some() {
                None
            } else {
                Some(2)
            }
        }
        [word, _, ..] => {
            if count_in(word).is_some() {
                Some(3)
            } else {
                Some(2)
            }
        }
    }
}

/// The most messages of a made schedule.
const COUNT_LIMIT: u64 = 50_000;

/// The number of messages that a word spells.
fn count_in(word: &str) -> Option<u64>
    ensures { result ≡ count_in word.now }
{
    number_in(1, COUNT_LIMIT, word)
}

/// Of how many messages a schedule is to be made, where the words are exactly `replay --make` and that number.
pub fn made_count(words: &[&str]) -> Option<u64>
    ensures { result ≡ made_count (map (λ w. w.now) words.now) }
{
    match words {
        [] => None,
        [_] => None,
        [_, _] => None,
        [name, option, word] => {
            if *name == "replay" && *option == "--make" {
                count_in(word)
            } else {
                None
            }
        }
        [_, _, _, _, ..] => None,
    }
}

/// Whether the words are exactly `replay --record`.
pub fn is_recording(words: &[&str]) -> bool
    ensures { result ≡ is_recording (map (λ w. w.now) words.now) }
{
    match words {
        [] => false,
        [_] => false,
        [name, flag] => *name == "replay" && *flag == "--record",
        [_, _, _, ..] => false,
    }
}

/// Whether the words are exactly `show`.
pub fn is_show(words: &[&str]) -> bool
    ensures { result ≡ is_show (map (λ w. w.now) words.now) }
{
    match words {
        [] => false,
        [word] => *word == "show",
        [_, _, ..] => false,
    }
}

/// The most bytes of a word.
const WORD_LIMIT: usize = 65_536;

/// A word that is bad wherever it stands.
const BAD_WORD: &str = "--";

/// The words of the command line after the program's name. A word that is no UTF-8 or above 65,536 bytes is
/// answered as `--`, which is bad wherever it stands.
pub fn read_words<R: Env>(rt: &R, alloc: Global) -> Result<Vec<String>, AllocError> {
    let mut room = vec![in alloc; 0; WORD_LIMIT]?;
    let mut words = Vec::new(alloc);
    for place in 1..usize::MAX {
        let Some(word) = read_word(rt, alloc, place, room.as_mut_slice())? else {
            break;
        };
        words.push(word)?;
    }
    Ok(words)
}

/// The word at this place, where there is one.
fn read_word<R: Env>(
    rt: &R,
    alloc: Global,
    place: usize,
    room: &mut [u8],
) -> Result<Option<String>, AllocError> {
    let count = match rt.arg(place, room) {
        Ok(count) => count,
        Err(FillError::TooLong) => return Ok(Some(String::from_str(alloc, BAD_WORD)?)),
        Err(FillError::NotPresent) => return Ok(None),
    };
    let text = str::from_utf8(&room[..count]).unwrap_or(BAD_WORD);
    Ok(Some(String::from_str(alloc, text)?))
}

/// The words as a slice of texts.
pub fn views<'a>(alloc: Global, texts: &'a [String]) -> Result<Vec<&'a str>, AllocError>
    ensures { IfOk result (λ words. map (λ w. w.now) words.items ≡ map string_bytes texts.now) }
{
    let mut words = Vec::new(alloc);
    for text in texts {
        words.push(text.as_str())?;
    }
    Ok(words)
}
