//! Lines of a schedule, as their words spell them.
ghost use Rattle.std.specs.Prelude.{◌≡◌, [], ◌∷◌, IfOk, map};
ghost use Rattle.schedule_model.specs.Lines.{at_line, begin_line, client_line, line_in, of_client};
ghost use Rattle.schedule_model.specs.declared.line.Line.TheVariants.{Run, Step, Stop};
ghost use Rattle.schedule_lines.specs.Simple.{simple_line};

use crate::asked::asked_in;
use line_text::moment_in;
use schedule_model::Line;
use schedule_words::{client_in, seed_in};
use std::alloc::{AllocError, Global};

/// The line that these words spell. None where they spell none.
pub fn line_of(alloc: Global, words: &[&str]) -> Result<Option<Line>, AllocError>
    ensures { IfOk result (λ found. found ≡ line_in (map (λ word. word.now) words.now)) }
{
    match words {
        [] => Ok(None),
        [first, rest @ ..] => line_after(alloc, first, rest),
    }
}

/// The line of a first word and the others.
fn line_after(alloc: Global, first: &str, rest: &[&str]) -> Result<Option<Line>, AllocError>
    ensures { IfOk result (λ found. found
        ≡ line_in (first.now ∷ map (λ word. word.now) rest.now)) }
{
    if first == "client" {
        Ok(client_line(rest))
    } else if first == "at" {
        Ok(at_line(rest))
    } else if first == "begin" {
        begin_line(alloc, rest)
    } else {
        Ok(simple_line(first, rest))
    }
}

/// The line of a client alone that these words spell.
fn simple_line(first: &str, rest: &[&str]) -> Option<Line>
    ensures { result ≡ simple_line first.now (map (λ word. word.now) rest.now) }
{
    if first == "step" {
        step_line(rest)
    } else if first == "run" {
        run_line(rest)
    } else if first == "stop" {
        stop_line(rest)
    } else {
        None
    }
}

/// A client's number and seed.
fn client_line(words: &[&str]) -> Option<Line>
    ensures { result ≡ client_line (map (λ word. word.now) words.now) }
{
    match words {
        [] | [_] | [_, _] => None,
        [client, word, seed] => seeded_client(client, word, seed),
        [_, _, _, _, ..] => None,
    }
}

/// A client whose seed stands after the word `seed`.
fn seeded_client(client: &str, word: &str, seed: &str) -> Option<Line>
    ensures { result ≡ client_line (client.now ∷ word.now ∷ seed.now ∷ []) }
{
    if word == "seed" {
        let client = client_in(client)?;
        let seed = seed_in(seed)?;
        Some(Line::Client { client, seed })
    } else {
        None
    }
}

/// A moment.
fn at_line(words: &[&str]) -> Option<Line>
    ensures { result ≡ at_line (map (λ word. word.now) words.now) }
{
    match words {
        [moment] => {
            let moment = moment_in(moment)?;
            Some(Line::At { moment })
        }
        [] | [_, _, ..] => None,
    }
}

/// What a client begins.
fn begin_line(alloc: Global, words: &[&str]) -> Result<Option<Line>, AllocError>
    ensures { IfOk result (λ found. found ≡ begin_line (map (λ word. word.now) words.now)) }
{
    match words {
        [client, block, rest @ ..] => {
            let Some(client) = client_in(client) else {
                return Ok(None);
            };
            let Some(asked) = asked_in(alloc, block, rest)? else {
                return Ok(None);
            };
            Ok(Some(Line::Begin { client, asked }))
        }
        [] | [_] => Ok(None),
    }
}

/// A client's next command.
fn step_line(words: &[&str]) -> Option<Line>
    ensures { result ≡ of_client Step (map (λ word. word.now) words.now) }
{
    match words {
        [client] => {
            let client = client_in(client)?;
            Some(Line::Step { client })
        }
        [] | [_, _, ..] => None,
    }
}

/// A client's commands to the end of its block.
fn run_line(words: &[&str]) -> Option<Line>
    ensures { result ≡ of_client Run (map (λ word. word.now) words.now) }
{
    match words {
        [client] => {
            let client = client_in(client)?;
            Some(Line::Run { client })
        }
        [] | [_, _, ..] => None,
    }
}

/// A client's end.
fn stop_line(words: &[&str]) -> Option<Line>
    ensures { result ≡ of_client Stop (map (λ word. word.now) words.now) }
{
    match words {
        [client] => {
            let client = client_in(client)?;
            Some(Line::Stop { client })
        }
        [] | [_, _, ..] => None,
    }
}
