//! A process' words: what is read of them, and what comes of that.
ghost use Rattle.std.specs.Io.{WritesAtMost};

use crate::played::{NEVER, end_of, sink};
use crate::rows::reports::{one_message, published};
use links::MemorySource;
use net_links::{MemoryNet, StepClock};
use std::alloc::{AllocError, Global};
use std::env::{Env, FillError};
use std::process::Abort;
use std::test::Fail;
use top_call::Ended;
use waiting_call::answer;
use wire_values::Bytes;

/// A process with these words after its name.
#[derive(Clone, Copy, Drop)]
struct Process<'a> {
    words: &'a [&'a [u8]],
}

/// Copies a word to the start of a room, where it is large enough.
fn filled(word: &[u8], room: &mut [u8]) -> Result<usize, FillError>
    ensures { WritesAtMost result room.new }
{
    if room.len() < word.len() {
        return Err(FillError::TooLong);
    }
    room[..word.len()].copy_from_slice(word);
    Ok(word.len())
}

impl<'a> Env for Process<'a> {
    fn arg(&self, i: usize, buf: &mut [u8]) -> Result<usize, FillError> {
        let word: &[u8] = match i {
            0 => b"celery_node",
            _ => match self.words.get(i - 1) {
                Some(word) => word,
                None => return Err(FillError::NotPresent),
            },
        };
        filled(word, buf)
    }

    fn var(&self, _name: &str, _buf: &mut [u8]) -> Result<usize, FillError> {
        Err(FillError::NotPresent)
    }

    fn var_at(&self, _i: usize, _buf: &mut [u8]) -> Result<usize, FillError> {
        Err(FillError::NotPresent)
    }
}

/// Asserts what a process with these words writes over a schedule of one message, and how it ends.
fn expect_answer<R: Abort>(
    rt: &R,
    alloc: Global,
    words: &[&[u8]],
    want: Ended,
    text: &str,
) -> Result<(), AllocError> {
    let schedule = Bytes::from_slice(alloc, one_message().as_bytes())?;
    let mut src = MemorySource::new(schedule, 1, Vec::new(alloc));
    let mut out = sink(alloc, NEVER)?;
    let mut net = MemoryNet::new(Vec::new(alloc), Vec::new(alloc));
    let clock = StepClock::new(0, 1);
    let found = answer(
        &Process { words },
        alloc,
        &mut src,
        &mut out,
        &mut net,
        &clock,
    );
    assert!(rt; found == want, "{text}");
    assert!(rt; out.taken() == text.as_bytes(), "{text}");
    Ok(())
}

#[test]
fn the_words_of_a_process_name_its_program(rt: HostRuntime) -> Result<(), Fail> {
    let alloc = rt.alloc();
    expect_answer(&rt, alloc, &[b"replay"], end_of(0, 0), published())?;
    expect_answer(&rt, alloc, &[], end_of(2, 0), "bad word 0\n")?;
    expect_answer(&rt, alloc, &[b"serve"], end_of(2, 1), "bad word 1\n")?;
    expect_answer(
        &rt,
        alloc,
        &[b"replay", b"replay"],
        end_of(2, 1),
        "bad word 1\n",
    )?;
    expect_answer(&rt, alloc, &[b"show"], end_of(3, 0), "fault BadKind at 0\n")?;
    expect_answer(
        &rt,
        alloc,
        &[b"show", b"show"],
        end_of(2, 1),
        "bad word 1\n",
    )?;
    Ok(())
}

#[test]
fn a_word_that_is_no_text_is_bad_in_its_place(rt: HostRuntime) -> Result<(), Fail> {
    let alloc = rt.alloc();
    expect_answer(&rt, alloc, &[b"repla\xff"], end_of(2, 0), "bad word 0\n")?;
    expect_answer(
        &rt,
        alloc,
        &[b"replay", b"\xff"],
        end_of(2, 1),
        "bad word 1\n",
    )?;
    expect_answer(
        &rt,
        alloc,
        &[b"show", b"\xff"],
        end_of(2, 1),
        "bad word 1\n",
    )?;
    Ok(())
}

#[test]
fn a_word_is_read_whole_or_is_bad(rt: HostRuntime) -> Result<(), Fail> {
    let alloc = rt.alloc();
    let longest = vec![in alloc; b'r'; 65_536]?;
    let longer = vec![in alloc; b'r'; 65_537]?;
    expect_answer(&rt, alloc, &[b"replayed"], end_of(2, 0), "bad word 0\n")?;
    expect_answer(&rt, alloc, &[b"shown"], end_of(2, 0), "bad word 0\n")?;
    expect_answer(
        &rt,
        alloc,
        &[b"replay", longest.as_slice()],
        end_of(2, 1),
        "bad word 1\n",
    )?;
    expect_answer(
        &rt,
        alloc,
        &[longest.as_slice()],
        end_of(2, 0),
        "bad word 0\n",
    )?;
    expect_answer(
        &rt,
        alloc,
        &[b"replay", longer.as_slice()],
        end_of(2, 1),
        "bad word 1\n",
    )?;
    Ok(())
}
