//! A core of any block, driven against a store command by command.
//!
//! What holds a core hands it on by value: a core of a kind that is known is dropped nowhere but here, where its kind is
//! any, so that no proof has to take it apart.
use block_core::{BlockCore, ReplyFault, Stage};
use command_blocks::answer::is_status;
use mini_store::Store;
use std::alloc::{AllocError, Global};
use std::test::Fail;
use store_model::Reply;
use wire_spelling::command_fits;
use wire_values::{Bytes, Value, Values, Words};

/// The commands that a store has to hear, each with its moment, the words parted by one space.
pub type Rows<'a> = &'a [(u32, &'a str)];

/// The words of a command, parted by one space each, and the last one.
fn words_of(alloc: Global, line: &str, last: &str) -> Result<Words, AllocError> {
    let mut command = Words::new();
    for word in line.split(' ') {
        command.push(alloc, Bytes::from_slice(alloc, word.as_bytes())?)?;
    }
    command.push(alloc, Bytes::from_slice(alloc, last.as_bytes())?)?;
    Ok(command)
}

/// Has another client say a command of these words, parted by one space each, and the last one.
pub fn said(alloc: Global, store: &mut Store, line: &str, last: &str) -> Result<(), AllocError> {
    let command = words_of(alloc, line, last)?;
    if command_fits(&command) {
        store.apply(alloc, 99, 1, &command)?;
    }
    Ok(())
}

/// The words, parted by one space each.
fn spelled(alloc: Global, words: &Words) -> Result<Bytes, AllocError> {
    let mut line = Bytes::new();
    for word in words.as_slice() {
        if !line.as_slice().is_empty() {
            line.push(alloc, b' ')?;
        }
        line.extend(alloc, word.as_slice())?;
    }
    Ok(line)
}

/// Whether a command has these words.
fn is_spelled(alloc: Global, words: &Words, line: &str) -> Result<bool, AllocError> {
    let spelled = spelled(alloc, words)?;
    Ok(spelled.as_slice() == line.as_bytes())
}

/// Whether a core took a reply.
fn is_taken(taken: &Result<(), ReplyFault>) -> bool {
    match taken {
        Ok(()) => true,
        Err(_) => false,
    }
}

/// Has a core say its next command to the store, and tells whether it has these words and its reply was taken.
fn says<S: Stage>(
    alloc: Global,
    store: &mut Store,
    core: &mut BlockCore<S, S::End>,
    at: u32,
    line: &str,
) -> Result<bool, AllocError> {
    let at = u64::from(at);
    let Some(words) = core.next(alloc, at)? else {
        return Ok(false);
    };
    let is_spelled = is_spelled(alloc, &words, line)?;
    let reply = store.apply(alloc, at, 2, &words)?;
    Ok(is_taken(&core.took(alloc, at, &reply)) && is_spelled)
}

/// Whether a command is next, and there is no end yet.
fn goes_on<S: Stage>(core: &mut BlockCore<S, S::End>) -> bool {
    core.is_busy() && !core.is_off() && core.end().is_none()
}

/// Whether a core says just these commands in this order, and there is no end before the last reply.
pub fn says_all<S: Stage>(
    alloc: Global,
    store: &mut Store,
    core: &mut BlockCore<S, S::End>,
    rows: Rows,
) -> Result<bool, AllocError> {
    for (at, line) in rows {
        if !goes_on(core) || !says(alloc, store, core, *at, line)? {
            return Ok(false);
        }
    }
    Ok(true)
}

/// Whether a core is silent: no command is next, and there is no end.
pub fn is_silent<S: Stage>(
    alloc: Global,
    core: &mut BlockCore<S, S::End>,
) -> Result<bool, AllocError> {
    Ok(!core.is_busy() && core.next(alloc, 111)?.is_none() && core.end().is_none())
}

/// The end of a core that is silent after it.
fn last_end<S: Stage>(
    alloc: Global,
    core: &mut BlockCore<S, S::End>,
) -> Result<Option<S::End>, AllocError> {
    let end = core.end();
    let is_silent = is_silent(alloc, core)?;
    Ok(if is_silent { end } else { None })
}

/// How a core ends that says just these commands and is silent after its end; None where it doesn't.
pub fn ended<S: Stage>(
    alloc: Global,
    store: &mut Store,
    mut core: BlockCore<S, S::End>,
    rows: Rows,
) -> Result<Option<S::End>, AllocError> {
    if says_all(alloc, store, &mut core, rows)? {
        last_end(alloc, &mut core)
    } else {
        Ok(None)
    }
}

/// A reply that no command of these blocks is lawfully answered.
fn other_reply(alloc: Global) -> Result<Reply, AllocError> {
    let word = Bytes::from_slice(alloc, b"PONG")?;
    Ok(Reply {
        pushed: Values::new(alloc),
        answer: Value::Status(word),
    })
}

/// Whether a core's fault is that it refused that reply.
fn is_refusal(taken: &Result<(), ReplyFault>) -> bool {
    match taken {
        Err(ReplyFault::Refused(reply)) => is_status(&reply.answer, b"PONG"),
        Ok(()) | Err(ReplyFault::Memory) => false,
    }
}

/// Whether a core refuses that reply to its next command.
fn refuses<S: Stage>(alloc: Global, core: &mut BlockCore<S, S::End>) -> Result<bool, AllocError> {
    let Some(_) = core.next(alloc, 110)? else {
        return Ok(false);
    };
    let reply = other_reply(alloc)?;
    Ok(is_refusal(&core.took(alloc, 110, &reply)))
}

/// Whether a core that says these commands refuses that reply to the next one, and is silent from then on.
pub fn is_put_off<S: Stage>(
    alloc: Global,
    store: &mut Store,
    mut core: BlockCore<S, S::End>,
    rows: Rows,
) -> Result<bool, AllocError> {
    Ok(
        says_all(alloc, store, &mut core, rows)?
            && refuses(alloc, &mut core)?
            && core.is_off()
            && is_silent(alloc, &mut core)?,
    )
}

/// The first of the commands; all of them where there are fewer.
pub fn first_of<'a>(rows: Rows<'a>, count: usize) -> Rows<'a> {
    rows.get(..count).unwrap_or(rows)
}
