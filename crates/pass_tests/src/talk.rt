//! A pass and other clients, driven against a store command by command.
use block_core::ReplyFault;
use command_blocks::answer::is_status;
use mini_store::Store;
use passes::PassCore;
use std::alloc::{AllocError, Global};
use std::test::Fail;
use store_model::Reply;
use wire_spelling::command_fits;
use wire_values::{Bytes, Value, Values, Words};

/// A command: its client, its moment in seconds, and its words, parted by one space each. Those of client 2 are the
/// pass's own.
pub type Row = (u32, u32, &'static str);

/// Has a client say a command of these words.
fn said(alloc: Global, store: &mut Store, row: &Row) -> Result<(), AllocError> {
    let (client, at, line) = *row;
    let mut command = Words::new();
    for word in line.split(' ') {
        command.push(alloc, Bytes::from_slice(alloc, word.as_bytes())?)?;
    }
    if command_fits(&command) {
        store.apply(alloc, u64::from(at), client, &command)?;
    }
    Ok(())
}

/// The words, parted by one space each.
fn spelled(alloc: Global, words: &Words) -> Result<Bytes, AllocError> {
    let mut line = Bytes::new();
    for word in words.as_slice() {
        if !line.as_slice().is_empty() {
            line.push(alloc, b' ')?;
        }
        line.extend(alloc, word.as_slice())?;
    }
    Ok(line)
}

/// Has a pass say its next command, and tells whether it has these words.
fn says(
    alloc: Global,
    store: &mut Store,
    core: &mut PassCore,
    at: u32,
    line: &str,
) -> Result<bool, Fail> {
    let at = u64::from(at);
    let Some(words) = core.next(alloc, at)? else {
        return Ok(false);
    };
    let reply = store.apply(alloc, at, 2, &words)?;
    core.took(alloc, at, &reply)?;
    Ok(spelled(alloc, &words)?.as_slice() == line.as_bytes())
}

/// Whether a command is next, and there is no end yet.
fn goes_on(core: &mut PassCore) -> bool {
    core.is_busy() && !core.is_off() && core.end().is_none()
}

/// Plays rows, and tells whether the pass says just those of its own, without an end before the last.
pub fn plays(
    alloc: Global,
    store: &mut Store,
    core: &mut PassCore,
    rows: &[Row],
) -> Result<bool, Fail> {
    for row in rows {
        let (client, at, line) = *row;
        if client != 2 {
            said(alloc, store, row)?;
        } else if !goes_on(core) || !says(alloc, store, core, at, line)? {
            return Ok(false);
        }
    }
    Ok(true)
}

/// A reply that no command of a pass is lawfully answered.
fn other_reply(alloc: Global) -> Result<Reply, AllocError> {
    Ok(Reply {
        pushed: Values::new(alloc),
        answer: Value::Status(Bytes::from_slice(alloc, b"PONG")?),
    })
}

/// Whether a fault is that a pass refused that reply.
fn is_refusal(taken: &Result<(), ReplyFault>) -> bool {
    match taken {
        Err(ReplyFault::Refused(reply)) => is_status(&reply.answer, b"PONG"),
        Ok(()) | Err(ReplyFault::Memory) => false,
    }
}

/// Whether a pass is silent: no command is next, and there is no end.
pub fn is_silent(alloc: Global, core: &mut PassCore) -> Result<bool, AllocError> {
    Ok(!core.is_busy() && core.next(alloc, 111)?.is_none() && core.end().is_none())
}

/// Whether a pass refuses that reply to its next command, and is silent from then on.
pub fn refuses(alloc: Global, core: &mut PassCore) -> Result<bool, AllocError> {
    let Some(_) = core.next(alloc, 110)? else {
        return Ok(false);
    };
    let reply = other_reply(alloc)?;
    let is_refused = is_refusal(&core.took(alloc, 110, &reply));
    Ok(is_refused && core.is_off() && is_silent(alloc, core)?)
}
