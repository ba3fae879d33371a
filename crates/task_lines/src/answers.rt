//! What a line asks for, and its answer. The fields of a line are parted by tabs.
ghost use Rattle.std.specs.Prelude.{◌≡◌, Ok};
ghost use Rattle.serde_json.specs.View.{view as data_of};
ghost use Rattle.task_message.specs.Shown.{task_view};
ghost use Rattle.task_message.specs.Tasks.{task_of};

use crate::faults::fault_name;
use envelope::{Envelope, Tag, read as read_envelope};
use sealed_drafts::seal;
use std::alloc::{AllocError, Global};
use task_again::again;
use task_message::{Moment, Task, can_draft, draft, read};

/// The answer to a line.
pub(crate) fn answer(alloc: Global, line: &str) -> Result<String, AllocError> {
    let Some((word, rest)) = line.split_once('\t') else {
        return String::from_str(alloc, "no fields");
    };
    match word {
        "moment" => moment(alloc, rest),
        "write" => written(alloc, rest),
        "task" => task(alloc, rest),
        "rounds" => rounds(alloc, rest),
        "drafts" => drafts(alloc, rest),
        "again" => sent_again(alloc, rest),
        _ => String::from_str(alloc, "no such word"),
    }
}

/// The moment that a text spells, in microseconds.
fn moment(alloc: Global, text: &str) -> Result<String, AllocError> {
    match Moment::read(text.as_bytes()) {
        Some(moment) => {
            let micros = moment.0;
            format!(in alloc; "{micros}")
        }
        None => String::from_str(alloc, "none"),
    }
}

/// The text of a moment of so many microseconds.
fn written(alloc: Global, text: &str) -> Result<String, AllocError> {
    match text.parse::<i64>() {
        Ok(micros) => spelled(alloc, Moment(micros)),
        Err(_) => String::from_str(alloc, "no number"),
    }
}

/// The text of a moment.
fn spelled(alloc: Global, moment: Moment) -> Result<String, AllocError> {
    if !moment.is_within_years() {
        return String::from_str(alloc, "none");
    }
    let text = moment.write(alloc)?;
    copied(alloc, text.as_slice())
}

/// Bytes as a text of their own.
fn copied(alloc: Global, bytes: &[u8]) -> Result<String, AllocError> {
    match str::from_utf8(bytes) {
        Ok(text) => String::from_str(alloc, text),
        Err(_) => String::from_str(alloc, "no text"),
    }
}

/// The task of an envelope's text.
fn task(alloc: Global, text: &str) -> Result<String, AllocError> {
    match read_envelope(alloc, text.as_bytes()) {
        Ok(e) => task_of(alloc, &e),
        Err(_) => String::from_str(alloc, "no envelope"),
    }
}

/// The task of an envelope.
fn task_of(alloc: Global, e: &Envelope) -> Result<String, AllocError> {
    match read(alloc, e) {
        Ok(t) => fields(alloc, &t),
        Err(fault) => String::from_str(alloc, fault_name(fault)),
    }
}

/// The fields of a task.
fn fields(alloc: Global, t: &Task) -> Result<String, AllocError> {
    let version = t.version;
    let name = copied(alloc, t.name.as_slice())?;
    let id = copied(alloc, t.id.as_slice())?;
    let retries = t.retries;
    let eta = micros(alloc, t.eta)?;
    let expires = micros(alloc, t.expires)?;
    let trees = trees(alloc, t)?;
    format!(in alloc; "{version}\t{name}\t{id}\t{retries}\t{eta}\t{expires}\t{trees}")
}

/// The arguments and the keywords of a task.
fn trees(alloc: Global, t: &Task) -> Result<String, AllocError> {
    let args = t.args.to_string(alloc)?;
    let kwargs = t.kwargs.to_string(alloc)?;
    format!(in alloc; "{args}\t{kwargs}")
}

/// The microseconds of a moment, where there is one.
fn micros(alloc: Global, moment: Option<Moment>) -> Result<String, AllocError> {
    match moment {
        Some(moment) => {
            let micros = moment.0;
            format!(in alloc; "{micros}")
        }
        None => String::from_str(alloc, "none"),
    }
}

/// Reads the task of an envelope as often as a line says.
fn rounds(alloc: Global, rest: &str) -> Result<String, AllocError> {
    let Some((count, text)) = rest.split_once('\t') else {
        return String::from_str(alloc, "no fields");
    };
    let Ok(count) = count.parse::<u32>() else {
        return String::from_str(alloc, "no number");
    };
    let mut told = String::new(alloc);
    for _ in 0..count {
        told = task(alloc, text)?;
    }
    Ok(told)
}

/// Drafts and seals the task of an envelope, under the tag 7:1, as often as a line says.
fn drafts(alloc: Global, rest: &str) -> Result<String, AllocError> {
    let Some((count, text)) = rest.split_once('\t') else {
        return String::from_str(alloc, "no fields");
    };
    let Ok(count) = count.parse::<u32>() else {
        return String::from_str(alloc, "no number");
    };
    match read_envelope(alloc, text.as_bytes()) {
        Ok(e) => drafted(alloc, &e, count),
        Err(_) => String::from_str(alloc, "no envelope"),
    }
}

/// The envelope of the task of an envelope, drafted so often.
fn drafted(alloc: Global, e: &Envelope, count: u32) -> Result<String, AllocError> {
    let t = match read(alloc, e) {
        Ok(t) => t,
        Err(fault) => return String::from_str(alloc, fault_name(fault)),
    };
    let mut told = String::new(alloc);
    for _ in 0..count {
        told = sealed(alloc, e, &t)?;
    }
    Ok(told)
}

/// The envelope of a task, sent the way of another envelope.
fn sealed(alloc: Global, e: &Envelope, t: &Task) -> Result<String, AllocError> {
    if !can_draft(t) {
        return String::from_str(alloc, "no draft");
    }
    let made = draft(alloc, t, e.exchange(), e.routing_key(), e.priority() as i64)?;
    match seal(alloc, &made, Tag::of(7, 1)) {
        Ok(next) => copied(alloc, next.text()),
        Err(_) => String::from_str(alloc, "no envelope"),
    }
}

/// The envelope of a task that is sent again under the tag 8:1, at a moment.
fn sent_again(alloc: Global, rest: &str) -> Result<String, AllocError> {
    let Some((eta, text)) = rest.split_once('\t') else {
        return String::from_str(alloc, "no fields");
    };
    let Ok(eta) = eta.parse::<i64>() else {
        return String::from_str(alloc, "no number");
    };
    match read_envelope(alloc, text.as_bytes()) {
        Ok(e) => next_of(alloc, &e, Moment(eta)),
        Err(_) => String::from_str(alloc, "no envelope"),
    }
}

/// The envelope of the task of an envelope, sent again.
fn next_of(alloc: Global, e: &Envelope, eta: Moment) -> Result<String, AllocError> {
    match read(alloc, e) {
        Ok(t) => retried(alloc, e, &t, eta),
        Err(fault) => String::from_str(alloc, fault_name(fault)),
    }
}

/// The envelope of a task that was read from an envelope, sent again.
fn retried(alloc: Global, e: &Envelope, t: &Task, eta: Moment) -> Result<String, AllocError>
    requires { task_of (data_of e.now) ≡ Ok (task_view t.now) }
{
    if !eta.is_within_years() || t.retries == u32::MAX {
        return String::from_str(alloc, "none");
    }
    match again(alloc, e, t, Tag::of(8, 1), eta) {
        Ok(next) => copied(alloc, next.text()),
        Err(fault) => String::from_str(alloc, fault_name(fault)),
    }
}
