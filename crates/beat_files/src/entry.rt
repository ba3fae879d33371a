//! An entry, as its line spells it.
ghost use Rattle.std.specs.Prelude.{◌≡◌, ◌∷◌, ◌&&◌, IfOk, [], map};
ghost use Rattle.std.specs.List.{join_with_byte};
ghost use Rattle.line_text.specs.Numbers.{number_in};
ghost use Rattle.line_text.specs.Words.{is_word, words_of};
ghost use Rattle.line_text.specs.declared.reason.Reason.TheVariants as reason;
ghost use Rattle.schedule_model.specs.Drafts.{arguments_of};
ghost use Rattle.serde_json.specs.View.{view as data_of};
ghost use Rattle.crontabs.specs.FieldTexts.{crontab_in};
ghost use Rattle.beat_files.specs.BeatFiles.{cron_line, cron_words, entry_words, every_line, every_words, line_entry, if_holds, if_there, named_task, queue_in, task_words};
ghost use Rattle.beat_files.specs.Readings.{GivesLine, line_of, sending_of};

use crate::fault::EntryFault;
use beat_times::Timing;
use client_plans::arguments_of;
use crontabs::Crontab;
use envelope::Tree;
use line_text::{LINE_LIMIT, Reason, is_word, line_text, number_in, words};
use queue_keys::{NameFault, QueueName};
use schedule_words::joined;
use std::alloc::Global;
use wire_values::Bytes;

/// What an entry sends.
#[derive(Drop)]
pub struct BeatTask {
    /// The entry's name.
    pub name: Bytes,
    /// The queue that it is sent to.
    pub queue: QueueName,
    /// The name of the task.
    pub task: Bytes,
    /// The positional arguments, an array without a float, nested at most 90 deep.
    pub args: Tree,
}

/// An entry of a file: what it sends, and when it comes due.
#[derive(Drop)]
pub(crate) struct FileEntry {
    pub(crate) task: BeatTask,
    pub(crate) timing: Timing,
}

/// The entry that a line spells, without its line feed.
pub(crate) fn line_entry(alloc: Global, line: &[u8]) -> Result<FileEntry, EntryFault>
    ensures { GivesLine line_of result (line_entry line.now) }
{
    match line_text(LINE_LIMIT, line) {
        Ok(text) => spoken_entry(alloc, text),
        Err(reason) => Err(EntryFault::Bad(reason)),
    }
}

/// The entry of a line's words.
fn spoken_entry(alloc: Global, line: &str) -> Result<FileEntry, EntryFault>
    ensures { GivesLine line_of result (entry_words (words_of line.now)) }
{
    let words = words(alloc, line)?;
    entry_words(alloc, words.as_slice())
}

/// The entry that these words spell.
fn entry_words(alloc: Global, words: &[&str]) -> Result<FileEntry, EntryFault>
    ensures { GivesLine line_of result (entry_words (map (λ word. word.now) words.now)) }
{
    match words {
        [] => Err(EntryFault::Bad(Reason::Syntax)),
        [first, rest @ ..] => named_entry(alloc, first, rest),
    }
}

/// The entry of a first word and the others.
fn named_entry(alloc: Global, first: &str, rest: &[&str]) -> Result<FileEntry, EntryFault>
    ensures { GivesLine line_of result (entry_words (first.now ∷ map (λ word. word.now) rest.now)) }
{
    if first == "every" {
        every_words(alloc, rest)
    } else if first == "cron" {
        cron_words(alloc, rest)
    } else {
        Err(EntryFault::Bad(Reason::Syntax))
    }
}

/// The entry of an interval, by the words after `every`.
fn every_words(alloc: Global, words: &[&str]) -> Result<FileEntry, EntryFault>
    ensures { GivesLine line_of result (every_words (map (λ word. word.now) words.now)) }
{
    match words {
        [] => Err(EntryFault::Bad(Reason::Syntax)),
        [seconds, rest @ ..] => every_line(alloc, seconds, rest),
    }
}

/// The entry of an interval of so many seconds.
#[tactic(auto, unfolding(crate::specs::BeatFiles::every_line))]
fn every_line(alloc: Global, seconds: &str, rest: &[&str]) -> Result<FileEntry, EntryFault>
    ensures { GivesLine line_of result (every_line seconds.now (map (λ word. word.now) rest.now)) }
{
    let seconds = seconds_in(seconds)?;
    let task = task_words(alloc, rest)?;
    Ok(FileEntry {
        task,
        timing: Timing::Every(seconds),
    })
}

/// The seconds of an interval, from 1 to 4,294,967,295.
fn seconds_in(word: &str) -> Result<u32, EntryFault>
    ensures { GivesLine (λ n. n) result (if_there reason.Syntax (number_in 1 4294967295 word.now)) }
{
    match number_in(1, 4_294_967_295, word) {
        Some(number) => Ok(number as u32),
        None => Err(EntryFault::Bad(Reason::Syntax)),
    }
}

/// The entry of a crontab, by the words after `cron`.
fn cron_words(alloc: Global, words: &[&str]) -> Result<FileEntry, EntryFault>
    ensures { GivesLine line_of result (cron_words (map (λ word. word.now) words.now)) }
{
    match words {
        [] | [_] | [_, _] | [_, _, _] | [_, _, _, _] => Err(EntryFault::Bad(Reason::Syntax)),
        [minute, hour, day, month, weekday, rest @ ..] => {
            cron_line(alloc, minute, hour, day, month, weekday, rest)
        }
    }
}

/// The entry of a crontab of these fields.
#[tactic(auto, unfolding(crate::specs::BeatFiles::cron_line))]
fn cron_line(
    alloc: Global,
    minute: &str,
    hour: &str,
    day: &str,
    month: &str,
    weekday: &str,
    rest: &[&str],
) -> Result<FileEntry, EntryFault>
    ensures { GivesLine line_of result
        (cron_line minute.now hour.now day.now month.now weekday.now (map (λ word. word.now) rest.now)) }
{
    want(
        are_fields(minute, hour, day, month, weekday),
        Reason::Syntax,
    )?;
    let task = task_words(alloc, rest)?;
    let crontab = crontab_in(alloc, minute, hour, day, month, weekday)?;
    Ok(FileEntry {
        task,
        timing: Timing::Cron(crontab),
    })
}

/// Whether each of the fields is a word.
fn are_fields(minute: &str, hour: &str, day: &str, month: &str, weekday: &str) -> bool
    ensures { result ≡ (is_word minute.now && is_word hour.now && is_word day.now
        && is_word month.now && is_word weekday.now) }
{
    is_word(minute.as_bytes())
        && is_word(hour.as_bytes())
        && is_word(day.as_bytes())
        && is_word(month.as_bytes())
        && is_word(weekday.as_bytes())
}

/// The crontab of these fields.
fn crontab_in(
    alloc: Global,
    minute: &str,
    hour: &str,
    day: &str,
    month: &str,
    weekday: &str,
) -> Result<Box<Crontab>, EntryFault>
    ensures { GivesLine (λ c. c.value) result
        (if_there reason.Cron (crontab_in minute.now hour.now day.now month.now weekday.now)) }
{
    match Crontab::read(alloc, minute, hour, day, month, weekday)? {
        Some(crontab) => Ok(Box::new(alloc, crontab)?),
        None => Err(EntryFault::Bad(Reason::Cron)),
    }
}

/// What these words say is sent.
fn task_words(alloc: Global, words: &[&str]) -> Result<BeatTask, EntryFault>
    ensures { GivesLine sending_of result (task_words (map (λ word. word.now) words.now)) }
{
    match words {
        [] | [_] | [_, _] => Err(EntryFault::Bad(Reason::Syntax)),
        [name, queue, task, rest @ ..] => task_of(alloc, name, queue, task, rest),
    }
}

/// What is sent with the arguments that these words spell.
fn task_of(
    alloc: Global,
    name: &str,
    queue: &str,
    task: &str,
    words: &[&str],
) -> Result<BeatTask, EntryFault>
    ensures { GivesLine sending_of result
        (task_words (name.now ∷ queue.now ∷ task.now ∷ map (λ word. word.now) words.now)) }
{
    match words {
        [] => Err(EntryFault::Bad(Reason::Syntax)),
        [_, ..] => {
            let text = joined(alloc, words)?;
            named_task(alloc, name, queue, task, text.as_slice())
        }
    }
}

/// What is sent with the arguments of a JSON text.
#[tactic(auto, unfolding(crate::specs::BeatFiles::named_task))]
fn named_task(
    alloc: Global,
    name: &str,
    queue: &str,
    task: &str,
    text: &[u8],
) -> Result<BeatTask, EntryFault>
    ensures { GivesLine sending_of result (named_task name.now queue.now task.now text.now) }
{
    want(are_names(name, queue, task), Reason::Syntax)?;
    let queue = queue_in(alloc, queue)?;
    let args = args_in(alloc, text)?;
    let name = Bytes::from_slice(alloc, name.as_bytes())?;
    let task = Bytes::from_slice(alloc, task.as_bytes())?;
    Ok(BeatTask {
        name,
        queue,
        task,
        args,
    })
}

/// Whether each of these is a word.
fn are_names(name: &str, queue: &str, task: &str) -> bool
    ensures { result ≡ (is_word name.now && is_word queue.now && is_word task.now) }
{
    is_word(name.as_bytes()) && is_word(queue.as_bytes()) && is_word(task.as_bytes())
}

/// A queue's lawful name.
fn queue_in(alloc: Global, word: &str) -> Result<QueueName, EntryFault>
    ensures { GivesLine (λ q. q) result (queue_in word.now) }
{
    match QueueName::new(alloc, word.as_bytes()) {
        Ok(queue) => Ok(queue),
        Err(NameFault::Memory) => Err(EntryFault::Memory),
        Err(NameFault::Reserved) => Err(EntryFault::Bad(Reason::Reserved)),
        Err(NameFault::Empty) | Err(NameFault::Long) | Err(NameFault::Byte(_)) => {
            Err(EntryFault::Bad(Reason::Name))
        }
    }
}

/// The arguments of a JSON text.
fn args_in(alloc: Global, text: &[u8]) -> Result<Tree, EntryFault>
    ensures { GivesLine data_of result (if_there reason.Json (arguments_of text.now)) }
{
    match arguments_of(alloc, text)? {
        Some(args) => Ok(args),
        None => Err(EntryFault::Bad(Reason::Json)),
    }
}

/// What must hold of a line, or it is bad for this reason.
fn want(holds: bool, reason: Reason) -> Result<(), EntryFault>
    ensures { GivesLine (λ u. u) result (if_holds reason holds) }
{
    if holds {
        Ok(())
    } else {
        Err(EntryFault::Bad(reason))
    }
}
