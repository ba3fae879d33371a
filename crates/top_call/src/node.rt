//! The top call: words, a source and a sink to a status.
ghost use Rattle.std.specs.Prelude.{Contains, IfOk, List, [], false, map, true, ℕ, ◌∷◌, ◌≡◌, ◌≤◌, ◌⊎◌};
ghost use Rattle.top_call.specs.Endings.{EndsAs, HasEnded, HasTold, IsMadeTold, MayEnd, IsTold, Took, WritesText, Written, telling};
ghost use Rattle.top_call.specs.Makings.{IsMaking};
ghost use Rattle.place_model.specs.Histories.{after};
ghost use Rattle.place_model.specs.Shown.{history_of};
ghost use Rattle.top_call.specs.Mappings.{asked_text, end_given, end_written};
ghost use Rattle.top_call.specs.Replays.{calm_statuses, replay_run};
ghost use Rattle.top_call.specs.Statuses.{IsAnswerTo, IsBadLine, IsBadWord, IsHistoryFull, IsOutOfMemory, IsReadFault, IsReported, IsWriteFault};
ghost use Rattle.top_call.specs.Showings.{IsShowing};
ghost use Rattle.top_call.specs.Words.{bad_place, is_apart, is_recording, is_show, made_count, reads_schedule};
ghost use Rattle.links.specs.Causes.{Rose};
ghost use Rattle.links.specs.Views.{sink_view, source_view};

use crate::ending::{End, Ended};
use crate::making::made_end;
use crate::words::{bad_word, is_recording, is_show, made_count};
use history_records::write_history;
use line_text::INPUT_LIMIT;
use links::{ReadEnd, Sink, Source, read_to_end, write_all};
use replay::{RunFault, ScheduleRun, report_ran, run_whole};
use std::alloc::{AllocError, Global};
use wire_show::{ShowEnd, show};
use wire_values::Bytes;

/// Runs the program that the words name, over a source and a sink.
///
/// The words are exactly `replay`, `replay --record`, `replay --make` with a number from 1 to 50,000, or `show`. `replay`
/// reads a schedule of at most 64 MiB and writes the report of the history that the schedule determines, with `--record`
/// its record; with `--make` it reads nothing, makes a schedule of so many messages, runs its text, and writes how many
/// entries its history has and how many messages are in each place. Nothing is written before the whole result is known,
/// and then one text alone.
/// `show` reads a stream of RESP2 values, of at most 64 MiB, and writes each on a line as soon as it is whole; the text of
/// its status follows these lines.
///
/// | Status | Comes where | Text |
/// |---|---|---|
/// | 0 | the input was read to its end, and each line is good; `show`: and is whole values | the report, the record, or the two lines of `--make`; `show`: no more than the lines |
/// | 2 | a word is bad; `place` is the first one, counted from 0 | `bad word <place>` |
/// | 3 | a line is bad; `place` is the first one, counted from 1 | `bad line <place>: <reason>` |
/// | 3 | `show`: the byte at `place` is wrong, or a value passes its limit there | `fault <kind> at <place>` |
/// | 3 | `show`: the input ends within the value that begins at `place` | `unfinished at <place>` |
/// | 3 | `show`: there is a byte past 64 MiB, which is `place`, and none before it is wrong | `long at 67108864` |
/// | 4 | the source failed | `read fault` |
/// | 5 | the sink failed; it stands in place of any other status | a front of what was to be written |
/// | 9 | a line was to add to a history of 1,000,000 entries, or of costs of 2^30 bytes | `history full <entries> <bytes>` |
/// | 11 | there was no memory | `out of memory` |
pub fn run<S: Source, K: Sink>(alloc: Global, words: &[&str], src: &mut S, out: &mut K) -> Ended
    ensures ended { HasEnded (map (λ w. w.now) words.now)
        (source_view S.left S.read_faults S.ends src.old) (source_view S.left S.read_faults S.ends src.new)
        (sink_view K.taken K.write_faults out.old) (sink_view K.taken K.write_faults out.new) result }
    ensures took { Took (source_view S.left S.read_faults S.ends src.old) (source_view S.left S.read_faults S.ends src.new) }
    ensures sink_later { K.write_faults out.old ≤ K.write_faults out.new }
    ensures reported { is_apart (map (λ w. w.now) words.now) ≡ false → result.status ≡ 0 → IsReported (map (λ w. w.now) words.now)
        (source_view S.left S.read_faults S.ends src.old) (source_view S.left S.read_faults S.ends src.new)
        (sink_view K.taken K.write_faults out.old) (sink_view K.taken K.write_faults out.new) }
    ensures bad_word { result.status ≡ 2 → IsBadWord (map (λ w. w.now) words.now)
        (source_view S.left S.read_faults S.ends src.old) (source_view S.left S.read_faults S.ends src.new)
        (sink_view K.taken K.write_faults out.old) (sink_view K.taken K.write_faults out.new) result.place }
    ensures bad_line { is_apart (map (λ w. w.now) words.now) ≡ false → result.status ≡ 3 → IsBadLine (map (λ w. w.now) words.now)
        (source_view S.left S.read_faults S.ends src.old) (source_view S.left S.read_faults S.ends src.new)
        (sink_view K.taken K.write_faults out.old) (sink_view K.taken K.write_faults out.new) result.place }
    ensures read_fault { is_apart (map (λ w. w.now) words.now) ≡ false → result.status ≡ 4 → IsReadFault
        (source_view S.left S.read_faults S.ends src.old) (source_view S.left S.read_faults S.ends src.new)
        (sink_view K.taken K.write_faults out.old) (sink_view K.taken K.write_faults out.new) }
    ensures write_fault { is_apart (map (λ w. w.now) words.now) ≡ false → result.status ≡ 5 → IsWriteFault (map (λ w. w.now) words.now)
        (source_view S.left S.read_faults S.ends src.old) (source_view S.left S.read_faults S.ends src.new)
        (sink_view K.taken K.write_faults out.old) (sink_view K.taken K.write_faults out.new) }
    ensures history_full { is_apart (map (λ w. w.now) words.now) ≡ false → result.status ≡ 9 → IsHistoryFull (map (λ w. w.now) words.now)
        (source_view S.left S.read_faults S.ends src.old) (source_view S.left S.read_faults S.ends src.new)
        (sink_view K.taken K.write_faults out.old) (sink_view K.taken K.write_faults out.new) }
    ensures out_of_memory { is_apart (map (λ w. w.now) words.now) ≡ false → result.status ≡ 11 → IsOutOfMemory
        (source_view S.left S.read_faults S.ends src.old) (source_view S.left S.read_faults S.ends src.new)
        (sink_view K.taken K.write_faults out.old) (sink_view K.taken K.write_faults out.new) }
    ensures show { is_show (map (λ w. w.now) words.now) ≡ true → IsShowing
        (source_view S.left S.read_faults S.ends src.old) (source_view S.left S.read_faults S.ends src.new)
        (sink_view K.taken K.write_faults out.old) (sink_view K.taken K.write_faults out.new) result }
    ensures making { (messages : ℕ) → made_count (map (λ w. w.now) words.now) ≡ Some messages → IsMaking messages
        (source_view S.left S.read_faults S.ends src.old) (source_view S.left S.read_faults S.ends src.new)
        (sink_view K.taken K.write_faults out.old) (sink_view K.taken K.write_faults out.new) result }
    ensures statuses { Contains (0 ∷ 2 ∷ 3 ∷ 4 ∷ 5 ∷ 9 ∷ 11 ∷ []) result.status }
    ensures unlawful { (place : ℕ) → bad_place (map (λ w. w.now) words.now) ≡ Some place → Contains (2 ∷ 5 ∷ 11 ∷ []) result.status }
    ensures complete { (schedule : List ℕ) → reads_schedule (map (λ w. w.now) words.now) ≡ true → S.left src.old ≡ Some schedule
        → ¬ (Rose (S.read_faults src.old) (S.read_faults src.new)) → ¬ (Rose (K.write_faults out.old) (K.write_faults out.new))
        → Contains (calm_statuses (replay_run schedule)) result.status }
    ensures told { (schedule : List ℕ) → reads_schedule (map (λ w. w.now) words.now) ≡ true → S.left src.old ≡ Some schedule → IsAnswerTo (map (λ w. w.now) words.now) schedule
        (sink_view K.taken K.write_faults out.old) (sink_view K.taken K.write_faults out.new) result }
{
    if is_show(words) {
        return show_stream(alloc, src, out);
    }
    if let Some(messages) = made_count(words) {
        return tell_made(alloc, messages, out);
    }
    let end = judge(alloc, words, src);
    finish(alloc, out, end)
}

/// Runs the made schedule of so many messages, and tells its end.
fn tell_made<K: Sink>(alloc: Global, messages: u64, out: &mut K) -> Ended
    ensures { IsMadeTold messages (sink_view K.taken K.write_faults out.old) (sink_view K.taken K.write_faults out.new) result }
{
    let end = made_end(alloc, messages);
    finish(alloc, out, end)
}

/// Shows a stream, and tells its end.
fn show_stream<S: Source, K: Sink>(alloc: Global, src: &mut S, out: &mut K) -> Ended
    ensures { HasTold
        (source_view S.left S.read_faults S.ends src.old) (source_view S.left S.read_faults S.ends src.new)
        (sink_view K.taken K.write_faults out.old) (sink_view K.taken K.write_faults out.new) result }
{
    let shown = show(alloc, src, out);
    match told(shown) {
        Some(end) => finish(alloc, out, end),
        None => Ended {
            status: 5,
            place: 0,
            left: 0,
        },
    }
}

/// The end of a run by that of its showing; none where the sink failed, so that nothing more is told.
fn told(shown: ShowEnd) -> Option<End>
    ensures { result ≡ telling shown }
{
    match shown {
        ShowEnd::Whole => Some(End::Shown),
        ShowEnd::Bad { kind, place } => Some(End::BadByte { kind, place }),
        ShowEnd::Unfinished { place } => Some(End::Unfinished(place)),
        ShowEnd::Long => Some(End::LongStream),
        ShowEnd::ReadFault => Some(End::ReadFault),
        ShowEnd::WriteFault => None,
        ShowEnd::Memory => Some(End::Memory),
    }
}

/// Writes the text of an end, or of want of memory where there is none for that text; that the source failed is written
/// without memory.
fn finish<K: Sink>(alloc: Global, out: &mut K, end: End) -> Ended
    ensures { IsTold end (sink_view K.taken K.write_faults out.old) (sink_view K.taken K.write_faults out.new) result }
{
    let ended = end.ended();
    if let End::ReadFault = end {
        return write_text(out, ended, b"read fault\n");
    }
    match end.into_text(alloc) {
        Ok(text) => write_text(out, ended, text.as_slice()),
        Err(_) => out_of_memory(out),
    }
}

/// Ends a run for want of memory, and takes none.
pub fn out_of_memory<K: Sink>(out: &mut K) -> Ended
    ensures { Written (sink_view K.taken K.write_faults out.old) (sink_view K.taken K.write_faults out.new) End.Memory result }
{
    write_text(out, End::Memory.ended(), b"out of memory\n")
}

/// What the words, which ask for no program that reads no schedule, and the input lead to.
fn judge<S: Source>(alloc: Global, words: &[&str], src: &mut S) -> End
    requires { is_apart (map (λ w. w.now) words.now) ≡ false }
    ensures shown { MayEnd (map (λ w. w.now) words.now)
        (source_view S.left S.read_faults S.ends src.old) (source_view S.left S.read_faults S.ends src.new) result }
    ensures took { Took (source_view S.left S.read_faults S.ends src.old) (source_view S.left S.read_faults S.ends src.new) }
{
    if let Some(place) = bad_word(words) {
        return End::BadWord(place);
    }
    let recording = is_recording(words);
    match read_to_end(alloc, src, INPUT_LIMIT as u64) {
        Ok(bytes) => replayed(alloc, bytes.as_slice(), recording),
        Err(ReadEnd::Long(bytes)) => replayed(alloc, bytes.as_slice(), recording),
        Err(ReadEnd::Fault) => End::ReadFault,
        Err(ReadEnd::Memory) => End::Memory,
    }
}

/// What a schedule leads to: the report of its history, or its record, its first bad line, or the numbers of a full
/// history.
fn replayed(alloc: Global, schedule: &[u8], recording: bool) -> End
    ensures { EndsAs recording schedule.now result }
{
    match run_whole(alloc, schedule) {
        Ok(ran) => match asked_text(alloc, ran, recording) {
            Ok(text) => text_end(text, recording),
            Err(_) => End::Memory,
        },
        Err(fault) => end_of(fault),
    }
}

/// The record of a run's history, or its report.
fn asked_text(alloc: Global, ran: ScheduleRun, recording: bool) -> Result<Bytes, AllocError>
    requires { ran.store.state ≡ (after (history_of ran.history)).store }
    ensures { IfOk result (λ text. text ≡ asked_text recording (history_of ran.history)) }
{
    if recording {
        return write_history(alloc, &ran.history);
    }
    report_ran(alloc, ran)
}

/// The end of a run by the text of its history.
fn text_end(text: Bytes, recording: bool) -> End
    ensures { result ≡ end_written text recording }
{
    if recording {
        End::Recorded(text)
    } else {
        End::Reported(text)
    }
}

/// The end of a run whose schedule gave no history.
pub(crate) fn end_of(fault: RunFault) -> End
    ensures { result ≡ end_given fault }
{
    match fault {
        RunFault::Bad(bad) => End::BadLine(bad),
        RunFault::Full { entries, bytes } => End::Full { entries, bytes },
        RunFault::Memory => End::Memory,
    }
}

/// Writes a text, and answers this end of a run, or status 5 where the sink failed.
pub fn write_text<K: Sink>(out: &mut K, ended: Ended, text: &[u8]) -> Ended
    ensures { WritesText (sink_view K.taken K.write_faults out.old) (sink_view K.taken K.write_faults out.new) text.now ended result }
{
    match write_all(out, text) {
        Ok(()) => ended,
        Err(_) => Ended {
            status: 5,
            place: 0,
            left: 0,
        },
    }
}
