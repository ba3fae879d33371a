//! Showing what comes from a source.
ghost use Rattle.std.specs.Prelude.{◌≡◌, ◌≤◌, [], IfOk, length, List, vec_len, ℕ};
ghost use Rattle.links.specs.Views.{SinkView, SourceView, sink_view, source_view};
ghost use Rattle.wire_show.specs.Shows.{HasShown, IsReadSoFar, input_limit};
ghost use Rattle.wire_show.specs.Runs.{EndsRead, HasGivenAll, HasReadOn, HasReadPast};

use crate::ending::ShowEnd;
use crate::showing::Showing;
use line_text::INPUT_LIMIT;
use links::{Sink, Source};
use resp_wire::Decoder;
use std::alloc::{AllocError, Global};

/// How many bytes one read asks for at most.
const PIECE: usize = 65_536;

/// Reads RESP2 values from a source to its end, and writes each on a line in value form as soon as it is whole.
///
/// It ends at the first fault, at the end of the source, or one byte past `INPUT_LIMIT`. Of its own end it writes no line.
pub fn show<S: Source, K: Sink>(alloc: Global, src: &mut S, out: &mut K) -> ShowEnd
    ensures { HasShown
        (source_view S.left S.read_faults S.ends src.old) (source_view S.left S.read_faults S.ends src.new)
        (sink_view K.taken K.write_faults out.old) (sink_view K.taken K.write_faults out.new) result }
{
    match room(alloc) {
        Ok(mut room) => {
            let mut showing = Showing::new(alloc);
            show_all(alloc, src, out, &mut showing, room.as_mut_slice())
        }
        Err(_) => ShowEnd::Memory,
    }
}

/// Room for one piece, on the heap.
fn room(alloc: Global) -> Result<Vec<u8>, AllocError>
    ensures { IfOk result (λ room. 1 ≤ vec_len room) }
{
    vec![in alloc; 0; PIECE]
}

/// Shows by pieces of at most this room.
fn show_all<S: Source, K: Sink>(
    alloc: Global,
    src: &mut S,
    out: &mut K,
    showing: &mut Showing,
    room: &mut [u8],
) -> ShowEnd
    requires given { HasGivenAll showing.old.decoder [] [] }
    requires lines { showing.old.lines.ready.items ≡ [] }
    requires room { 1 ≤ length room.old }
    ensures { HasShown
        (source_view S.left S.read_faults S.ends src.old) (source_view S.left S.read_faults S.ends src.new)
        (sink_view K.taken K.write_faults out.old) (sink_view K.taken K.write_faults out.new) result }
{
    match show_pieces(alloc, src, out, showing, room) {
        Some(end) => end,
        None => read_past(src, &showing.decoder, room),
    }
}

/// Shows up to the limit; none is the answer where it was reached.
fn show_pieces<S: Source, K: Sink>(
    alloc: Global,
    src: &mut S,
    out: &mut K,
    showing: &mut Showing,
    room: &mut [u8],
) -> Option<ShowEnd>
    requires given { HasGivenAll showing.old.decoder [] [] }
    requires lines { showing.old.lines.ready.items ≡ [] }
    requires room { 1 ≤ length room.old }
    ensures shown { HasReadOn
        (source_view S.left S.read_faults S.ends src.old) (source_view S.left S.read_faults S.ends src.new)
        (sink_view K.taken K.write_faults out.old) (sink_view K.taken K.write_faults out.new) showing.new.decoder result }
    ensures room { length room.new ≡ length room.old }
{
    let mut taken = 0;
    'pieces: while taken < INPUT_LIMIT {
        let want = (INPUT_LIMIT - taken).min(room.len());
        let Ok(count) = src.read(&mut room[..want]) else {
            return Some(ShowEnd::ReadFault);
        };
        if count == 0 {
            return Some(ended(&showing.decoder, taken as u64));
        }
        if let Some(end) = showing.take(alloc, &room[..count], out) {
            return Some(end);
        }
        taken += count;
    }
    None
}

/// Looks whether there is a byte past the limit.
fn read_past<S: Source>(src: &mut S, decoder: &Decoder, room: &mut [u8]) -> ShowEnd
    requires { 1 ≤ length room.old }
    ensures { (first : SourceView) (bytes text : List ℕ)
        → IsReadSoFar first (source_view S.left S.read_faults S.ends src.old) bytes → length bytes ≡ input_limit
        → HasGivenAll decoder.now bytes text → (old new : SinkView) → HasReadPast first (source_view S.left S.read_faults S.ends src.new) old new text result }
{
    match src.read(&mut room[..1]) {
        Ok(count) => {
            if count == 0 {
                ended(decoder, INPUT_LIMIT as u64)
            } else {
                ShowEnd::Long
            }
        }
        Err(_) => ShowEnd::ReadFault,
    }
}

/// How a stream of so many bytes ends that was read to its end.
fn ended(decoder: &Decoder, read: u64) -> ShowEnd
    ensures { (bytes text : List ℕ) → length bytes ≡ read → read ≤ input_limit
        → HasGivenAll decoder.now bytes text → EndsRead bytes text result }
{
    let left = decoder.pending();
    if left == 0 {
        ShowEnd::Whole
    } else {
        ShowEnd::Unfinished {
            place: read.saturating_sub(left),
        }
    }
}
