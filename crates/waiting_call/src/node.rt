//! The top call of the programs that wait for others: words, a sink, a net and a clock to a status.
ghost use Rattle.std.specs.Prelude.{false, map, ◌≡◌};
ghost use Rattle.links.specs.Views.{sink_view, source_view};
ghost use Rattle.serve_run.specs.NetViews.{net_view};
ghost use Rattle.waiting_call.specs.Endings.{TellsEnd};
ghost use Rattle.publish_run.specs.PublishRuns.{net_shows};
ghost use Rattle.wait_words.specs.Words.{names_publish};
ghost use Rattle.waiting_call.specs.Publishes.{HasRunWait};
ghost use Rattle.waiting_call.specs.Servings.{HasServedWords, HasWaited};
ghost use Rattle.waiting_call.specs.Statuses.{IsWaitingEnd};

use crate::ending::WaitEnd;
use crate::publishing::publish_call;
use links::{Sink, Source};
use net_links::{Clock, Net};
use serve_run::serve_told;
use std::alloc::Global;
use top_call::{Ended, out_of_memory, write_text};
use wait_words::{address_in, bad_word, connections_in, names_publish, turns_in};

/// Runs the program that the words name, over a source, a sink, a net and a clock.
///
/// The words are those of `serve` or of `publish`.
///
/// `serve ADDRESS --connections N [--turns N]`, the options in any order, waits at the address, and serves N connections,
/// at most 4,095, one after the other, by one store that begins empty; each session has at most so many turns, 1,000,000
/// where nothing is said of them. It reads nothing of the source. As each session ends it writes
/// `session <number> <why> <commands>`; the text of its status follows these lines.
///
/// `publish ADDRESS --seed N`, N from 1 to 2^62, reads a publish script of at most 64 MiB to its end and checks it, connects
/// to the address, and says the script's blocks over that link, in order. As each publication ends it writes
/// `published <tag>` or `no queue <tag>`, the tag `N:<counter>`; the text of its status follows these lines.
///
/// | Status | Comes where | Text |
/// |---|---|---|
/// | 0 | all connections were served; `publish`: all of the script was said | no more than the lines |
/// | 2 | a word is bad, or one is missing; `place` is the first bad one, counted from 0, or the count of words | `bad word <place>` |
/// | 3 | `publish`: a line is bad; `place` is the first one, counted from 1; nothing was sent | `bad line <place>: <reason>` |
/// | 4 | `publish`: the source failed; nothing was sent | `read fault` |
/// | 5 | the sink failed; it stands in place of any other status | a front of what was to be written |
/// | 6 | the net failed; `publish`: or the link failed or ended, or what came is no RESP2, or 1,025 values were pushed before one reply | `link fault` |
/// | 9 | all connections were served, and a session found its store's history full | `history full <entries> <bytes>` |
/// | 10 | `publish`: the store's answer isn't one that the block lists there; nothing more was sent | `store refused <short form of the answer>` |
/// | 11 | there was no memory | `out of memory` |
///
/// No store of today has a history that can be full, so that no run ends with status 9.
pub fn run_wait<S: Source, K: Sink, N: Net, C: Clock>(
    alloc: Global,
    words: &[&str],
    src: &mut S,
    out: &mut K,
    net: &mut N,
    clock: &C,
) -> Ended
    ensures ended { HasRunWait (C.gives clock.now) (map (λ w. w.now) words.now)
        (source_view S.left S.read_faults S.ends src.old) (source_view S.left S.read_faults S.ends src.new)
        (net_shows N.closed N.faults N.closed_faults net.old) (net_shows N.closed N.faults N.closed_faults net.new)
        (sink_view K.taken K.write_faults out.old) (sink_view K.taken K.write_faults out.new) result }
    ensures each { names_publish (map (λ w. w.now) words.now) ≡ false → IsWaitingEnd (C.gives clock.now) (map (λ w. w.now) words.now)
        (net_view N.closed N.faults net.old) (net_view N.closed N.faults net.new)
        (sink_view K.taken K.write_faults out.old) (sink_view K.taken K.write_faults out.new) result }
{
    if names_publish(words) {
        publish_call(alloc, words, src, out, net)
    } else {
        serve_call(alloc, words, out, net, clock)
    }
}

/// Runs `serve`, or tells a bad word.
fn serve_call<K: Sink, N: Net, C: Clock>(
    alloc: Global,
    words: &[&str],
    out: &mut K,
    net: &mut N,
    clock: &C,
) -> Ended
    ensures ended { HasWaited (C.gives clock.now) (map (λ w. w.now) words.now)
        (net_view N.closed N.faults net.old) (net_view N.closed N.faults net.new)
        (sink_view K.taken K.write_faults out.old) (sink_view K.taken K.write_faults out.new) result }
{
    match bad_word(words) {
        Some(place) => finish(alloc, out, WaitEnd::BadWord(place)),
        None => serve_words(alloc, words, out, net, clock),
    }
}

/// Serves as lawful words ask, and tells the end.
fn serve_words<K: Sink, N: Net, C: Clock>(
    alloc: Global,
    words: &[&str],
    out: &mut K,
    net: &mut N,
    clock: &C,
) -> Ended
    ensures served { HasServedWords (C.gives clock.now) (map (λ w. w.now) words.now)
        (net_view N.closed N.faults net.old) (net_view N.closed N.faults net.new)
        (sink_view K.taken K.write_faults out.old) (sink_view K.taken K.write_faults out.new) result }
{
    let connections = connections_in(words);
    let turns = turns_in(words);
    let address = address_in(words);
    let served = serve_told(alloc, out, net, clock, address, connections, turns);
    match WaitEnd::of(served) {
        Some(end) => finish(alloc, out, end),
        None => Ended {
            status: 5,
            place: 0,
            left: 0,
        },
    }
}

/// Writes the text of an end, or of want of memory where there is none for that text; that the net failed is written
/// without memory.
pub(crate) fn finish<K: Sink>(alloc: Global, out: &mut K, end: WaitEnd) -> Ended
    ensures { TellsEnd end (sink_view K.taken K.write_faults out.old) (sink_view K.taken K.write_faults out.new) result }
{
    let ended = end.ended();
    if let WaitEnd::LinkFault = end {
        return write_text(out, ended, b"link fault\n");
    }
    match end.text(alloc) {
        Ok(text) => write_text(out, ended, text.as_slice()),
        Err(_) => out_of_memory(out),
    }
}
