//! A process' run: its words, its streams, its net and its status.
ghost use Rattle.std.specs.Prelude.{List, map, ℕ, ◌≡◌, ◌⊎◌};
ghost use Rattle.links.specs.Views.{sink_view, source_view};
ghost use Rattle.publish_run.specs.PublishRuns.{net_shows};
ghost use Rattle.top_call.specs.Endings.{Written};
ghost use Rattle.top_call.specs.declared.ending.End.TheVariants.{Memory};
ghost use Rattle.waiting_call.specs.Processes.{HasAnsweredWords, names_run};

use crate::node::run_wait;
use links::{Sink, Source};
use net_links::{Clock, Net};
use std::alloc::Global;
use std::env::Env;
use top_call::{Ended, out_of_memory, read_words, run, views};

/// Runs the program that the words of the process name, over a source, a sink, a net and a clock: by `run` of `top_call`
/// where it waits for nobody, else by `run_wait`. Where there is no memory for the words, nothing is read, the text is
/// `out of memory`, and the status 11.
pub fn answer<R: Env, S: Source, K: Sink, N: Net, C: Clock>(
    rt: &R,
    alloc: Global,
    src: &mut S,
    out: &mut K,
    net: &mut N,
    clock: &C,
) -> Ended
    // No contract says which words the system hands over.
    ensures ended { ((words : List (List ℕ)) × HasAnsweredWords (C.gives clock.now) words
        (source_view S.left S.read_faults S.ends src.old) (source_view S.left S.read_faults S.ends src.new)
        (net_shows N.closed N.faults N.closed_faults net.old) (net_shows N.closed N.faults N.closed_faults net.new)
        (sink_view K.taken K.write_faults out.old) (sink_view K.taken K.write_faults out.new) result)
        ⊎ ((source_view S.left S.read_faults S.ends src.new ≡ source_view S.left S.read_faults S.ends src.old)
        × (net_shows N.closed N.faults N.closed_faults net.new ≡ net_shows N.closed N.faults N.closed_faults net.old)
        × Written (sink_view K.taken K.write_faults out.old) (sink_view K.taken K.write_faults out.new) Memory result) }
{
    let Ok(texts) = read_words(rt, alloc) else {
        return out_of_memory(out);
    };
    match views(alloc, texts.as_slice()) {
        Ok(words) => run_named(alloc, words.as_slice(), src, out, net, clock),
        Err(_) => out_of_memory(out),
    }
}

/// Runs the program that the words name.
fn run_named<S: Source, K: Sink, N: Net, C: Clock>(
    alloc: Global,
    words: &[&str],
    src: &mut S,
    out: &mut K,
    net: &mut N,
    clock: &C,
) -> Ended
    ensures ended { HasAnsweredWords (C.gives clock.now) (map (λ w. w.now) words.now)
        (source_view S.left S.read_faults S.ends src.old) (source_view S.left S.read_faults S.ends src.new)
        (net_shows N.closed N.faults N.closed_faults net.old) (net_shows N.closed N.faults N.closed_faults net.new)
        (sink_view K.taken K.write_faults out.old) (sink_view K.taken K.write_faults out.new) result }
{
    if names_run(words) {
        run(alloc, words, src, out)
    } else {
        run_wait(alloc, words, src, out, net, clock)
    }
}

/// Whether the first word is a program that waits for nobody.
fn names_run(words: &[&str]) -> bool
    ensures { result ≡ names_run (map (λ w. w.now) words.now) }
{
    match words {
        [] => false,
        [first, ..] => *first == "replay" || *first == "show",
    }
}
