//! `publish`: words, a source, a sink and a net to a status.
ghost use Rattle.std.specs.Prelude.{IfOk, map, string_bytes, ◌≡◌};
ghost use Rattle.links.specs.Views.{sink_view, source_view};
ghost use Rattle.publish_run.specs.PublishRuns.{net_shows};
ghost use Rattle.publish_run.specs.declared.ending.PublishingEnd.TheVariants.{BadLine as Bad};
ghost use Rattle.waiting_call.specs.Publishes.{HasPublishedCall, HasPublishedWords, TellsPublishing, publishing_text, refused_text};

use crate::ending::WaitEnd;
use crate::node::finish;
use line_text::{BadLine, short_value};
use links::{Sink, Source};
use net_links::Net;
use publish_run::{PublishingEnd, publish_told};
use replay::Celery;
use std::alloc::{AllocError, Global};
use top_call::{Ended, out_of_memory, write_text};
use wait_words::{address_in, bad_word, seed_in};
use wire_values::Value;

/// Runs `publish`, which the first word names.
pub(crate) fn publish_call<S: Source, K: Sink, N: Net>(
    alloc: Global,
    words: &[&str],
    src: &mut S,
    out: &mut K,
    net: &mut N,
) -> Ended
    ensures ended { HasPublishedCall (map (λ w. w.now) words.now)
        (source_view S.left S.read_faults S.ends src.old) (source_view S.left S.read_faults S.ends src.new)
        (net_shows N.closed N.faults N.closed_faults net.old) (net_shows N.closed N.faults N.closed_faults net.new)
        (sink_view K.taken K.write_faults out.old) (sink_view K.taken K.write_faults out.new) result }
{
    match bad_word(words) {
        Some(place) => finish(alloc, out, WaitEnd::BadWord(place)),
        None => publish_words(alloc, words, src, out, net),
    }
}

/// Publishes as lawful words ask, and tells the end.
fn publish_words<S: Source, K: Sink, N: Net>(
    alloc: Global,
    words: &[&str],
    src: &mut S,
    out: &mut K,
    net: &mut N,
) -> Ended
    ensures published { HasPublishedWords (map (λ w. w.now) words.now)
        (source_view S.left S.read_faults S.ends src.old) (source_view S.left S.read_faults S.ends src.new)
        (net_shows N.closed N.faults N.closed_faults net.old) (net_shows N.closed N.faults N.closed_faults net.new)
        (sink_view K.taken K.write_faults out.old) (sink_view K.taken K.write_faults out.new) result }
{
    let seed = seed_in(words);
    let address = address_in(words);
    let end = publish_told(alloc, src, out, net, address, seed);
    finish_publishing(alloc, out, end)
}

/// Writes the text of the end of publishing.
fn finish_publishing<K: Sink>(alloc: Global, out: &mut K, end: PublishingEnd) -> Ended
    ensures { TellsPublishing end (sink_view K.taken K.write_faults out.old) (sink_view K.taken K.write_faults out.new) result }
{
    match end {
        PublishingEnd::Published => write_text(out, at(0, 0), b""),
        PublishingEnd::BadLine(bad) => match bad_line_text(alloc, bad) {
            Ok(text) => write_text(out, at(3, bad.line), text.as_bytes()),
            Err(_) => out_of_memory(out),
        },
        PublishingEnd::ReadFault => write_text(out, at(4, 0), b"read fault\n"),
        PublishingEnd::LinkFault => write_text(out, at(6, 0), b"link fault\n"),
        PublishingEnd::Refused(answer) => match refused_text(alloc, &answer) {
            Ok(text) => write_text(out, at(10, 0), text.as_slice()),
            Err(_) => out_of_memory(out),
        },
        PublishingEnd::WriteFault => at(5, 0),
        PublishingEnd::Memory => out_of_memory(out),
    }
}

/// The end of a run of this status and place.
fn at(status: u8, place: u64) -> Ended
    ensures { result ≡ record { status = status; place = place; left = 0 } }
{
    Ended {
        status,
        place,
        left: 0,
    }
}

/// What is written of a bad line.
fn bad_line_text(alloc: Global, bad: BadLine) -> Result<String, AllocError>
    ensures { IfOk result (λ text. string_bytes text ≡ publishing_text (Bad bad)) }
{
    let BadLine { line, reason } = bad;
    let why = reason.text();
    format!(in alloc; "bad line {line}: {why}\n")
}

/// What is written of an answer that isn't listed: `store refused`, and its short form.
fn refused_text(alloc: Global, answer: &Value) -> Result<Vec<u8>, AllocError>
    ensures { IfOk result (λ text. text.items ≡ refused_text answer.now) }
{
    let mut out = Vec::new(alloc);
    out.extend_from_slice(b"store refused ")?;
    short_value(alloc, &Celery, &mut out, answer)?;
    out.push(b'\n')?;
    Ok(out)
}
