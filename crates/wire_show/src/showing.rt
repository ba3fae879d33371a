//! A decoder with the lines of the values that it gave.
ghost use Rattle.std.specs.Prelude.{◌≡◌, ◌<◌, ◌++◌, [], None, List, ℕ};
ghost use Rattle.links.specs.Views.{sink_view};
ghost use Rattle.resp_wire.specs.Moves.{unread_of};
ghost use Rattle.wire_show.specs.Runs.{Drains, GivesLines, HasGivenAll, HasGivenLines};
ghost use Rattle.wire_show.specs.declared.showing.NextLine.TheVariants.{Added};

use crate::ending::ShowEnd;
use crate::lines::ValueLines;
use links::Sink;
use resp_wire::{Decoder, WireFault};
use std::alloc::Global;
use wire_grammar::WireKind;

/// How many bytes of lines are gathered before they are written.
const FULL: usize = 65_536;

/// A decoder, and the lines that are to be written of its values.
#[derive(Drop)]
pub struct Showing {
    pub decoder: Decoder,
    pub lines: ValueLines,
}

/// What came of asking for one line more.
#[derive(Clone, Copy)]
pub enum NextLine {
    /// A line was added.
    Added,
    /// No value is whole, and the rest goes on to one.
    Front,
    /// The rest has a fault.
    Bad { kind: WireKind, place: u64 },
    /// There was no memory.
    Memory,
}

impl Showing {
    /// Nothing was read yet. It takes no memory.
    pub fn new(alloc: Global) -> Self
        ensures given { HasGivenAll result.decoder [] [] }
        ensures lines { result.lines.ready.items ≡ [] }
    {
        Showing {
            decoder: Decoder::new(alloc),
            lines: ValueLines::new(alloc),
        }
    }

    /// Adds the line of the decoder's next value.
    fn add_next(&mut self, alloc: Global) -> NextLine
        ensures less { result ≡ Added → unread_of self.new.decoder < unread_of self.old.decoder }
        ensures gives { (stream text : List ℕ) → HasGivenLines self.old.decoder stream (text ++ self.old.lines.ready.items)
            → GivesLines self.new.decoder stream (text ++ self.new.lines.ready.items) result }
    {
        match self.decoder.next(alloc) {
            Ok(Some(value)) => match self.lines.put(alloc, value) {
                Ok(()) => NextLine::Added,
                Err(_) => NextLine::Memory,
            },
            Ok(None) => NextLine::Front,
            Err(WireFault::Bad { kind, place }) => NextLine::Bad { kind, place },
            Err(WireFault::Memory) => NextLine::Memory,
        }
    }

    /// Adds the lines of the decoder's next values, until there are many, or no value is whole.
    fn gather(&mut self, alloc: Global) -> NextLine
        ensures less { result ≡ Added → unread_of self.new.decoder < unread_of self.old.decoder }
        ensures gives { (stream text : List ℕ) → HasGivenLines self.old.decoder stream (text ++ self.old.lines.ready.items)
            → GivesLines self.new.decoder stream (text ++ self.new.lines.ready.items) result }
    {
        'lines: loop {
            match self.add_next(alloc) {
                NextLine::Added => {
                    if self.lines.ready.len() >= FULL {
                        return NextLine::Added;
                    }
                }
                next => return next,
            }
        }
    }

    /// Writes the lines of all values that are whole; none is the answer where the rest goes on to one.
    fn drain<K: Sink>(&mut self, alloc: Global, out: &mut K) -> Option<ShowEnd>
        requires { self.old.lines.ready.items ≡ [] }
        ensures none { result ≡ None → self.new.lines.ready.items ≡ [] }
        ensures drains { (stream text : List ℕ) → HasGivenLines self.old.decoder stream text
            → Drains self.new.decoder stream text (sink_view K.taken K.write_faults out.old) (sink_view K.taken K.write_faults out.new) result }
    {
        'lines: loop {
            let next = self.gather(alloc);
            match self.lines.write(out) {
                Ok(()) => match next {
                    NextLine::Added => {}
                    NextLine::Front => return None,
                    NextLine::Bad { kind, place } => return Some(ShowEnd::Bad { kind, place }),
                    NextLine::Memory => return Some(ShowEnd::Memory),
                },
                Err(_) => return Some(ShowEnd::WriteFault),
            }
        }
    }

    /// Takes the next piece of the stream, and writes the lines of all values that are whole then.
    pub fn take<K: Sink>(&mut self, alloc: Global, piece: &[u8], out: &mut K) -> Option<ShowEnd>
        requires { self.old.lines.ready.items ≡ [] }
        ensures none { result ≡ None → self.new.lines.ready.items ≡ [] }
        ensures drains { (stream text : List ℕ) → HasGivenLines self.old.decoder stream text
            → Drains self.new.decoder (stream ++ piece.now) text (sink_view K.taken K.write_faults out.old) (sink_view K.taken K.write_faults out.new) result }
    {
        match self.decoder.feed(alloc, piece) {
            Ok(()) => self.drain(alloc, out),
            Err(_) => Some(ShowEnd::Memory),
        }
    }
}
