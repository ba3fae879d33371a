//! Serving connections, and telling of each session as it ends.
ghost use Rattle.links.specs.Views.{sink_view};
ghost use Rattle.serve_run.specs.Lines.{session_line};
ghost use Rattle.serve_run.specs.NetViews.{net_view};
ghost use Rattle.serve_run.specs.ServeRuns.{HasServedOn, HasServedRun};
ghost use Rattle.serve_run.specs.Tellings.{TellsLine, TellsSession};

use crate::ending::ServingEnd;
use crate::lines::session_line;
use links::{Sink, write_all};
use mini_store::Store;
use net_links::{Clock, Net};
use sessions::SessionEnd;
use std::alloc::Global;
use store_server::serve_one;

/// Waits at an address, and serves so many connections at one store that begins empty, numbered from 1, one after the
/// other, each by a session of at most so many turns. As each session ends, its line `session <number> <why> <commands>`
/// is written; after that the next connection is accepted.
///
/// It ends as `ServingEnd` says. Where the sink failed, a front of the last session's line was written; where memory was
/// wanting, the last session may have no line.
pub fn serve_told<K: Sink, N: Net, C: Clock>(
    alloc: Global,
    out: &mut K,
    net: &mut N,
    clock: &C,
    address: &str,
    connections: u32,
    turns: u64,
) -> ServingEnd
    ensures served { HasServedRun (C.gives clock.now) turns connections
        (net_view N.closed N.faults net.old) (net_view N.closed N.faults net.new)
        (sink_view K.taken K.write_faults out.old) (sink_view K.taken K.write_faults out.new) result }
{
    match net.listen(alloc, address) {
        Ok(()) => {
            let mut store = Store::new(alloc);
            serve_each(alloc, &mut store, out, net, clock, connections, turns)
        }
        Err(fault) => ServingEnd::at(fault),
    }
}

/// Serves so many connections at a store, and tells of each session.
fn serve_each<K: Sink, N: Net, C: Clock>(
    alloc: Global,
    store: &mut Store,
    out: &mut K,
    net: &mut N,
    clock: &C,
    connections: u32,
    turns: u64,
) -> ServingEnd
    ensures served { HasServedOn (C.gives clock.now) turns connections store.old store.new
        (net_view N.closed N.faults net.old) (net_view N.closed N.faults net.new)
        (sink_view K.taken K.write_faults out.old) (sink_view K.taken K.write_faults out.new) result }
{
    let mut number = 0;
    let mut so_far = ServingEnd::Served;
    'connections: while number < connections {
        number += 1;
        match serve_next(alloc, store, out, net, clock, number, turns) {
            Ok(end) => so_far = so_far.with(end.why),
            Err(end) => return end,
        }
    }
    so_far
}

/// Serves the next connection, under this number, and tells of its session.
fn serve_next<K: Sink, N: Net, C: Clock>(
    alloc: Global,
    store: &mut Store,
    out: &mut K,
    net: &mut N,
    clock: &C,
    number: u32,
    turns: u64,
) -> Result<SessionEnd, ServingEnd>
    ensures next { TellsSession (C.gives clock.now) turns number store.old store.new
        (net_view N.closed N.faults net.old) (net_view N.closed N.faults net.new)
        (sink_view K.taken K.write_faults out.old) (sink_view K.taken K.write_faults out.new) result }
{
    match serve_one(alloc, store, net, clock, number, turns) {
        Ok(end) => match tell(alloc, out, number, end) {
            Ok(()) => Ok(end),
            Err(stop) => Err(stop),
        },
        Err(fault) => Err(ServingEnd::at(fault)),
    }
}

/// Writes the line of a session.
fn tell<K: Sink>(alloc: Global, out: &mut K, number: u32, end: SessionEnd) -> Result<(), ServingEnd>
    ensures line { TellsLine (sink_view K.taken K.write_faults out.old) (sink_view K.taken K.write_faults out.new) (session_line number end) result }
{
    let Ok(line) = session_line(alloc, number, end) else {
        return Err(ServingEnd::Memory);
    };
    match write_all(out, line.as_bytes()) {
        Ok(()) => Ok(()),
        Err(_) => Err(ServingEnd::WriteFault),
    }
}
