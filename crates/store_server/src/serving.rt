//! Serving one connection after the other.
ghost use Rattle.std.specs.Prelude.{OnErr, OnOk, [], ◌++◌, ◌∷◌, ◌≡◌};
ghost use Rattle.net_links.specs.NetCauses.{HasNetCause};
ghost use Rattle.net_links.specs.LinkViews.{link_view};
ghost use Rattle.store_model.specs.Store.{StoreView};
ghost use Rattle.store_server.specs.Servings.{HasServed, HasServedNext, HasVisited, why_at};

use mini_store::Store;
use net_links::{Clock, Link, Net, NetFault};
use plain_desk::PlainDesk;
use sessions::{SessionEnd, session};
use std::alloc::{AllocError, Global};
use std::mem;

/// Why no more connections are served.
#[derive(Clone, Copy, Drop)]
pub enum ServeWhy {
    /// As many as were wanted were served.
    Ended,
    /// The net failed.
    Net,
    /// There was no memory.
    Memory,
}

/// How serving ended: why, and how each session ended, in their order.
#[derive(Drop)]
pub struct ServeEnd {
    pub why: ServeWhy,
    pub sessions: Vec<SessionEnd>,
}

/// Waits at an address, and serves so many connections, numbered from 1, one after the other, each by a session of at
/// most so many turns. After each session its link is closed, and the store is without what the connection had.
///
/// `Ended` comes when that many sessions ended, however they did; `Net` where the net failed, `Memory` where there was
/// no memory.
pub fn serve_plain<N: Net, C: Clock>(
    alloc: Global,
    store: Store,
    net: &mut N,
    clock: &C,
    address: &str,
    connections: u32,
    turns: u64,
) -> ServeEnd
    ensures served { (left : StoreView) × HasServed (C.gives clock.now) turns connections store left (N.closed net.old) (N.closed net.new) (N.faults net.old) (N.faults net.new) result.sessions.items result.why }
{
    match net.listen(alloc, address) {
        Ok(()) => serve_all(alloc, store, net, clock, connections, turns),
        Err(fault) => ServeEnd {
            why: why_of(fault),
            sessions: Vec::new(alloc),
        },
    }
}

/// Serves so many connections, and gives how their sessions ended.
fn serve_all<N: Net, C: Clock>(
    alloc: Global,
    mut store: Store,
    net: &mut N,
    clock: &C,
    connections: u32,
    turns: u64,
) -> ServeEnd
    ensures served { (left : StoreView) × HasServed (C.gives clock.now) turns connections store left (N.closed net.old) (N.closed net.new) (N.faults net.old) (N.faults net.new) result.sessions.items result.why }
{
    let mut sessions = Vec::new(alloc);
    let why = serve_each(
        alloc,
        &mut store,
        net,
        clock,
        connections,
        turns,
        &mut sessions,
    );
    ServeEnd { why, sessions }
}

/// Serves so many connections, and keeps how their sessions ended.
fn serve_each<N: Net, C: Clock>(
    alloc: Global,
    store: &mut Store,
    net: &mut N,
    clock: &C,
    connections: u32,
    turns: u64,
    sessions: &mut Vec<SessionEnd>,
) -> ServeWhy
    requires none { sessions.old.items ≡ [] }
    ensures served { HasServed (C.gives clock.now) turns connections store.old store.new (N.closed net.old) (N.closed net.new) (N.faults net.old) (N.faults net.new) sessions.new.items result }
{
    let mut number = 0;
    'connections: while number < connections {
        number += 1;
        match serve_one(alloc, store, net, clock, number, turns) {
            Ok(end) => match keep(sessions, end) {
                Ok(()) => {}
                Err(_) => return ServeWhy::Memory,
            },
            Err(fault) => return why_of(fault),
        }
    }
    ServeWhy::Ended
}

/// Keeps how a session ended; without memory those that are kept stay.
fn keep(sessions: &mut Vec<SessionEnd>, end: SessionEnd) -> Result<(), AllocError>
    ensures ok { OnOk result (sessions.new.items ≡ sessions.old.items ++ end ∷ []) }
    ensures err { OnErr result (sessions.new.items ≡ sessions.old.items) }
{
    match sessions.push(end) {
        Ok(()) => Ok(()),
        Err(_) => Err(AllocError),
    }
}

/// Serves the next connection that comes, under this number: accepts its link, has a session over it at the store, and
/// closes it. The store is then without what the connection had.
///
/// `Failed` comes where the net failed, `Memory` where it wants memory; nothing else happened then.
pub fn serve_one<N: Net, C: Clock>(
    alloc: Global,
    store: &mut Store,
    net: &mut N,
    clock: &C,
    number: u32,
    turns: u64,
) -> Result<SessionEnd, NetFault>
    ensures tried { HasServedNext (C.gives clock.now) turns number store.old store.new (N.closed net.old) (N.closed net.new) result }
    ensures cause { HasNetCause (N.faults net.old) (N.faults net.new) result }
{
    match net.accept(alloc) {
        Ok(mut link) => {
            let end = visit(alloc, store, &mut link, clock, number, turns);
            net.close(link);
            Ok(end)
        }
        Err(fault) => Err(fault),
    }
}

/// Has a session at the store, and takes from the store what the connection had.
fn visit<L: Link, C: Clock>(
    alloc: Global,
    store: &mut Store,
    link: &mut L,
    clock: &C,
    number: u32,
    turns: u64,
) -> SessionEnd
    ensures visited { HasVisited (C.gives clock.now) turns number store.old store.new
        (link_view L.sent L.received L.faults L.ends L.gains link.old) (link_view L.sent L.received L.faults L.ends L.gains link.new) result }
{
    let own = mem::replace(store, Store::new(alloc));
    let mut desk = PlainDesk::new(own, number);
    let end = session(alloc, &mut desk, link, clock, turns);
    *store = desk.into_store();
    end
}

/// Why no more is served where the net answered this.
fn why_of(fault: NetFault) -> ServeWhy
    ensures { result ≡ why_at fault }
{
    match fault {
        NetFault::Failed => ServeWhy::Net,
        NetFault::Memory => ServeWhy::Memory,
    }
}
