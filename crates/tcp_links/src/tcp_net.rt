//! TCP.
ghost use Rattle.std.specs.Prelude.{◌≡◌, ◌-◌, ◌^◌, IfOk, None};
ghost use Rattle.net_links.specs.LinkViews.{link_view};
ghost use Rattle.net_links.specs.NetCauses.{HasNetCause};
ghost use Rattle.net_links.specs.Traffics.{IsFresh};

use crate::TcpLink;
use links::raise;
use net_links::{Net, NetFault};
use std::alloc::Global;
use std::net::{OpenListener, OpenStream, SocketAddr};
use std::time::Duration;
use std::{io, net};

/// How long a connection is waited for, in seconds.
const CONNECT_SECONDS: u64 = 10;

/// How long a peer may send nothing, in seconds.
const RECEIVE_SECONDS: u64 = 300;

/// How long a peer may take nothing, in seconds.
const SEND_SECONDS: u64 = 30;

/// How many connections one `accept` passes over, before the net fails.
const PASSED: u32 = 1_000_000;

/// TCP connections. An address is an IP address and a port, as `127.0.0.1:6379` or `[::1]:6379`; anything else is a
/// fault, and no name is looked up. A peer that sends nothing for 300 seconds, or takes nothing for 30, fails its link.
/// A connection that is gone before it is accepted, or can't be tuned, is passed over.
#[derive(Drop)]
pub struct TcpNet<R: net::Net> {
    rt: R,
    listener: Option<R::Listener>,
    faults: u64,
    closed_faults: u64,
}

impl<R: net::Net> TcpNet<R> {
    /// A net that waits nowhere yet; takes no memory.
    pub fn new(rt: R) -> TcpNet<R>
        ensures faults { result.faults ≡ 0 }
        ensures closed_faults { result.closed_faults ≡ 0 }
    {
        TcpNet {
            rt,
            listener: None,
            faults: 0,
            closed_faults: 0,
        }
    }

    fn open(&self, address: &str) -> Option<R::Stream> {
        let Ok(address) = address.parse::<SocketAddr>() else {
            return None;
        };
        let wait = Duration::from_secs(CONNECT_SECONDS);
        tuned(self.rt.connect_timeout(address, wait))
    }

    fn bound(&self, address: &str) -> Option<R::Listener> {
        let Ok(address) = address.parse::<SocketAddr>() else {
            return None;
        };
        self.rt.bind(address).ok()
    }

    fn taken(&self) -> Option<R::Stream> {
        let listener = self.listener.as_ref()?;
        for _ in 0..PASSED {
            match listener.accept() {
                Ok((stream, _)) => {
                    if let Some(stream) = tuned(Ok(stream)) {
                        return Some(stream);
                    }
                }
                Err(fault) if is_of_connection(fault.kind()) => {}
                Err(_) => return None,
            }
        }
        None
    }
}

/// Whether a failed `accept` speaks of the connection that it would have given: the system hands over what befell one
/// while it waited.
fn is_of_connection(kind: io::ErrorKind) -> bool {
    [
        io::ErrorKind::ConnectionAborted,
        io::ErrorKind::ConnectionReset,
        io::ErrorKind::HostUnreachable,
        io::ErrorKind::NetworkUnreachable,
        io::ErrorKind::NetworkDown,
    ]
    .contains(&kind)
}

/// A stream without Nagle's delay and with timeouts.
fn tuned<S: OpenStream + Drop>(stream: io::Result<S>) -> Option<S> {
    let stream = stream.ok()?;
    stream.set_nodelay(true).ok()?;
    stream
        .set_read_timeout(Some(Duration::from_secs(RECEIVE_SECONDS)))
        .ok()?;
    stream
        .set_write_timeout(Some(Duration::from_secs(SEND_SECONDS)))
        .ok()?;
    Some(stream)
}

/// The link over a stream, if there is one.
fn link<S>(stream: Option<S>, faults: &mut u64) -> Result<TcpLink<S>, NetFault>
    ensures fresh { IfOk result (λ s. IsFresh None (link_view (λ t. None) (λ t. None) (λ t. s.faults) (λ t. s.ends) (λ t. 2 ^ 64 - 1) s)) }
    ensures cause { HasNetCause faults.old faults.new result }
{
    match stream {
        Some(stream) => Ok(TcpLink::new(stream)),
        None => {
            raise(faults);
            Err(NetFault::Failed)
        }
    }
}

impl<R: net::Net> Net for TcpNet<R> {
    type Stream = TcpLink<R::Stream>;

    ghost use Rattle.std.specs.Prelude.{None, ◌-◌, ◌^◌};

    ghost faults = { λ s. s.faults };

    ghost closed_faults = { λ s. s.closed_faults };

    ghost closed = { λ s. None };

    ghost out = { λ s. 2 ^ 64 - 1 };

    fn connect(&mut self, _alloc: Global, address: &str) -> Result<Self::Stream, NetFault> {
        link(self.open(address), &mut self.faults)
    }

    fn listen(&mut self, _alloc: Global, address: &str) -> Result<(), NetFault> {
        match self.bound(address) {
            Some(listener) => {
                self.listener = Some(listener);
                Ok(())
            }
            None => {
                raise(&mut self.faults);
                Err(NetFault::Failed)
            }
        }
    }

    fn accept(&mut self, _alloc: Global) -> Result<Self::Stream, NetFault> {
        link(self.taken(), &mut self.faults)
    }

    fn close(&mut self, stream: Self::Stream) {
        if stream.has_failed() {
            raise(&mut self.closed_faults);
        }
    }
}
