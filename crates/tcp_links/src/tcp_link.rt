//! A link over a stream of the system.
ghost use Rattle.std.specs.Prelude.{◌≡◌, ◌≤◌, ◌&&◌, IfSome, length, nat_eq, not};

use links::{Failed, raise};
use net_links::{Link, NetFault};
use std::alloc::Global;
use std::io::{ErrorKind, Read, Write};

/// How often a call of the system is begun again that a signal interrupted.
const TRIES: u32 = 1_000;

/// A link over a stream, such as a TCP connection. A send that takes nothing of a piece is a fault, and so is a wait
/// that lasts longer than the stream's timeouts allow. A call that a signal interrupted is begun again; interrupted a
/// thousand times, it is a fault.
#[derive(Drop)]
pub struct TcpLink<S> {
    stream: S,
    faults: u64,
    ends: u64,
}

impl<S> TcpLink<S> {
    /// A link that has not failed and not ended.
    pub fn new(stream: S) -> TcpLink<S>
        ensures faults { result.faults ≡ 0 }
        ensures ends { result.ends ≡ 0 }
    {
        TcpLink {
            stream,
            faults: 0,
            ends: 0,
        }
    }

    /// Whether it failed or ended.
    pub(crate) fn has_failed(&self) -> bool
        ensures { result ≡ not (nat_eq self.now.faults 0 && nat_eq self.now.ends 0) }
    {
        !(self.faults == 0 && self.ends == 0)
    }
}

/// How many bytes a stream took of a piece; None where it failed.
fn taken<S: Write>(stream: &mut S, piece: &[u8]) -> Option<usize>
    ensures { IfSome result (λ n. n ≤ length piece.now) }
{
    for _ in 0..TRIES {
        match stream.write(piece) {
            Ok(count) => return Some(count),
            Err(fault) if fault.kind() == ErrorKind::Interrupted => {}
            Err(_) => return None,
        }
    }
    None
}

/// How many bytes a stream gave; None where it failed.
fn given<S: Read>(stream: &mut S, into: &mut [u8]) -> Option<usize>
    ensures { IfSome result (λ n. n ≤ length into.new) }
{
    for _ in 0..TRIES {
        match stream.read(into) {
            Ok(count) => return Some(count),
            Err(fault) if fault.kind() == ErrorKind::Interrupted => {}
            Err(_) => return None,
        }
    }
    None
}

impl<S: Read + Write> Link for TcpLink<S> {
    ghost use Rattle.std.specs.Prelude.{None, ◌-◌, ◌^◌};

    ghost sent = { λ s. None };

    ghost received = { λ s. None };

    ghost faults = { λ s. s.faults };

    ghost ends = { λ s. s.ends };

    ghost gains = { λ s. 2 ^ 64 - 1 };

    fn send(&mut self, _alloc: Global, piece: &[u8]) -> Result<usize, NetFault> {
        match taken(&mut self.stream, piece) {
            Some(count) if count > 0 || piece.is_empty() => Ok(count),
            _ => {
                raise(&mut self.faults);
                Err(NetFault::Failed)
            }
        }
    }

    fn receive(&mut self, into: &mut [u8]) -> Result<usize, Failed> {
        match given(&mut self.stream, into) {
            Some(count) => {
                if count == 0 && !into.is_empty() {
                    raise(&mut self.ends);
                }
                Ok(count)
            }
            None => {
                raise(&mut self.faults);
                Err(Failed)
            }
        }
    }
}
