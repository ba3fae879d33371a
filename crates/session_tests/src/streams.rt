//! Links over streams whose calls a signal interrupts.
use crate::compared::same;
use net_links::Link;
use std::alloc::Global;
use std::io;
use std::io::{ErrorKind, Read, Write};
use std::test::Fail;
use tcp_links::TcpLink;

/// A stream that gives and takes one byte a call, where its calls weren't interrupted so often before.
#[derive(Drop)]
struct Stub {
    often: u64,
}

impl Stub {
    fn pass(&mut self) -> io::Result<()> {
        if self.often == 0 {
            return Ok(());
        }
        self.often -= 1;
        Err(io::Error::from(ErrorKind::Interrupted))
    }
}

impl Read for Stub {
    fn read(&mut self, into: &mut [u8]) -> io::Result<usize> {
        self.pass()?;
        match into.first_mut() {
            Some(first) => {
                *first = b'x';
                Ok(1)
            }
            None => Ok(0),
        }
    }
}

impl Write for Stub {
    fn write(&mut self, piece: &[u8]) -> io::Result<usize> {
        self.pass()?;
        Ok(piece.len().min(1))
    }

    fn flush(&mut self) -> io::Result<()> {
        Ok(())
    }
}

/// Whether a link over a stream that is interrupted so often gives a byte, and whether one takes one.
fn gone_by(alloc: Global, often: u64) -> (bool, bool) {
    let mut room = [0; 4];
    let given = TcpLink::new(Stub { often }).receive(&mut room).is_ok();
    let taken = TcpLink::new(Stub { often }).send(alloc, b"ab").is_ok();
    (given, taken)
}

#[test]
fn calls_are_begun_again_that_were_interrupted(rt: HostRuntime) -> Result<(), Fail> {
    for (often, want) in [(0, true), (1, true), (999, true), (1_000, false)] {
        let (given, taken) = gone_by(rt.alloc(), often);
        same(&rt, "receive", given, want);
        same(&rt, "send", taken, want);
    }
    Ok(())
}
