//! Receiving values.
ghost use Rattle.std.specs.Io.KnownBytes.{Keeps};
ghost use Rattle.std.specs.Prelude.{List, OnErr, OnOk, [], length, ℕ, ◌≡◌, ◌≤◌};
ghost use Rattle.resp_wire.specs.Stands.{Stands};
ghost use Rattle.link_desk.specs.Hearings.{HasLinkCause, HasPiece, HasValue, IsFaultAt};
ghost use Rattle.link_desk.specs.Readiness.{IsReady};

use desks::DeskFault;
use net_links::Link;
use resp_wire::{Decoder, WireFault};
use std::alloc::{AllocError, Global};
use wire_values::Value;

/// How many bytes one receive asks for at most.
const PIECE: usize = 65_536;

/// What came over a link: the decoder of its bytes, and the room for the next piece, which is made at the first one and kept.
#[derive(Drop)]
pub struct Hearing {
    pub decoder: Decoder,
    room: Vec<u8>,
    ghost ready: { ∥ IsReady decoder ∥₁ },
}

impl Hearing {
    /// Nothing came yet; takes no memory.
    pub fn new(alloc: Global) -> Hearing
        ensures { Stands result.decoder 0 [] }
    {
        Hearing {
            decoder: Decoder::new(alloc),
            room: Vec::new(alloc),
        }
    }

    /// Receives values until one is whole, and gives it; what came behind it is kept for the next call. Where a value is
    /// whole already, nothing is received.
    ///
    /// `Link` comes where the link failed or ended before, `Wire` where what came is no RESP2, `Memory` where there is no
    /// memory.
    pub fn next<L: Link>(&mut self, alloc: Global, link: &mut L) -> Result<Value, DeskFault>
        ensures value { (before : ℕ) (rest : List ℕ) → Stands self.old.decoder before rest
            → HasValue before rest (L.received link.old) (L.received link.new) self.new.decoder result }
        ensures sent { Keeps (L.sent link.old) (L.sent link.new) }
        ensures cause { HasLinkCause (L.faults link.old) (L.faults link.new) (L.ends link.old) (L.ends link.new) result }
    {
        'pieces: loop {
            match self.decoder.next(alloc) {
                Ok(Some(value)) => return Ok(value),
                Ok(None) => {}
                Err(fault) => return Err(fault_of(fault)),
            }
            match self.more(alloc, link) {
                Ok(()) => {}
                Err(fault) => return Err(fault),
            }
        }
    }

    /// Receives a piece into the room.
    fn more<L: Link>(&mut self, alloc: Global, link: &mut L) -> Result<(), DeskFault>
        ensures piece { (before : ℕ) (rest : List ℕ) → Stands self.old.decoder before rest
            → HasPiece before rest (L.received link.old) (L.received link.new) self.new.decoder result }
        ensures sent { Keeps (L.sent link.old) (L.sent link.new) }
        ensures cause { HasLinkCause (L.faults link.old) (L.faults link.new) (L.ends link.old) (L.ends link.new) result }
    {
        if make_room(alloc, &mut self.room).is_err() {
            return Err(DeskFault::Memory);
        }
        let Ok(count) = link.receive(self.room.as_mut_slice()) else {
            return Err(DeskFault::Link);
        };
        if count == 0 {
            return Err(DeskFault::Link);
        }
        match self.decoder.feed(alloc, &self.room[..count]) {
            Ok(()) => Ok(()),
            Err(_) => Err(DeskFault::Memory),
        }
    }
}

/// Makes the room for a piece, where there is none.
fn make_room(alloc: Global, room: &mut Vec<u8>) -> Result<(), AllocError>
    ensures { OnOk result (1 ≤ length room.new.items) }
{
    if room.is_empty() {
        *room = vec![in alloc; 0; PIECE]?;
    }
    Ok(())
}

/// The fault of a desk at a fault of its decoder.
fn fault_of(fault: WireFault) -> DeskFault
    ensures { IsFaultAt fault result }
{
    match fault {
        WireFault::Bad { kind, place } => DeskFault::Wire { kind, place },
        WireFault::Memory => DeskFault::Memory,
    }
}
