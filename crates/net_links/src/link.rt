//! What a link is.
ghost use Rattle.std.specs.Io.KnownBytes.{WriteAppends, Keeps};
ghost use Rattle.std.specs.Io.{ReadsAtMost, WritesAtMost};
ghost use Rattle.std.specs.Prelude.{◌<◌, ◌≡◌, ◌≤◌, IfOk, List, Option, length, ℕ};
ghost use Rattle.links.specs.Causes.{HasCause, HasEnds};
ghost use Rattle.net_links.specs.NetCauses.{HasGained, HasNetCause};

use links::Failed;
use std::alloc::Global;

/// Why a link didn't send, or a net didn't give a link.
#[derive(Clone, Copy, Debug, PartialEq, Eq, Drop)]
pub enum NetFault {
    /// It failed in this call; its count of faults rose.
    Failed,
    /// There was no memory.
    Memory,
}

/// A way to another program, by which bytes go in both directions.
pub trait Link {
    /// The bytes that it sent, where it tells them.
    ghost sent: { Self → Option (List ℕ) };

    /// The bytes that it received, where it tells them.
    ghost received: { Self → Option (List ℕ) };

    /// How often it failed.
    ghost faults: { Self → ℕ };

    /// How often it answered that there is nothing more to receive.
    ghost ends: { Self → ℕ };

    /// How often a receive gave bytes; a link that tells nothing may stand at the end of 64 bits always.
    ghost gains: { Self → ℕ };

    /// Sends bytes from the front of a piece and answers how many: at least one of a piece that isn't empty. `Failed`
    /// comes where the link failed, `Memory` where it wants memory; it sent nothing then.
    fn send(&mut self, alloc: Global, piece: &[u8]) -> Result<usize, NetFault>
        ensures bound { WritesAtMost result piece.now }
        ensures moves { 0 < length piece.now → IfOk result (λ n. 1 ≤ n) }
        ensures sent { WriteAppends (sent self.old) (sent self.new) result piece.now }
        ensures received { Keeps (received self.old) (received self.new) }
        ensures cause { HasNetCause (faults self.old) (faults self.new) result }
        ensures ends { ends self.new ≡ ends self.old }
        ensures gains { gains self.new ≡ gains self.old };

    /// Receives bytes into the front of a slice and answers how many: none only where the other side ended, or into an
    /// empty slice. `Failed` comes where the link failed; it received nothing then.
    fn receive(&mut self, into: &mut [u8]) -> Result<usize, Failed>
        ensures bound { ReadsAtMost result into.new }
        ensures received { WriteAppends (received self.old) (received self.new) result into.new }
        ensures sent { Keeps (sent self.old) (sent self.new) }
        ensures cause { HasCause (faults self.old) (faults self.new) result }
        ensures end { HasEnds (ends self.old) (ends self.new) (length into.old) result }
        ensures gains { HasGained (gains self.old) (gains self.new) result };
}
