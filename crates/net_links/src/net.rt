//! What a net is.
ghost use Rattle.std.specs.Prelude.{◌<◌, ◌≡◌, ◌≤◌, ◌+◌, IfOk, List, OnErr, OnOk, Option, ℕ};
ghost use Rattle.std.specs.Io.KnownBytes.{Keeps};
ghost use Rattle.links.specs.Counts.{raised};
ghost use Rattle.net_links.specs.LinkViews.{LinkView, link_view};
ghost use Rattle.net_links.specs.NetCauses.{HasClosedFaults, HasNetCause};
ghost use Rattle.net_links.specs.Traffics.{ClosesOne, KeepsClosed, IsFresh};

use crate::{Link, NetFault};
use std::alloc::Global;

/// What hands out links, and takes them back.
pub trait Net {
    /// Its links.
    type Stream: Link + Drop;

    /// How often it failed.
    ghost faults: { Self → ℕ };

    /// How often a link was closed that had failed or ended.
    ghost closed_faults: { Self → ℕ };

    /// What the links told that were closed, in their order, where the net tells it.
    ghost closed: { Self → Option (List LinkView) };

    /// How many links are out; a net that tells nothing may count all of them always.
    ghost out: { Self → ℕ };

    /// A link to an address, such as `127.0.0.1:6379`. `Failed` comes where the net failed, `Memory` where it wants
    /// memory.
    fn connect(&mut self, alloc: Global, address: &str) -> Result<Self::Stream, NetFault>
        ensures fresh { IfOk result (λ s. IsFresh (closed self.old) (link_view Self.Stream.sent Self.Stream.received Self.Stream.faults Self.Stream.ends Self.Stream.gains s)) }
        ensures out { OnOk result (raised (out self.old) ≤ out self.new) }
        ensures none { OnErr result (out self.new ≡ out self.old) }
        ensures cause { HasNetCause (faults self.old) (faults self.new) result }
        ensures closed_faults { closed_faults self.new ≡ closed_faults self.old }
        ensures closed { KeepsClosed (closed self.old) (closed self.new) };

    /// Waits from now on at an address for others to connect. `Failed` comes where the net failed, `Memory` where it
    /// wants memory.
    fn listen(&mut self, alloc: Global, address: &str) -> Result<(), NetFault>
        ensures out { out self.new ≡ out self.old }
        ensures cause { HasNetCause (faults self.old) (faults self.new) result }
        ensures closed_faults { closed_faults self.new ≡ closed_faults self.old }
        ensures closed { KeepsClosed (closed self.old) (closed self.new) };

    /// The link of the next one that connected. `Failed` comes where the net failed, `Memory` where it wants memory.
    fn accept(&mut self, alloc: Global) -> Result<Self::Stream, NetFault>
        ensures fresh { IfOk result (λ s. IsFresh (closed self.old) (link_view Self.Stream.sent Self.Stream.received Self.Stream.faults Self.Stream.ends Self.Stream.gains s)) }
        ensures out { OnOk result (raised (out self.old) ≤ out self.new) }
        ensures none { OnErr result (out self.new ≡ out self.old) }
        ensures cause { HasNetCause (faults self.old) (faults self.new) result }
        ensures closed_faults { closed_faults self.new ≡ closed_faults self.old }
        ensures closed { KeepsClosed (closed self.old) (closed self.new) };

    /// Takes back a link that was handed out, and closes it; takes no memory.
    fn close(&mut self, stream: Self::Stream)
        requires out { 0 < out self.old }
        ensures out { out self.old ≤ out self.new + 1 }
        ensures closed { ClosesOne (closed self.old) (closed self.new) (link_view Self.Stream.sent Self.Stream.received Self.Stream.faults Self.Stream.ends Self.Stream.gains stream) }
        ensures faults { faults self.new ≡ faults self.old }
        ensures closed_faults { HasClosedFaults (closed_faults self.old) (closed_faults self.new) (Self.Stream.faults stream) (Self.Stream.ends stream) };
}
