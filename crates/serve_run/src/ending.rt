//! How a run of sessions ends.
ghost use Rattle.std.specs.Prelude.{◌≡◌};
ghost use Rattle.serve_run.specs.Endings.{net_end, end_with};

use net_links::NetFault;
use sessions::Why;

/// Why no more connections are served.
#[derive(Clone, Copy, Drop)]
pub enum ServingEnd {
    /// As many sessions ended as were wanted, none of them since a history was full.
    Served,
    /// As many sessions ended as were wanted; the first that found its store's history full found it with so many
    /// entries, of so many bytes. No store of today has a history that can be full.
    Full { entries: u64, bytes: u64 },
    /// The net failed.
    Net,
    /// The sink failed.
    WriteFault,
    /// There was no memory.
    Memory,
}

impl ServingEnd {
    /// The end that was so far, after one session more that ended so.
    pub fn with(self, why: Why) -> ServingEnd
        ensures { result ≡ end_with self why }
    {
        match self {
            ServingEnd::Served => match why {
                Why::Full { entries, bytes } => ServingEnd::Full { entries, bytes },
                _ => ServingEnd::Served,
            },
            other => other,
        }
    }

    /// The end where the net answered this.
    pub fn at(fault: NetFault) -> ServingEnd
        ensures { result ≡ net_end fault }
    {
        match fault {
            NetFault::Failed => ServingEnd::Net,
            NetFault::Memory => ServingEnd::Memory,
        }
    }
}
