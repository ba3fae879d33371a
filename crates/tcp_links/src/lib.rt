//! Clocks, links and nets over the system's: the edge that is trusted. They tell their counts and nothing of what goes
//! by.
#![tactic(auto)]

mod tcp_link;
mod tcp_net;
mod wall_clock;

pub use tcp_link::TcpLink;
pub use tcp_net::TcpNet;
pub use wall_clock::WallClock;
