//! What a program that serves or calls over a network is handed from outside: clocks, links and nets, and their forms in
//! memory.
//!
//! A contract knows of a link or a net only its counts and, where it tells, what it carried. The forms in memory tell
//! everything.
#![tactic(auto)]

mod clock;
mod link;
mod memory_link;
mod memory_net;
mod net;
mod step_clock;

pub use clock::Clock;
pub use link::{Link, NetFault};
pub use links::raise;
pub use memory_link::MemoryLink;
pub use memory_net::MemoryNet;
pub use net::Net;
pub use step_clock::StepClock;
