//! Where a client is in its blocks, and what a command that it said asks for, as a cursor keeps it.
#![tactic(auto)]

mod spot;

pub use spot::{Awaited, ClientSpot, Stand, Tried};
