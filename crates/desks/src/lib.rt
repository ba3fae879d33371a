//! Desks: one client's place at a store, where it hands over commands and takes replies, tells notes, and leaves.
//!
//! Whatever runs a client is generic in its desk: the desk may have the store itself, or a link to one.
#![tactic(auto)]

mod desk;
mod desk_standing;

pub use desk::{Desk, DeskFault};
pub use desk_standing::DeskStanding;
