//! One walk over a history: what its clients have in hand, and which messages they pushed, ended and copied.
#![tactic(auto)]

mod hands;
mod numbered;
mod seat;
mod seats;
mod walk;

pub use numbered::Numbered;
pub use seat::ClientSeat;
pub use seats::seated;
pub use walk::{HistoryWalk, gathered};
