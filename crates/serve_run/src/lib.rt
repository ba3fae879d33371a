//! `serve`: connections over a net, served by one store one after the other, and a line written as each session ends.
//!
//! What a session is and what it does to the store stands in `sessions` and `store_server`; how a run of them ends, and
//! what it has written then, is defined in `specs/ServeRuns.antt`.
#![tactic(auto)]

mod ending;
mod lines;
mod serving;

pub use ending::ServingEnd;
pub use lines::why_name;
pub use serving::serve_told;
