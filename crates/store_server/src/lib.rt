//! A store that serves connections one after the other, each by a session.
#![tactic(auto)]

mod serving;

pub use serving::{ServeEnd, ServeWhy, serve_one, serve_plain};
pub use sessions::{SessionEnd, Why, session};
