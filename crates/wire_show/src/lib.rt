//! `show`: a stream of RESP2, told value by value as it comes.
//!
//! What is shown of a stream is defined in `specs/Shows.antt` over the grammar of `wire_grammar`; `show` reads a source
//! piece by piece, and holds one value at a time.
#![tactic(auto)]

mod ending;
mod lines;
mod reading;
mod showing;

pub use ending::{ShowEnd, kind_name};
pub use reading::show;
