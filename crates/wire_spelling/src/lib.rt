//! Writing RESP2 values, and which values can be written within this project's limits.
//!
//! The public source is Redis' serialization protocol, version 2. A value has one spelling, and what is written is read
//! again as the same value; `wire_grammar` has the definitions and those laws.
#![tactic(auto)]

mod encoding;
mod room;

pub use encoding::{encode, encode_onto};
pub use room::{command_fits, fits};
