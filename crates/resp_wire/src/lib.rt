//! RESP2 values read from a stream that comes in pieces of any size.
//!
//! What a value's bytes are, what a front is, and where a fault stands is defined in `wire_grammar`. `Decoder` gives
//! just the values whose spellings begin the stream, whatever the pieces. `wire_spelling` writes values.
#![tactic(auto)]

mod advance;
mod decoder;
mod machine;
mod pieces;
mod state;

pub use decoder::{Decoder, WireFault};
pub use wire_grammar::{COUNT_LIMIT, DEPTH_LIMIT, LENGTH_LIMIT, TEXT_LIMIT, VALUE_LIMIT, WireKind};
