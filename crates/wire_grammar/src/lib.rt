//! How RESP2 values are written, and what a stream of bytes is: a value at its front, the front of one, or a fault at a byte.
//!
//! The definitions stand in `specs/`: `Spells` says which bytes a value is written as, `read` and `wire_fault` say of
//! any byte list what it begins with, or what is wrong with it and where. That the two go together is shown as laws.
#![tactic(auto)]

mod kind;
mod laws;

pub use kind::{
    COUNT_LIMIT, DEPTH_LIMIT, LENGTH_LIMIT, NumberKind, TEXT_LIMIT, TextKind, VALUE_LIMIT, WireKind,
};
pub use laws::{faults, one_fault, one_of_three, one_spelling, written_is_read};
