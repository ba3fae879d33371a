//! What is left of a client's block: one type over the cores of all blocks.
//!
//! A declaration, a publication, a pop, an acknowledgement, a return and a pass are said command by command; a client
//! has one of them at a time, or none.
#![tactic(auto)]

mod left;

pub use left::BlockLeft;
