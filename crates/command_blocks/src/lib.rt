//! Blocks of commands: which commands a client says together and which replies are listed there, as definitions; and how
//! replies are told apart.
#![tactic(auto)]

pub mod answer;
mod side;

pub use side::Side;
