//! How commands are spelled as words: the command that a list of words is.
#![tactic(auto)]

mod words;

pub use words::{command_of, upper_byte};
