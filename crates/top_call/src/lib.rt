//! The top call of the programs: words, a source and a sink to a status.
#![tactic(auto)]

mod ending;
mod making;
mod node;
mod process;
mod words;

pub use ending::Ended;
pub use node::{out_of_memory, run, write_text};
pub use words::{read_words, views};
