//! The words of which the commands of blocks are made, and the texts that the store answers.
#![tactic(auto)]

mod answer;
mod words;

pub use answer::{bulk, is_null_bulk, texts};
pub use words::{one_word, three_words, two_words};
