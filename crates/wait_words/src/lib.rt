//! The words of the programs that wait for others: which are lawful, which is the first bad one, and what they ask for.
#![tactic(auto)]

mod words;

pub use words::{
    CONNECTION_LIMIT, SEED_LIMIT, TURN_LIMIT, address_in, bad_word, connections_in, names_publish,
    seed_in, turns_in,
};
