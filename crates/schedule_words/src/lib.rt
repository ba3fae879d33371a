//! What single words of a schedule's lines spell: clients, seeds, priorities, names; and words joined to a text.
#![tactic(auto)]

mod word;

pub use word::{
    client_in, dashed_in, joined, name_in, priority_in, queues_in, seed_in, visibility_in,
};
