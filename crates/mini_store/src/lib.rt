//! A store of texts, lists, sets, hashes and sorted sets under keys, with Redis' commands and what it knows of each
//! connection: the step of a command, over the definitions of `store_model`.
#![tactic(auto)]

mod database;
mod run;
mod store;

pub use store::Store;
