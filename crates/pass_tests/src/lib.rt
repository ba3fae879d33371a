//! Tests of passes against a store, beside what other clients say meanwhile: what each says from command to command,
//! and how it ends.
#![tactic(auto)]

#[cfg(test)]
mod driven;
#[cfg(test)]
mod rows;
#[cfg(test)]
mod talk;
