//! Tests of patterns and lookups: rows of what is given and what comes of it.
#![tactic(auto)]

#[cfg(test)]
mod patterns;
#[cfg(test)]
mod queues;
