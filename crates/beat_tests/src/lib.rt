//! Tests of timers, revokes, beat files and the times of periodic tasks: rows of what is given and what comes of it.
#![tactic(auto)]

#[cfg(test)]
mod fields;
#[cfg(test)]
mod files;
#[cfg(test)]
mod intervals;
#[cfg(test)]
mod revoked;
#[cfg(test)]
mod rounds;
#[cfg(test)]
mod spans;
#[cfg(test)]
mod waiting;
