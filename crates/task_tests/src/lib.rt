//! Tests of the four built-in tasks: stored by their names, and run on arguments, by rows.
#![tactic(auto)]

#[cfg(test)]
mod answered;
#[cfg(test)]
mod stored;
