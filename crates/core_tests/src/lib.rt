//! Tests of the cores of blocks against a store: what each says from command to command, and how it ends.
#![tactic(auto)]

#[cfg(test)]
mod cores;
#[cfg(test)]
mod exchanges;
#[cfg(test)]
mod return_rows;
#[cfg(test)]
mod returned;
#[cfg(test)]
mod rows;
#[cfg(test)]
mod talk;
