//! Tests of links, nets and clocks, of a desk that has its store, of sessions, and of connections that are served one
//! after the other, by rows of what is given and what comes of it.
#![tactic(auto)]

#[cfg(test)]
mod answers;
#[cfg(test)]
mod command_rows;
#[cfg(test)]
mod commands;
#[cfg(test)]
mod compared;
#[cfg(test)]
mod limits;
#[cfg(test)]
mod outside;
#[cfg(test)]
mod served;
#[cfg(test)]
mod shared_stores;
#[cfg(test)]
mod streams;
#[cfg(test)]
mod whole_sessions;
