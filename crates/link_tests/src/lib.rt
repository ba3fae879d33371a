//! Tests of desks over links in memory, by rows of what comes in and of what fails.
#![tactic(auto)]

#[cfg(test)]
mod asked;
#[cfg(test)]
mod compared;
#[cfg(test)]
mod failing;
#[cfg(test)]
mod flooded;
#[cfg(test)]
mod heard;
#[cfg(test)]
mod local;
#[cfg(test)]
mod local_nets;
