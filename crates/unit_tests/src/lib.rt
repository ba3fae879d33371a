//! Tests of the small pieces: values, decoders, links, lines and envelopes, each by rows of what is given and what comes of it.
#![tactic(auto)]

#[cfg(test)]
mod compared;
#[cfg(test)]
mod decoders;
#[cfg(test)]
mod envelopes;
#[cfg(test)]
mod faults;
#[cfg(test)]
mod lines;
#[cfg(test)]
mod samples;
#[cfg(test)]
mod sizes;
#[cfg(test)]
mod streams;
#[cfg(test)]
mod values;
