//! Tests of `serve` by its top call, over a net, a clock and a sink in memory: rows of words and of what comes over the
//! links, with what is written and sent then.
#![tactic(auto)]

#[cfg(test)]
mod rows;
#[cfg(test)]
mod serving;
