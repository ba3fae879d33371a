//! Tests of `publish` by its top call, over a source, nets and a sink in memory: rows of scripts and of what comes over the
//! link, or of a store behind it, with what is written then.
#![tactic(auto)]

#[cfg(test)]
mod compared;
#[cfg(test)]
mod failing;
#[cfg(test)]
mod local;
#[cfg(test)]
mod long_texts;
#[cfg(test)]
mod played;
#[cfg(test)]
mod replied;
#[cfg(test)]
mod scripts;
