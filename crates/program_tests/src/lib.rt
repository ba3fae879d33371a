//! Tests of schedules and of the program, by rows that the top call runs over a source and a sink in memory. A new case is
//! a row in `rows/`.
#![tactic(auto)]

#[cfg(test)]
mod ends;
#[cfg(test)]
mod long_runs;
#[cfg(test)]
mod played;
#[cfg(test)]
mod process;
#[cfg(test)]
mod rows;
#[cfg(test)]
mod shows;
#[cfg(test)]
mod spelled;
#[cfg(test)]
mod tasks;
#[cfg(test)]
mod words;
