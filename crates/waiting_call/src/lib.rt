//! The top call of the programs that wait for others: words, streams, a net and a clock to a status.
#![tactic(auto)]

mod ending;
mod node;
mod process;
mod publishing;

pub use node::run_wait;
pub use process::answer;
