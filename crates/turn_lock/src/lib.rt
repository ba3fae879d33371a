//! One object that several threads call in turn.
#![tactic(auto)]

mod object;
mod turn_fault;

pub use object::Object;
pub use turn_fault::TurnFault;
