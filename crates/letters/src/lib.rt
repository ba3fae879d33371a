//! What texts spell, kept for those that were written or read, so that none of them has to be read again.
#![tactic(auto)]

mod letter;
mod letters;

pub use letter::Letter;
pub use letters::Letters;
