//! The place theorem and its companions: laws of the definitions of `place_model`, for every lawful setting and any type
//! of notes. The functions do nothing; each is named for what its clause says.
#![tactic(auto)]

mod identity;
mod passes;
mod places;
mod settings;
