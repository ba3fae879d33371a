//! Task bodies by their names, beside the rule that their answers keep.
//!
//! What a body is stands open: whatever has a name, and may be called on all arguments with an outcome that its rule
//! allows. A registry is generic in it.
#![tactic(auto)]

mod body;
mod registry;

pub use body::{Body, Rule};
pub use registry::{Registry, RegistryFault};
