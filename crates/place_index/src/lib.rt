//! The place of each message after a history, found by one walk over its entries.
#![tactic(auto)]

mod index;
mod kept;
mod placing;
mod standing;
mod stored;
mod tables;
mod tagged;

pub use placing::{place_of, places, places_beside};
pub use stored::store_after;
