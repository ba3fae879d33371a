//! Records of histories: one text for each history, which determines it.
//!
//! `specs/Records.antt` has the text. `write_history` writes it.
#![tactic(auto)]

mod client_rows;
mod entry_rows;
mod note_rows;
mod record;
mod row;

pub use record::write_history;
pub use row::Row;
