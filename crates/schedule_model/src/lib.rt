//! Schedules: what a text of client commands determines, and the report of a history.
//!
//! The definitions stand in `specs/`: `schedule_run` says which history a text determines, or which of its lines is
//! bad and why, or that a history was full; `report_text` says what is written of a history.
#![tactic(auto)]

mod line;

pub use line::{Asked, Line};
