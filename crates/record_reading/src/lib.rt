//! The lines of records, read.
//!
//! `record_model` defines what a line of a record says. A line is read from its front, part by part; each part has one
//! spelling.
#![tactic(auto)]

mod note;
mod number;
mod quoted;
mod rest;
mod row;
mod value;

pub use row::read_row;
