//! The rows.
pub mod bad_lines;
pub mod limits;
pub mod overdue;
pub mod reports;
pub mod returned;
pub mod stops;
pub mod streams;
