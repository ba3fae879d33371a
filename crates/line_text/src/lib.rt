//! Texts of lines: lines, words and numbers, why a line is bad, and how bytes and values are written in a line.
//!
//! Schedules, records, scripts and tables of periodic tasks are texts of this kind. A line ends with a line feed,
//! which the last one may lack; its words are parted by one space each.
#![tactic(auto)]

mod form;
mod line;
mod number;
mod reason;
mod short;
mod word;

pub use form::{quoted, quoted_words, value_form};
pub use line::{INPUT_LIMIT, LINE_LIMIT, Lines, RECORD_LINE_LIMIT, line_number_at, line_text};
pub use number::{integer_in, moment_in, number_in, tag_in};
pub use reason::{BadLine, Reason, TextFault};
pub use short::{Legend, Shape, short_value, short_word, short_words, tag_short};
pub use store_model::MOMENT_LIMIT;
pub use word::{is_word, rest_after, words};
