//! RESP2 values, and the small types over vectors that every crate shares.
//!
//! A contract sees `Bytes` as a list of bytes, `List<T>` as a list of `T`, and `Values` as a list of `Value`.
#![tactic(auto)]

mod bytes;
mod list;
mod value;

pub use bytes::Bytes;
pub use list::List;
pub use value::{Value, Values, Words, copy_values, copy_words};
