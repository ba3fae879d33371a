//! The one comparison of the tests.
use std::fmt::Debug;
use std::process::Abort;

/// Stops the test where the two differ, and names the row.
pub fn same<T: PartialEq + Debug + Drop, R: Abort>(rt: &R, row: &str, found: T, want: T) {
    assert_eq!(rt; found, want, "{row}");
}
