//! What tests of several crates share.

use std::fmt::Debug;
use std::process::Abort;

/// What was found is what is wanted.
pub fn assert_same<T: Copy + PartialEq + Debug>(rt: &impl Abort, found: T, wanted: T) {
    assert_eq!(rt; found, wanted);
}

/// The text that was found is the one that is wanted.
pub fn assert_text(rt: &impl Abort, found: &str, wanted: &str) {
    assert_eq!(rt; found, wanted);
}

/// What was found of a line of a table is what the line says.
pub fn assert_line(rt: &impl Abort, line: &str, found: &str, wanted: &str) {
    assert_eq!(rt; found, wanted, "{line}");
}
