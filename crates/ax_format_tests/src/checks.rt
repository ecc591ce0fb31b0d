//! What many of these tests assert.

use std::process::Abort;

/// Asserts that the octets are those that are wanted.
pub(crate) fn same_octets(rt: &impl Abort, found: &[u8], wanted: &[u8], of: &str) {
    assert_eq!(rt; found, wanted, "of {of}");
}

/// Asserts that a number is the one that is wanted.
pub(crate) fn same_number(rt: &impl Abort, found: i128, wanted: i128, of: &str) {
    assert_eq!(rt; found, wanted, "of {of}");
}
