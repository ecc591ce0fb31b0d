//! What many of these tests assert.

use std::process::Abort;

/// Asserts that the octets are those that are wanted.
pub(crate) fn same_octets(rt: &impl Abort, found: &[u8], wanted: &[u8], of: &str) {
    assert_eq!(rt; found, wanted, "of {of}");
}
