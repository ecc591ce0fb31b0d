//! What many of these tests assert.

use ax_outside::LoadError;
use std::process::Abort;

/// Asserts that a text is the one that is wanted.
pub(crate) fn same_text(rt: &impl Abort, found: &str, wanted: &str, of: &str) {
    assert_eq!(rt; found, wanted, "of {of}");
}

/// Asserts how many octets a call took or gave: none is said where it failed.
pub(crate) fn counts(rt: &impl Abort, found: Option<usize>, wanted: Option<usize>, of: &str) {
    assert_eq!(rt; found, wanted, "of {of}");
}

/// Asserts that these are the octets.
pub(crate) fn holds(rt: &impl Abort, found: &[u8], wanted: &[u8], of: &str) {
    assert_eq!(rt; found, wanted, "of {of}");
}

/// Asserts the number of faults, or of octets taken.
pub(crate) fn tells(rt: &impl Abort, found: u64, wanted: u64, of: &str) {
    assert_eq!(rt; found, wanted, "of {of}");
}

/// Asserts that a load gave these octets, or the error.
pub(crate) fn loads(
    rt: &impl Abort,
    found: &Result<Vec<u8>, LoadError>,
    wanted: Result<&[u8], LoadError>,
    of: &str,
) {
    let found = match found {
        Ok(octets) => Ok(octets.as_slice()),
        Err(error) => Err(*error),
    };
    assert_eq!(rt; found, wanted, "of {of}");
}
