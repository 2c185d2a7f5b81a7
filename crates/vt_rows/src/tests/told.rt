//! What a test asserts.

use std::process::Abort;
use std::rt;

/// Asserts that this holds.
pub(crate) fn holds(rt: &impl Abort, found: bool, what: &str) {
    assert!(rt; found, "{what}");
}
