//! What each test asserts, told by a text.

use std::process::Abort;
use std::rt;

/// Asserts that this is the text.
pub(crate) fn is_text(rt: &impl Abort, found: &[u8], want: &str) {
    assert!(rt; found == want.as_bytes(), "{want}");
}

/// Asserts that this holds.
pub(crate) fn holds(rt: &impl Abort, found: bool, what: &str) {
    assert!(rt; found, "{what}");
}
