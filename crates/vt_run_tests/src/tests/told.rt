//! What a test asserts.

use std::process::Abort;
use std::rt;
use std::sync::atomic::{AtomicU64, Ordering};

/// Asserts that this is the text.
pub fn is_text(rt: &impl Abort, found: &str, want: &str) {
    assert!(rt; found == want, "{want}");
}

/// Asserts that this holds.
pub fn holds(rt: &impl Abort, found: bool, what: &str) {
    assert!(rt; found, "{what}");
}

/// The number that is kept there.
pub fn kept(number: &AtomicU64) -> u64 {
    number.load(Ordering::SeqCst)
}
