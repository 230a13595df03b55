//! What a test says of what it found.

use ash_host::NoMemory;
use std::process::Abort;

/// Fails a test where a row is not met, and names that row by its place, or where memory ran out.
pub fn expect_all(rt: &impl Abort, unmet: Result<Option<usize>, NoMemory>) {
    assert_eq!(rt; unmet, Ok(None));
}

/// Fails a test where what it looks at is not met, or where memory ran out.
pub fn expect(rt: &impl Abort, is_met: Result<bool, NoMemory>) {
    assert_eq!(rt; is_met, Ok(true));
}
