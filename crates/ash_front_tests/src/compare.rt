//! Comparisons, each in one place, so that the tests that make them are proved quickly.

use ash_registry::RegistryFault;
use std::alloc::AllocError;
use std::panic::Expect;
use std::process::Abort;

/// What a test that fails for want of memory says.
pub(crate) const NO_MEMORY: &str = "memory was refused";

/// Compares a text with the one that is wanted of this row.
pub(crate) fn check_text(rt: &impl Abort, found: &str, wanted: &str, row: &str) {
    assert!(rt;
        found == wanted,
        "{found:?} in place of {wanted:?} at {row:?}"
    );
}

/// Compares a number with the one that is wanted of this row.
pub(crate) fn check_number(rt: &impl Abort, found: usize, wanted: usize, row: &str) {
    assert!(rt; found == wanted, "{found} in place of {wanted} at {row:?}");
}

/// A text that is made. A test fails where memory is refused to it.
pub(crate) fn expect_text(rt: &impl Abort, made: Result<String, AllocError>) -> String {
    made.expect(rt, NO_MEMORY)
}

/// Fails a test where memory is refused to it.
pub(crate) fn expect_memory(rt: &impl Abort, done: Result<(), AllocError>) {
    done.expect(rt, NO_MEMORY);
}

/// Fails a test where a row is not met, and names that row by its place, or where a registration is refused.
pub(crate) fn expect_all(rt: &impl Abort, unmet: Result<Option<usize>, RegistryFault>) {
    assert_eq!(rt; unmet, Ok(None));
}

/// Fails a test where what it looks at is not met, or where a registration is refused.
pub(crate) fn expect(rt: &impl Abort, is_met: Result<bool, RegistryFault>) {
    assert_eq!(rt; is_met, Ok(true));
}
