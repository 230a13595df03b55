//! Comparisons, each in one place, so that the tests that make them are proved quickly. Each names the row of a test
//! and what of it is compared.

use std::process::Abort;

/// Compares a number with the one that is wanted.
pub(crate) fn check_number(rt: &impl Abort, found: u64, wanted: u64, row: &str, what: &str) {
    assert_eq!(rt; found, wanted, "{row}: {what}");
}

/// Compares bytes with those that are wanted.
pub(crate) fn check_bytes(rt: &impl Abort, found: &[u8], wanted: &[u8], row: &str, what: &str) {
    assert_eq!(rt; found, wanted, "{row}: {what}");
}
