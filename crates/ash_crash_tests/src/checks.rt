//! Comparisons that say what was compared.

use std::fmt::Debug;
use std::process::Abort;

/// Compares what is found with what is wanted.
pub fn check<T: Debug + PartialEq>(rt: &impl Abort, found: &T, wanted: &T, what: &str) {
    if *found != *wanted {
        panic!(rt; "{what}: found {found:?}, wanted {wanted:?}");
    }
}

/// The same of texts.
pub fn check_text(rt: &impl Abort, found: &str, wanted: &str, what: &str) {
    if found != wanted {
        panic!(rt; "{what}: found {found}, wanted {wanted}");
    }
}
