//! Comparisons that say what was compared.

use std::process::Abort;

/// Compares a text with the one that is wanted of a row.
pub fn check_text(rt: &impl Abort, found: &str, wanted: &str, what: (&str, &str)) {
    if found != wanted {
        let (row, part) = what;
        panic!(rt; "{row}, {part}: found {found}, wanted {wanted}");
    }
}

/// Whether a text is the beginning of the one that is wanted of a row.
pub fn check_beginning(rt: &impl Abort, found: &str, wanted: &str, what: (&str, &str)) {
    if !wanted.starts_with(found) {
        let (row, part) = what;
        panic!(rt; "{row}, {part}: found {found}, wanted it and more: {wanted}");
    }
}
