//! Comparisons that say what was compared, each in one place, so that the tests that make them are proved quickly.

use ash_image::image::{read_body, read_image};
use ash_image::stored::StoredImage;
use std::alloc::{AllocError, Global};
use std::process::Abort;

/// What bytes are read as.
#[derive(Clone, Copy, Debug, PartialEq, Eq)]
pub(crate) enum ReadAs {
    Image,
    Nothing,
}

/// What was read.
fn read_as(found: &Option<StoredImage>) -> ReadAs {
    match found {
        Some(_) => ReadAs::Image,
        None => ReadAs::Nothing,
    }
}

/// What bytes are read as, where an image is read.
pub(crate) fn image_read_as(alloc: Global, bytes: &[u8]) -> Result<ReadAs, AllocError> {
    Ok(read_as(&read_image(alloc, bytes)?))
}

/// What bytes are read as, where the body of a record is read.
pub(crate) fn body_read_as(alloc: Global, bytes: &[u8]) -> Result<ReadAs, AllocError> {
    Ok(read_as(&read_body(alloc, bytes)?))
}

/// Compares a text with the one that is wanted.
pub(crate) fn check_text(rt: &impl Abort, found: &str, wanted: &str, what: &str) {
    if found != wanted {
        panic!(rt; "{what}: found {found}, wanted {wanted}");
    }
}

/// Compares bytes with those that are wanted.
pub(crate) fn check_bytes(rt: &impl Abort, found: &[u8], wanted: &[u8], what: &str) {
    if found != wanted {
        panic!(rt; "{what}: found {found:?}, wanted {wanted:?}");
    }
}

/// Compares a number with the one that is wanted.
pub(crate) fn check_count(rt: &impl Abort, found: usize, wanted: usize, what: &str) {
    if found != wanted {
        panic!(rt; "{what}: found {found}, wanted {wanted}");
    }
}

/// Compares what bytes are read as with what is wanted.
pub(crate) fn check_read_as(rt: &impl Abort, found: ReadAs, wanted: ReadAs, what: &str) {
    if found != wanted {
        panic!(rt; "{what}: found {found:?}, wanted {wanted:?}");
    }
}
