//! What a fault reports of its source.

use ash_parse::UnsupportedPart;

/// What a fault reports of its source.
#[derive(Clone, Copy)]
pub(crate) enum Details<'a> {
    Nothing,
    /// An offset in it.
    At(usize),
    /// The word of a part of the language that the profile does not have, and its offset.
    WordAt(UnsupportedPart, usize),
    /// The names of classes.
    Names(&'a [String]),
}
