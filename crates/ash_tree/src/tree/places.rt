//! Where a phrase of a script is.

/// Where a phrase is: the place of the token that represents it.
#[derive(Clone, Copy, Debug, PartialEq, Eq)]
pub struct Position {
    /// The offset of its first byte in the source, from 0: what a fault in the phrase names.
    pub at: usize,
    /// Its line, from 1: what a tick before the phrase sets.
    pub line: usize,
}
