//! The versions of an image.

/// The version of an image.
#[derive(Clone, Copy, Debug, PartialEq, Eq)]
pub enum Version {
    /// Without arrays.
    One,
    /// With arrays. It is the version that is written.
    Two,
}
