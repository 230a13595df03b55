//! The limits of the live objects. Definitions name each by the same words, in `Limits.antt`.

/// The most bytes of the state of a host object.
pub const MAX_STATE_BYTES: usize = 1024;

/// The most objects that live at a time.
pub const MAX_OBJECTS: usize = 4096;

/// The most elements of an array.
pub const MAX_ELEMENTS: usize = 4096;
