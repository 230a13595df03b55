//! The limits of an image that no crate below names. Those of the live objects are `ash_host`'s. They are part of the
//! stored format: where the language has such a limit too, it is named again here, so that the bytes of a store mean the
//! same when the language's changes.

/// The most bytes of the text of what is registered.
pub const MAX_REGISTERED_TEXT_BYTES: usize = 1_048_576;

/// The most services.
pub const MAX_SERVICES: u16 = 16;

/// The most modules.
pub const MAX_MODULES: u8 = 16;

/// The most bytes of a module's name.
pub const MAX_MODULE_NAME_BYTES: usize = 64;

/// The most bytes of a source.
pub const MAX_SOURCE_BYTES: usize = 65_536;

/// The most globals of a module.
pub const MAX_GLOBALS: u16 = 256;

/// The most members of a class, so many fields has an object at most.
pub const MAX_CLASS_MEMBERS: u8 = 32;

/// The most deltas of a record.
pub const MAX_DELTAS: u8 = 16;
