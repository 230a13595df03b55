//! How much a module may declare. The rules of typing have the same limits (`ash_typed/specs/ModuleLimits.antt`).

/// How many classes and interfaces a module has at most.
pub const MAX_MODULE_TYPES: usize = 256;

/// How many variables a module has at most.
pub const MAX_GLOBALS: usize = 256;

/// How many fields and methods a class has at most, and how many methods an interface.
pub const MAX_CLASS_MEMBERS: usize = 32;
