//! A state in which each object has its module by name, so a module that comes or goes leaves objects as they are.

use crate::stored::{StoredBody, StoredHost};
use ash_host::Word;
use std::collections::BTreeMap;

/// A module that is loaded, beside its name.
#[derive(Debug, Drop)]
pub struct NamedModule {
    pub source: Vec<u8>,
    /// What the globals hold, in source order.
    pub globals: Vec<Word>,
}

/// The modules that are loaded, by their names.
pub type NamedModules = BTreeMap<String, NamedModule>;

/// An object, beside its number.
#[derive(Debug, Drop)]
pub struct NamedObject {
    /// The name of the module of its class, or of the class that an array is of. Empty if it has none.
    pub owner: String,
    /// What it is. The index of a module in it says nothing.
    pub body: StoredBody,
}

/// The objects that live, by their numbers.
pub type NamedObjects = BTreeMap<u64, NamedObject>;

/// A state.
#[derive(Drop)]
pub struct NamedState {
    /// The text of what was registered.
    pub registered: String,
    /// How many requests have been answered.
    pub seq: u64,
    /// The last number that was given to an object.
    pub last: u64,
    /// The services, in order of registration.
    pub services: Vec<StoredHost>,
    pub modules: NamedModules,
    pub objects: NamedObjects,
}
