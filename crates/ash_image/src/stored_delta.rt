//! A delta as it was read, with data of its own.

use crate::stored::{StoredModule, StoredObject};
use ash_host::Word;

/// The new state of a service.
#[derive(Debug, Drop)]
pub struct StoredService {
    /// The index of the service in order of registration.
    pub index: u16,
    pub state: Vec<u8>,
}

/// What a global holds.
#[derive(Clone, Copy, Debug)]
pub struct IndexedWord {
    /// The index of the global in source order.
    pub index: u16,
    pub word: Word,
}

/// What globals of a module hold.
#[derive(Debug, Drop)]
pub struct StoredGlobals {
    pub name: String,
    /// By ascending index.
    pub globals: Vec<IndexedWord>,
}

/// What became of the modules.
#[derive(Debug, Drop)]
pub enum StoredChange {
    Unchanged,
    /// A module that is new, or in place of one of its name.
    Added(StoredModule),
    /// The name of a module that is removed.
    Removed(String),
    Globals(StoredGlobals),
}

/// What a request changed.
#[derive(Debug, Drop)]
pub struct StoredDelta {
    /// How many requests have been answered.
    pub seq: u64,
    /// The last number that was given to an object.
    pub last: u64,
    /// The services that have another state, by ascending index.
    pub services: Vec<StoredService>,
    pub change: StoredChange,
    /// The numbers of the objects that are gone, ascending.
    pub gone: Vec<u64>,
    /// The objects that are new or changed, by ascending number.
    pub put: Vec<StoredObject>,
}
