//! The parts of a delta that is to be stored.

use crate::parts::{ModuleParts, ObjectParts};
use crate::stored_delta::IndexedWord;

/// The new state of a service.
#[derive(Clone, Copy, Debug)]
pub struct ServiceParts<'a> {
    /// The index of the service in order of registration.
    pub index: u16,
    pub state: &'a [u8],
}

/// What globals of a module hold.
#[derive(Clone, Copy, Debug)]
pub struct GlobalsParts<'a> {
    pub name: &'a str,
    /// By ascending index.
    pub globals: &'a [IndexedWord],
}

/// What became of the modules.
#[derive(Clone, Copy, Debug)]
pub enum ChangeParts<'a> {
    Unchanged,
    /// A module that is new, or in place of one of its name.
    Added(ModuleParts<'a>),
    /// The name of a module that is removed.
    Removed(&'a str),
    Globals(GlobalsParts<'a>),
}

/// What a request changed.
#[derive(Clone, Copy, Debug)]
pub struct DeltaParts<'a> {
    /// How many requests have been answered.
    pub seq: u64,
    /// The last number that was given to an object.
    pub last: u64,
    /// The services that have another state, by ascending index.
    pub services: &'a [ServiceParts<'a>],
    pub change: ChangeParts<'a>,
    /// The numbers of the objects that are gone, ascending.
    pub gone: &'a [u64],
    /// The objects that are new or changed, by ascending number.
    pub put: &'a [ObjectParts<'a>],
}
