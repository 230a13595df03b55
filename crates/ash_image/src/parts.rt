//! The parts of a state that is to be stored.

use ash_host::{ElementTag, Word};

/// An object of a script's class.
#[derive(Clone, Copy, Debug)]
pub struct ScriptParts<'a> {
    /// The index of the module in the list of modules.
    pub owner: u8,
    /// The index of the class in the module's source.
    pub class: u16,
    /// Its fields, in order of declaration.
    pub fields: &'a [Word],
}

/// A host object, or a service.
#[derive(Clone, Copy, Debug)]
pub struct HostParts<'a> {
    pub kind: u16,
    pub state: &'a [u8],
}

/// An array.
#[derive(Clone, Copy, Debug)]
pub struct ArrayParts<'a> {
    pub element: ElementTag,
    pub elements: &'a [Word],
}

/// What an object is, beside its number.
#[derive(Clone, Copy, Debug)]
pub enum BodyParts<'a> {
    Script(ScriptParts<'a>),
    Host(HostParts<'a>),
    Array(ArrayParts<'a>),
}

/// An object, by its number.
#[derive(Clone, Copy, Debug)]
pub struct ObjectParts<'a> {
    pub number: u64,
    pub body: BodyParts<'a>,
}

/// A module.
#[derive(Clone, Copy, Debug)]
pub struct ModuleParts<'a> {
    pub name: &'a str,
    pub source: &'a [u8],
    /// What the globals hold, in source order.
    pub globals: &'a [Word],
}

/// A state.
#[derive(Clone, Copy, Debug)]
pub struct StateParts<'a> {
    /// The text of what is registered.
    pub registered: &'a str,
    /// How many requests have been answered.
    pub seq: u64,
    /// The last number that was given to an object.
    pub last: u64,
    /// The services, in order of registration.
    pub services: &'a [HostParts<'a>],
    /// The modules that are loaded, by ascending name.
    pub modules: &'a [ModuleParts<'a>],
    /// The objects that live, by ascending number.
    pub objects: &'a [ObjectParts<'a>],
}
