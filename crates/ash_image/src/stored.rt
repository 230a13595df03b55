//! A state as it was read, with data of its own.

ghost use Rattle.std.specs.Prelude.{◌≡◌};
ghost use Rattle.ash_host.specs.Objects.{fields_of};
ghost use Rattle.ash_image.specs.ImageObjectViews.{plain_of};

use crate::version::Version;
use ash_host::{ElementTag, Word};

/// An object of a script's class.
#[derive(Debug, Drop)]
pub struct StoredScript {
    /// The index of the module in the list of modules.
    pub owner: u8,
    /// The index of the class in the module's source.
    pub class: u16,
    /// Its fields, in order of declaration.
    pub fields: Vec<Word>,
}

/// A host object, or a service.
#[derive(Debug, Drop)]
pub struct StoredHost {
    pub kind: u16,
    pub state: Vec<u8>,
}

/// An array.
#[derive(Debug, Drop)]
pub struct StoredArray {
    pub element: ElementTag,
    pub elements: Vec<Word>,
}

/// What an object is, beside its number.
#[derive(Debug, Drop)]
pub enum StoredBody {
    Script(StoredScript),
    Host(StoredHost),
    Array(StoredArray),
}

/// The words of an object.
pub fn words_of(body: &StoredBody) -> &[Word]
    ensures exact { result.now ≡ fields_of (plain_of body.now) }
{
    match body {
        StoredBody::Script(script) => script.fields.as_slice(),
        StoredBody::Array(array) => array.elements.as_slice(),
        StoredBody::Host(_) => &[],
    }
}

/// An object, by its number.
#[derive(Debug, Drop)]
pub struct StoredObject {
    pub number: u64,
    pub body: StoredBody,
}

/// A module.
#[derive(Debug, Drop)]
pub struct StoredModule {
    pub name: String,
    pub source: Vec<u8>,
    /// What the globals hold, in source order.
    pub globals: Vec<Word>,
}

/// A state.
#[derive(Debug, Drop)]
pub struct StoredState {
    /// The text of what was registered.
    pub registered: String,
    /// How many requests have been answered.
    pub seq: u64,
    /// The last number that was given to an object.
    pub last: u64,
    /// The services, in order of registration.
    pub services: Vec<StoredHost>,
    /// The modules that are loaded, by ascending name.
    pub modules: Vec<StoredModule>,
    /// The objects that live, by ascending number.
    pub objects: Vec<StoredObject>,
}

/// A state as it was read from an image, and the version of the image.
#[derive(Debug, Drop)]
pub struct StoredImage {
    pub version: Version,
    pub state: StoredState,
}
