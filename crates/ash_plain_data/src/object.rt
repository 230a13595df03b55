//! An object: of a class, an array, or of the embedding program.

ghost use Rattle.std.specs.Prelude.{◌≡◌, IfOk};
ghost use Rattle.ash_host.specs.Objects.{fields_of, is_host};
ghost use Rattle.ash_meaning.specs.ObjectSteps.{with_words};
ghost use Rattle.ash_meaning.specs.HostSteps.{with_state_in};
ghost use Rattle.ash_plain_data.specs.ObjectViews.{element_seen, object_seen};

use ash_host::Word;
use std::alloc::{AllocError, Global};

/// What the elements of an array are of. Handles of objects of a class or an interface have the module, and the place
/// of the class or the interface in its source. It is not `ash_host`'s `ElementTag`, since a module is known by its name
/// here, and has no number.
#[derive(Drop)]
pub enum Elements {
    Bools,
    Ints,
    Uints,
    Int64s,
    Uint64s,
    Handles { owner: String, place: usize },
    /// Handles of host objects of a kind.
    Hosts(u16),
}

/// An object.
#[derive(Drop)]
pub enum Object {
    /// The module and the place of the class in its source, and the fields in order of declaration.
    Script {
        owner: String,
        place: usize,
        fields: Vec<Word>,
    },
    Array {
        of: Elements,
        elements: Vec<Word>,
    },
    Host {
        kind: u16,
        state: Vec<u8>,
    },
}

impl Elements {
    fn copy_in(&self, alloc: Global) -> Result<Elements, AllocError>
        ensures value { IfOk result (λ of. element_seen of ≡ element_seen self.now) }
    {
        match self {
            Elements::Bools => Ok(Elements::Bools),
            Elements::Ints => Ok(Elements::Ints),
            Elements::Uints => Ok(Elements::Uints),
            Elements::Int64s => Ok(Elements::Int64s),
            Elements::Uint64s => Ok(Elements::Uint64s),
            Elements::Handles { owner, place } => {
                let owner = String::from_str(alloc, owner.as_str())?;
                Ok(Elements::Handles {
                    owner,
                    place: *place,
                })
            }
            Elements::Hosts(kind) => Ok(Elements::Hosts(*kind)),
        }
    }
}

impl Object {
    /// The fields, or the elements; a host object has none.
    pub fn words(&self) -> &[Word]
        ensures words { result.now ≡ fields_of (object_seen self.now) }
    {
        match self {
            Object::Script { fields, .. } => fields.as_slice(),
            Object::Array { elements, .. } => elements.as_slice(),
            Object::Host { .. } => &[],
        }
    }

    /// Whether it is of the embedding program.
    pub fn is_host(&self) -> bool
        ensures host { result ≡ is_host (object_seen self.now) }
    {
        match self {
            Object::Script { .. } | Object::Array { .. } => false,
            Object::Host { .. } => true,
        }
    }

    /// The same object with other words. A host object has none, and stays as it is.
    pub fn with_words(&self, alloc: Global, words: Vec<Word>) -> Result<Object, AllocError>
        ensures words { IfOk result (λ object. object_seen object
            ≡ with_words words.items (object_seen self.now)) }
    {
        match self {
            Object::Script { owner, place, .. } => {
                let owner = String::from_str(alloc, owner.as_str())?;
                Ok(Object::Script {
                    owner,
                    place: *place,
                    fields: words,
                })
            }
            Object::Array { of, .. } => {
                let of = of.copy_in(alloc)?;
                Ok(Object::Array {
                    of,
                    elements: words,
                })
            }
            Object::Host { kind, state } => {
                let state = Vec::from_slice(alloc, state.as_slice())?;
                Ok(Object::Host { kind: *kind, state })
            }
        }
    }

    /// The same object in another state, where it is a host object.
    pub fn with_state(&self, alloc: Global, state: Vec<u8>) -> Result<Object, AllocError>
        ensures state { IfOk result (λ object. object_seen object
            ≡ with_state_in state.items (object_seen self.now)) }
    {
        match self {
            Object::Script {
                owner,
                place,
                fields,
            } => {
                let owner = String::from_str(alloc, owner.as_str())?;
                let fields = Vec::from_slice(alloc, fields.as_slice())?;
                Ok(Object::Script {
                    owner,
                    place: *place,
                    fields,
                })
            }
            Object::Array { of, elements } => {
                let of = of.copy_in(alloc)?;
                let elements = Vec::from_slice(alloc, elements.as_slice())?;
                Ok(Object::Array { of, elements })
            }
            Object::Host { kind, .. } => Ok(Object::Host { kind: *kind, state }),
        }
    }
}
