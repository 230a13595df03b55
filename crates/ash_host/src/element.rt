//! What the elements of an array are.
ghost use Rattle.std.specs.Prelude.{◌≡◌};
ghost use Rattle.ash_host.specs.ElementTags.{initial_of};

use crate::Word;

/// What the elements of an array are, where a module is known by a number: its slot, or its index in a list.
#[derive(Clone, Copy, Debug, PartialEq, Eq)]
pub enum ElementTag {
    Bool,
    Int,
    Uint,
    Int64,
    Uint64,
    /// Handles to objects of a class or an interface: the number of its module, and its index in the module's source.
    Class(u8, u16),
    /// Handles to host objects of a kind.
    Kind(u16),
}

impl ElementTag {
    /// What an element is before anything is written to it.
    pub fn initial(self) -> Word
        ensures initial { result ≡ initial_of self }
    {
        match self {
            ElementTag::Bool => Word::Bool(false),
            ElementTag::Int => Word::Int(0),
            ElementTag::Uint => Word::Uint(0),
            ElementTag::Int64 => Word::Int64(0),
            ElementTag::Uint64 => Word::Uint64(0),
            ElementTag::Class(_, _) | ElementTag::Kind(_) => Word::Null,
        }
    }
}
