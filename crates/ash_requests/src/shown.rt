//! Objects as replies show them.

use ash_host::Word;

/// What is in an object.
#[derive(Drop)]
pub enum ObjectContents {
    /// The fields of an object of a class, by their names.
    Fields(Vec<(String, Word)>),
    /// The state of a host object.
    HostState(Vec<u8>),
    /// The elements of an array.
    Elements(Vec<Word>),
}

/// An object as a reply shows it.
#[derive(Drop)]
pub struct Shown {
    pub number: u64,
    /// The name of its type; of a class `m.C`, with the name of its module.
    pub type_name: String,
    /// How many globals, fields and elements are handles to it.
    pub count: usize,
    pub contents: ObjectContents,
}
