//! What a request asks for, once all that it names is found.

use ash_host::Word;
use ash_requests::Shown;
use ash_typed::Module;

/// A module that is to be loaded, with the typed tree of its source.
#[derive(Drop)]
pub struct NewModule<'a> {
    pub name: &'a str,
    pub source: &'a [u8],
    pub tree: Module,
}

/// A call of a function of a module, each by its place, with the words of its arguments.
#[derive(Drop)]
pub struct Invocation {
    pub module: usize,
    pub function: usize,
    pub args: Vec<Word>,
}

/// What a request asks for.
#[derive(Drop)]
pub enum Task<'a> {
    Initialize(NewModule<'a>),
    Invoke(Invocation),
    /// Remove the module at a place.
    Remove(usize),
    Read(Word),
    Show(Shown),
    Count,
    Rewrite,
}
