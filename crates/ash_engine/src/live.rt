//! A live state: the modules with their code, and the table of objects.

use crate::changes::Changes;
use ash_code::code::Code;
use ash_context::context::Context;
use ash_objects::Objects;
use ash_plain_steps::state::PlainState;

/// The code of a module, which is that of its slot in the table of objects.
#[derive(Drop)]
pub struct Compiled {
    pub(crate) code: Code,
    /// The memory that runs of the code use.
    pub(crate) context: Context,
}

/// What outlives a request, beside the boxes of host objects.
#[derive(Drop)]
pub struct Live<B> {
    /// The modules, with what their globals hold, and how many requests have been answered. It has no objects and no
    /// services: those that live are in the table, and so is the last number that was given.
    pub(crate) loaded: PlainState,
    /// The code of each module, in the order of the modules.
    pub(crate) compiled: Vec<Compiled>,
    /// The objects by their numbers, the free boxes and the services. Each object is held as often as globals hold it.
    pub(crate) table: Objects<B>,
    /// What the last request that was answered may have changed. The marks of the table are clear.
    pub(crate) changes: Changes,
}

/// What no run takes of a live state.
#[derive(Drop)]
pub struct Rest {
    /// The modules. The one that runs has lent its globals.
    pub(crate) loaded: PlainState,
    pub(crate) compiled: Vec<Compiled>,
    pub(crate) changes: Changes,
}
