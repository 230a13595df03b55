//! The state of a run.

use crate::stack::Stack;
use ash_host::{Event, HostObject, Word};
use ash_objects::Objects;
use std::marker::Model;

/// What runs, over the table of objects: the frames, the globals of the module that runs, and what outlives the run.
/// Each object is held in the table as often as it is among the roots.
#[derive(Drop)]
pub struct RunState<B: HostObject = Box<dyn HostObject>> {
    pub(crate) table: Objects<B>,
    pub(crate) stack: Stack,
    pub(crate) globals: Vec<Word>,
    /// The objects that the globals of other modules hold.
    pub(crate) outside: Vec<u64>,
    pub(crate) events: Vec<Event>,
    pub(crate) ticks: u64,
}

impl<B: HostObject> Model for RunState<B> {
    ghost use Rattle.ash_run_steps.specs.RunStates.{State, HoldsRoots, roots_in, state_with};

    ghost Value = { State B };

    ghost view = { λ s. state_with s.table s.stack s.globals.items s.outside.items s.events.items
        s.ticks };

    ghost invariant = { λ s. HoldsRoots s.table (roots_in (state_with s.table s.stack
        s.globals.items s.outside.items s.events.items s.ticks)) };
}
