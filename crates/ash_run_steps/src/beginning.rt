//! The beginning of a run.
ghost use Rattle.std.specs.Prelude.{◌≡◌, ◌++◌, [], List, All, IsTrue};
ghost use Rattle.ash_host.specs.Objects.{handles};
ghost use Rattle.ash_host.specs.Records.{HostRecord};
ghost use Rattle.ash_host.specs.declared.word.Word.TheVariants as words;
ghost use Rattle.ash_meaning.specs.Ends.{begun};
ghost use Rattle.ash_run_steps.specs.RunStates.{Names, HoldsRoots, bare, frame_shown, is_alive_in, shown};
ghost use Rattle.ash_run_steps.specs.Stacks.{locals_of};
ghost use Rattle.ash_run_steps.specs.Worlds.{world_of};

use crate::counting::hold_words;
use crate::stack::Stack;
use crate::state::RunState;
use ash_host::{Event, HostObject, Word};
use ash_objects::Objects;

/// What a run finds, and what it leaves.
#[derive(Drop)]
pub struct Parts<B: HostObject = Box<dyn HostObject>> {
    pub table: Objects<B>,
    /// The globals of the module that runs.
    pub globals: Vec<Word>,
    /// The objects that the globals of other modules hold.
    pub outside: Vec<u64>,
    pub events: Vec<Event>,
}

impl<B: HostObject> RunState<B> {
    /// Begins a run in one frame, with so many ticks. Before it each object is held as often as globals hold it. It
    /// takes no memory.
    pub fn begin(parts: Parts<B>, stack: Stack, ticks: u64) -> RunState<B>
        requires held { HoldsRoots parts.table (parts.outside.items ++ handles parts.globals.items) }
        requires first { stack.callers ≡ [] }
        requires this { stack.frame.this ≡ words.Null }
        requires bare { stack.frame.held ≡ [] }
        requires alive { All (λ word. IsTrue (is_alive_in word parts.table)) (locals_of stack.frame) }
        ensures begun { (names : Names) (rest : List HostRecord) → shown B.HostObject names rest result
            ≡ begun (world_of B.HostObject names rest parts.table parts.globals.items parts.outside.items
            parts.events.items) ticks (frame_shown names stack.frame) }
        ensures same { bare result.table ≡ bare parts.table }
        ensures events { result.events ≡ parts.events.items }
        ensures frames { result.frames ≡ stack }
    {
        let mut table = parts.table;
        stack.facts();
        hold_words(&mut table, stack.locals());
        RunState {
            table,
            stack,
            globals: parts.globals,
            outside: parts.outside,
            events: parts.events,
            ticks,
        }
    }
}
