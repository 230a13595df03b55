//! The same module by the plain evaluator.

use ash_host::Word;
use ash_plain_data::classes::Program;
use ash_plain_data::host_call::HostRecord;
use ash_plain_data::run_error::RunResult;
use ash_plain_scripts::ends::{RunEnd, call_function, load_module};
use ash_plain_world::activity::{FreeBox, World};
use ash_plain_world::objects::ObjectMap;
use std::alloc::{AllocError, Global};
use std::collections::VecDeque;

/// The state of a counter or a tally before anything is done with it.
fn zero(alloc: Global) -> Result<Vec<u8>, AllocError> {
    Vec::from_slice(alloc, &[0, 0, 0, 0])
}

/// A world without objects, with one tally as its service, and free boxes of these kinds. The kind 1 has an `int` as
/// its state.
pub fn new_world(alloc: Global, kinds: &[u16]) -> Result<World, AllocError> {
    let mut pool = Vec::new(alloc);
    for kind in kinds {
        let state = match kind {
            1 => zero(alloc)?,
            _ => Vec::new(alloc),
        };
        pool.push(FreeBox { kind: *kind, state })?;
    }
    Ok(World {
        globals: Vec::new(alloc),
        outside: Vec::new(alloc),
        objects: ObjectMap::new(alloc),
        last: 0,
        services: vec![in alloc; zero(alloc)?]?,
        pool,
        answers: VecDeque::new(alloc),
        events: Vec::new(alloc),
    })
}

/// What is run: the initializers, or a function by its place with its arguments.
#[derive(Clone, Copy)]
pub enum Task<'a> {
    Load,
    Call(usize, &'a [Word]),
}

/// Runs a task, where hosts answer this.
pub fn run(
    program: &Program<'_>,
    task: Task<'_>,
    budget: u64,
    world: World,
    answers: VecDeque<HostRecord>,
) -> RunResult<RunEnd> {
    let mut world = world;
    world.answers = answers;
    world.events = Vec::new(program.alloc);
    match task {
        Task::Load => load_module(program, budget, world),
        Task::Call(place, args) => {
            let args = Vec::from_slice(program.alloc, args)?;
            call_function(program, place, args, budget, world)
        }
    }
}
