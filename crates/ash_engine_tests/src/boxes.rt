//! The boxes of a session as the plain evaluator knows them: those that are free, and those that objects took.

use ash_host::Counter;
use ash_machine_fixtures::boxes::Pool;
use ash_machine_fixtures::scripts::kinds_of;
use ash_plain_data::object::Object;
use ash_plain_steps::state::PlainState;
use ash_plain_world::activity::FreeBox;
use std::alloc::{AllocError, Global};

/// The state of a counter or a tally before anything is done with it.
pub fn zero(alloc: Global) -> Result<Vec<u8>, AllocError> {
    Vec::from_slice(alloc, &[0, 0, 0, 0])
}

/// What the plain evaluator knows of a free box of a kind, whose name is this.
fn free_box(alloc: Global, kind: u16) -> Result<FreeBox, AllocError> {
    let state = match kind {
        Counter::KIND => zero(alloc)?,
        _ => Vec::new(alloc),
    };
    Ok(FreeBox { kind, state })
}

/// The boxes that are free after objects took theirs, as the plain evaluator knows them; and the numbers of those
/// objects, each after the name of its box.
#[derive(Drop)]
pub struct Taken {
    pub pool: Vec<FreeBox>,
    pub numbers: Vec<(u64, u64)>,
}

/// The first box of a kind that none of these names has, by its name.
fn first_free(kinds: &[u16], numbers: &[(u64, u64)], kind: u16) -> Option<u64> {
    let mut name: u64 = 0;
    for other in kinds {
        name = name.saturating_add(1);
        if *other == kind && !numbers.iter().any(|pair| pair.0 == name) {
            return Some(name);
        }
    }
    None
}

/// The numbers of the host objects of a state, each after the name of the first free box of its kind.
fn numbers_in(
    alloc: Global,
    kinds: &[u16],
    state: &PlainState,
) -> Result<Vec<(u64, u64)>, AllocError> {
    let mut numbers = Vec::new(alloc);
    for (number, object) in state.objects.iter() {
        if let Object::Host { kind, .. } = object {
            if let Some(name) = first_free(kinds, &numbers, *kind) {
                numbers.push((name, *number))?;
            }
        }
    }
    Ok(numbers)
}

/// What the objects of a state take of a pool.
pub fn taken_by(alloc: Global, pool: Pool, state: &PlainState) -> Result<Taken, AllocError> {
    let kinds = kinds_of(alloc, pool)?;
    let numbers = numbers_in(alloc, &kinds, state)?;
    let mut free = Vec::new(alloc);
    let mut name: u64 = 0;
    for kind in &kinds {
        name = name.saturating_add(1);
        if !numbers.iter().any(|pair| pair.0 == name) {
            free.push(free_box(alloc, *kind)?)?;
        }
    }
    Ok(Taken {
        pool: free,
        numbers,
    })
}
