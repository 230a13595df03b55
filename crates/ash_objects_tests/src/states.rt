//! What a table is restored from: the objects that a state holds, free boxes, and services with their states.
ghost use Rattle.std.specs.Prelude.{◌≡◌, ◌≤◌, ◌∷◌, ℕ, [], All, IfOk, IfSome, length, vec_len};
ghost use Rattle.ash_host.specs.declared.word.Word.{Word};
ghost use Rattle.ash_host.specs.Objects.{object_at, Lives, AreNumbered, handle};
ghost use Rattle.ash_slots.specs.Bodies.{words_of};
ghost use Rattle.ash_objects.specs.Restoring.{stored_in};
ghost use Rattle.ash_host.specs.Limits.{max_objects, max_elements};

use crate::reporter::{Log, Reporter};
use crate::table::{Table, new_box, new_boxes};
use ash_host::{NoMemory, Word};
use ash_objects::{
    Body, Objects, SavedHostObject, SavedObject, SavedObjects, Script, TableFault, Words,
};
use std::alloc::Global;

// An object of a class with one field.
fn script(alloc: Global, number: u64, field: u64) -> Result<SavedObject, NoMemory>
    ensures number { IfOk result (λ stored. stored.number ≡ number) }
    ensures words { IfOk result (λ stored. words_of stored.body ≡ Word.Object field ∷ []) }
{
    let mut words = Vec::new(alloc);
    words.push(Word::Object(field))?;
    let script = Script {
        module: 0,
        class: 0,
        fields: Words::new(words),
    };
    Ok(SavedObject {
        number,
        body: Body::Script(script),
    })
}

/// What a state has of a host object.
#[derive(Clone, Copy)]
pub struct SavedHost<'a> {
    /// The number of its kind.
    pub kind: u16,
    /// Its state in bytes.
    pub state: &'a [u8],
}

// A host object.
fn host(alloc: Global, number: u64, of: SavedHost<'_>) -> Result<SavedObject, NoMemory>
    ensures number { IfOk result (λ stored. stored.number ≡ number) }
    ensures words { IfOk result (λ stored. words_of stored.body ≡ []) }
{
    let mut state = Vec::new(alloc);
    state.extend_from_slice(of.state)?;
    let saved = SavedHostObject {
        kind: of.kind,
        state,
    };
    Ok(SavedObject {
        number,
        body: Body::Host(saved),
    })
}

// A state with two objects that hold the host object 3 and one that holds the host object 5, and these two, of which 9
// is the last number that was given.
fn stored_objects(
    alloc: Global,
    third: SavedHost<'_>,
    fifth: SavedHost<'_>,
) -> Result<SavedObjects, NoMemory>
    ensures numbered { IfOk result
        (λ stored. AreNumbered stored.last (stored_in stored.objects.items)) }
    ensures few { IfOk result (λ stored. vec_len stored.objects ≤ max_objects) }
    ensures short { IfOk result
        (λ stored. (number : ℕ) → IfSome (object_at number (stored_in stored.objects.items))
        (λ body. length (words_of body) ≤ max_elements)) }
    ensures alive { IfOk result
        (λ stored. (number : ℕ) → IfSome (object_at number (stored_in stored.objects.items))
        (λ body. All (λ word. IfSome (handle word) (Lives (stored_in stored.objects.items)))
        (words_of body))) }
{
    let mut objects = Vec::new(alloc);
    objects.push(script(alloc, 1, 3)?)?;
    objects.push(script(alloc, 2, 5)?)?;
    objects.push(host(alloc, 3, third)?)?;
    objects.push(script(alloc, 4, 3)?)?;
    objects.push(host(alloc, 5, fifth)?)?;
    Ok(SavedObjects { objects, last: 9 })
}

/// A service, and the state that it had.
#[derive(Clone, Copy)]
pub struct Service<'a> {
    pub name: u16,
    pub state: &'a [u8],
}

/// A state with the host objects 3 and 5, and what it is restored from: the free boxes and the services.
#[derive(Clone, Copy)]
pub struct RestoreInput<'a> {
    /// The names of the free boxes, in order.
    pub pool: &'a [u16],
    pub third: SavedHost<'a>,
    pub fifth: SavedHost<'a>,
    /// In order.
    pub services: &'a [Service<'a>],
}

// The boxes of services and their states, each in order.
fn boxes_and_states(
    alloc: Global,
    log: &Log,
    services: &[Service<'_>],
) -> Result<(Vec<Reporter>, Vec<Vec<u8>>), NoMemory>
    ensures value { IfOk result (λ both. vec_len both.0 ≡ vec_len both.1) }
{
    let mut boxes = Vec::new(alloc);
    let mut states = Vec::new(alloc);
    for service in services {
        let mut state = Vec::new(alloc);
        state.extend_from_slice(service.state)?;
        states.push(state)?;
        boxes.push(new_box(log, service.name)?)?;
    }
    Ok((boxes, states))
}

/// A table from a state, or why there is none.
pub fn restored(
    alloc: Global,
    log: &Log,
    input: &RestoreInput<'_>,
) -> Result<Result<Table, TableFault>, NoMemory> {
    let pool = new_boxes(alloc, log, input.pool)?;
    let (services, states) = boxes_and_states(alloc, log, input.services)?;
    let stored = stored_objects(alloc, input.third, input.fifth)?;
    Ok(Objects::restored(alloc, stored, &states, pool, services))
}

/// Two services, with their states.
pub const SERVICES: [Service<'static>; 2] = [
    Service {
        name: 31,
        state: &[8, 0, 0, 0],
    },
    Service {
        name: 41,
        state: &[9, 0, 0, 0],
    },
];
