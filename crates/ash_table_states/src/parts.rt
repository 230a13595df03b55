//! The objects of a table, as an image has them.

ghost use Rattle.std.specs.Prelude.{◌≡◌, ◌≤◌, ◌<◌, ◌^◌, map, length, IfOk};
ghost use Rattle.std.specs.Prelude.{nat_eq, position, IfSome};
ghost use Rattle.std.specs.List.{AllByRecursion};
ghost use Rattle.ash_host.specs.ElementTags.{element_of};
ghost use Rattle.ash_image.specs.ImageObjectViews.{plain_in};
ghost use Rattle.ash_image.specs.SnapshotViews.{objects_in};
ghost use Rattle.ash_states.specs.Indexes.{HasElementKind, HasKind};
ghost use Rattle.ash_states.specs.Writing.{HavePartKinds};
ghost use Rattle.ash_table_states.specs.WrittenObjects.{index_at, element_written, state_in};
ghost use Rattle.ash_table_states.specs.WrittenObjects.{body_written, objects_written};
ghost use Rattle.ash_table_states.specs.WrittenObjects.{listed_entries};
ghost use Rattle.ash_objects.specs.Restoring.{bodies_of};

use ash_host::{ElementTag, HostObject};
use ash_image::parts::{ArrayParts, BodyParts, HostParts, ObjectParts, ScriptParts};
use ash_objects::Objects;
use ash_slots::Body;
use std::alloc::{AllocError, Global};

/// An object of a table, by its number.
#[derive(Drop)]
pub struct ListedObject<'a, B> {
    pub number: u64,
    pub body: &'a Body<B>,
}

/// The place of a slot.
fn place_of(slots: &[u8], slot: u8) -> Option<usize>
    ensures value { result ≡ position (nat_eq slot) slots.now }
    ensures within { IfSome result (λ place. place < length slots.now) }
{
    slots.iter().position(|other| slot == *other)
}

/// The index of the module in a slot.
fn index_at(slots: &[u8], slot: u8) -> u8
    requires few { length slots.now ≤ 16 }
    ensures value { result ≡ index_at slots.now slot }
{
    match place_of(slots, slot) {
        Some(index) => index as u8,
        None => 0,
    }
}

/// What the elements of an array are.
fn element_at(slots: &[u8], of: ElementTag) -> ElementTag
    requires few { length slots.now ≤ 16 }
    ensures value { element_of result ≡ element_written (index_at slots.now) of }
    ensures kind { HasElementKind (element_of result) }
{
    match of {
        ElementTag::Class(slot, place) => ElementTag::Class(index_at(slots, slot), place),
        other => other,
    }
}

/// The state of a box.
pub fn state_of<B: HostObject>(alloc: Global, object: &B) -> Result<Vec<u8>, AllocError>
    ensures state { IfOk result (λ state. state.items ≡ B.state object.now) }
{
    let mut state = Vec::new(alloc);
    match object.save(&mut state) {
        Ok(()) => Ok(state),
        Err(_) => Err(AllocError),
    }
}

/// The states of boxes, in order.
pub(crate) fn states_of<B: HostObject>(
    alloc: Global,
    boxes: &[B],
) -> Result<Vec<Vec<u8>>, AllocError>
    ensures states { IfOk result (λ states. map (λ state. state.items) states.items
        ≡ map B.state boxes.now) }
{
    let mut states = Vec::with_capacity(alloc, boxes.len())?;
    for object in boxes {
        let state = state_of(alloc, object)?;
        states.push(state)?;
    }
    Ok(states)
}

/// The state of an object: that of its box, if it is a host object.
fn state_in<B: HostObject>(alloc: Global, body: &Body<B>) -> Result<Vec<u8>, AllocError>
    ensures state { IfOk result (λ state. state.items ≡ state_in B.HostObject body.now) }
{
    match body {
        Body::Host(object) => state_of(alloc, object),
        Body::Script(_) | Body::Array(_) => Ok(Vec::new(alloc)),
    }
}

/// The objects of a table by ascending number.
pub(crate) fn listed<B: HostObject>(
    alloc: Global,
    table: &Objects<B>,
) -> Result<Vec<ListedObject<'_, B>>, AllocError>
    ensures listed { IfOk result (λ objects. listed_entries objects.items
        ≡ bodies_of table.now.objects) }
{
    table.facts();
    let mut objects = Vec::with_capacity(alloc, table.len())?;
    for number in table.numbers() {
        let Some(body) = table.body(*number) else {
            unreachable!()
        };
        objects.push(ListedObject {
            number: *number,
            body,
        })?;
    }
    Ok(objects)
}

/// The states of objects, in order. What is no host object has none.
pub fn object_states<B: HostObject>(
    alloc: Global,
    objects: &[ListedObject<'_, B>],
) -> Result<Vec<Vec<u8>>, AllocError>
    ensures states { IfOk result (λ states. map (λ state. state.items) states.items
        ≡ map (λ o. state_in B.HostObject o.body.now) objects.now) }
{
    let mut states = Vec::with_capacity(alloc, objects.len())?;
    for object in objects {
        let state = state_in(alloc, object.body)?;
        states.push(state)?;
    }
    Ok(states)
}

/// What an object is, beside its number, with its state.
fn body_parts<'a, B: HostObject>(slots: &[u8], body: &'a Body<B>, state: &'a [u8]) -> BodyParts<'a>
    requires few { length slots.now ≤ 16 }
    requires state { state.now ≡ state_in B.HostObject body.now }
    ensures written { plain_in result ≡ body_written B.HostObject (index_at slots.now) body.now }
    ensures kind { HasKind (plain_in result) }
{
    match body {
        Body::Script(script) => BodyParts::Script(ScriptParts {
            owner: index_at(slots, script.module),
            class: script.class,
            fields: script.fields.as_slice(),
        }),
        Body::Array(array) => BodyParts::Array(ArrayParts {
            element: element_at(slots, array.element),
            elements: array.elements.as_slice(),
        }),
        Body::Host(object) => BodyParts::Host(HostParts {
            kind: object.kind(),
            state,
        }),
    }
}

/// Objects with their numbers and their states, if the modules have these slots.
pub fn object_parts<'a, B: HostObject>(
    alloc: Global,
    slots: &[u8],
    objects: &'a [ListedObject<'a, B>],
    states: &'a [Vec<u8>],
) -> Result<Vec<ObjectParts<'a>>, AllocError>
    requires few { length slots.now ≤ 16 }
    requires states { map (λ state. state.items) states.now
        ≡ map (λ o. state_in B.HostObject o.body.now) objects.now }
    ensures written { IfOk result (λ parts. objects_in parts.items
        ≡ objects_written B.HostObject (index_at slots.now) (listed_entries objects.now)) }
    ensures kinds { IfOk result (λ parts. HavePartKinds parts.items) }
{
    let mut parts = Vec::with_capacity(alloc, objects.len())?;
    for (place, object) in objects.iter().enumerate() {
        parts.push(ObjectParts {
            number: object.number,
            body: body_parts(slots, object.body, states[place].as_slice()),
        })?;
    }
    Ok(parts)
}
