//! The objects of a state, as a table takes them.

ghost use Rattle.std.specs.Prelude.{◌≡◌, ◌≤◌, map, length, IfOk, IfSome, All};
ghost use Rattle.std.specs.List.{AllByRecursion};
ghost use Rattle.ash_plain_data.specs.ObjectViews.{object_seen};
ghost use Rattle.ash_plain_steps.specs.StateViews.{modules_seen};
ghost use Rattle.ash_states.specs.Indexes.{index_in, plain_indexed, entry_indexed, IsPlainIndexed};
ghost use Rattle.ash_table_states.specs.SavedObjects.{body_saved, entry_saved};

use ash_objects::{SavedHostObject, SavedObject};
use ash_plain_data::object::Object;
use ash_plain_steps::state::LoadedModule;
use ash_plain_world::objects::ObjectMap;
use ash_slots::{Array, Body, Script, Words};
use ash_states::parts::{element_type, index_of};
use std::alloc::{AllocError, Global};

/// What an object is, beside its number.
fn body_of(
    alloc: Global,
    modules: &[LoadedModule],
    object: &Object,
) -> Result<Body<SavedHostObject>, AllocError>
    requires indexed { IsPlainIndexed (modules_seen modules.now) (object_seen object.now) }
    ensures indexed { IfOk result (λ body. body_saved body
        ≡ plain_indexed (index_in (modules_seen modules.now)) (object_seen object.now)) }
{
    match object {
        Object::Script {
            owner,
            place,
            fields,
        } => {
            let fields = Vec::from_slice(alloc, fields.as_slice())?;
            Ok(Body::Script(Script {
                module: index_of(modules, owner.as_str()) as u8,
                class: *place as u16,
                fields: Words::new(fields),
            }))
        }
        Object::Array { of, elements } => {
            let elements = Vec::from_slice(alloc, elements.as_slice())?;
            Ok(Body::Array(Array {
                element: element_type(modules, of),
                elements: Words::new(elements),
            }))
        }
        Object::Host { kind, state } => {
            let state = Vec::from_slice(alloc, state.as_slice())?;
            Ok(Body::Host(SavedHostObject { kind: *kind, state }))
        }
    }
}

/// The objects of a state by ascending number, each with the index of its module as the slot.
pub fn saved_objects(
    alloc: Global,
    modules: &[LoadedModule],
    objects: &ObjectMap,
) -> Result<Vec<SavedObject>, AllocError>
    requires indexed { AllByRecursion (λ e. IsPlainIndexed (modules_seen modules.now) e.1)
        objects.now }
    ensures saved { IfOk result (λ saved. map entry_saved saved.items
        ≡ map (entry_indexed (index_in (modules_seen modules.now))) objects.now) }
{
    let mut saved = Vec::with_capacity(alloc, objects.len())?;
    for (number, object) in objects.iter() {
        let body = body_of(alloc, modules, object)?;
        saved.push(SavedObject {
            number: *number,
            body,
        })?;
    }
    Ok(saved)
}
