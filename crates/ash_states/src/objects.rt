//! Objects that were stored, with the names of modules in place of their indexes.

ghost use Rattle.std.specs.Prelude.{◌≡◌, map, IfOk, IsTrue};
ghost use Rattle.ash_host.specs.Objects.{numbers};
ghost use Rattle.ash_plain_data.specs.ObjectViews.{element_seen, object_seen};
ghost use Rattle.ash_plain_steps.specs.StateViews.{modules_seen};
ghost use Rattle.ash_image.specs.Image.{do_rise};
ghost use Rattle.ash_host.specs.ElementTags.{element_of};
ghost use Rattle.ash_image.specs.ImageObjectViews.{plain_of};
ghost use Rattle.ash_image.specs.SnapshotViews.{objects_of};
ghost use Rattle.ash_states.specs.Images.{name_at, element_named, plain_named, entry_named};

use ash_host::ElementTag;
use ash_image::stored::{StoredBody, StoredObject};
use ash_plain_data::object::{Elements, Object};
use ash_plain_steps::state::LoadedModule;
use ash_plain_world::objects::ObjectMap;
use std::alloc::{AllocError, Global};

/// The name of the module at an index.
fn name_at(modules: &[LoadedModule], index: u8) -> &str
    ensures value { result.now ≡ name_at (modules_seen modules.now) index }
{
    match modules.get(usize::from(index)) {
        Some(m) => m.name.as_str(),
        None => "",
    }
}

/// What the elements of an array are.
fn element_of(
    alloc: Global,
    modules: &[LoadedModule],
    of: ElementTag,
) -> Result<Elements, AllocError>
    ensures value { IfOk result (λ e. element_seen e
        ≡ element_named (name_at (modules_seen modules.now)) (element_of of)) }
{
    match of {
        ElementTag::Bool => Ok(Elements::Bools),
        ElementTag::Int => Ok(Elements::Ints),
        ElementTag::Uint => Ok(Elements::Uints),
        ElementTag::Int64 => Ok(Elements::Int64s),
        ElementTag::Uint64 => Ok(Elements::Uint64s),
        ElementTag::Class(owner, place) => {
            let owner = String::from_str(alloc, name_at(modules, owner))?;
            Ok(Elements::Handles {
                owner,
                place: usize::from(place),
            })
        }
        ElementTag::Kind(kind) => Ok(Elements::Hosts(kind)),
    }
}

/// What an object is, beside its number.
fn object_of(
    alloc: Global,
    modules: &[LoadedModule],
    body: StoredBody,
) -> Result<Object, AllocError>
    ensures value { IfOk result (λ o. object_seen o
        ≡ plain_named (name_at (modules_seen modules.now)) (plain_of body)) }
{
    match body {
        StoredBody::Script(script) => {
            let owner = String::from_str(alloc, name_at(modules, script.owner))?;
            Ok(Object::Script {
                owner,
                place: usize::from(script.class),
                fields: script.fields,
            })
        }
        StoredBody::Array(array) => {
            let of = element_of(alloc, modules, array.element)?;
            Ok(Object::Array {
                of,
                elements: array.elements,
            })
        }
        StoredBody::Host(host) => Ok(Object::Host {
            kind: host.kind,
            state: host.state,
        }),
    }
}

/// The objects that were stored, by their numbers.
pub(crate) fn objects_of(
    alloc: Global,
    modules: &[LoadedModule],
    stored: Vec<StoredObject>,
) -> Result<ObjectMap, AllocError>
    requires rise { IsTrue (do_rise (numbers (objects_of stored.items))) }
    ensures named { IfOk result (λ objects. objects
        ≡ map (entry_named (name_at (modules_seen modules.now))) (objects_of stored.items)) }
{
    let mut objects = ObjectMap::new(alloc);
    for StoredObject { number, body } in stored {
        let object = object_of(alloc, modules, body)?;
        objects.insert(number, object)?;
    }
    Ok(objects)
}
