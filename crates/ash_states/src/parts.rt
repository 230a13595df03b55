//! The parts of a state that is written, with the indexes of modules in place of their names.

ghost use Rattle.std.specs.Prelude.{◌≡◌, map, IfOk};
ghost use Rattle.std.specs.List.{position, AllByRecursion};
ghost use Rattle.ash_requests.specs.States.{has_name};
ghost use Rattle.ash_plain_data.specs.ObjectViews.{element_seen, object_seen};
ghost use Rattle.ash_plain_steps.specs.StateViews.{loaded_seen, modules_seen};
ghost use Rattle.ash_host.specs.ElementTags.{element_of};
ghost use Rattle.ash_image.specs.ImageObjectViews.{plain_in};
ghost use Rattle.ash_image.specs.SnapshotViews.{modules_in, objects_in};
ghost use Rattle.ash_states.specs.Indexes.{index_in, element_indexed, plain_indexed};
ghost use Rattle.ash_states.specs.Indexes.{entry_indexed, stored_modules_of};
ghost use Rattle.ash_states.specs.Indexes.{IsElementIndexed, IsPlainIndexed};
ghost use Rattle.ash_states.specs.Indexes.{HasElementKind, HasKind};
ghost use Rattle.ash_states.specs.Writing.{HavePartKinds};

use ash_host::ElementTag;
use ash_image::parts::{ArrayParts, BodyParts, HostParts, ModuleParts, ObjectParts, ScriptParts};
use ash_plain_data::object::{Elements, Object};
use ash_plain_steps::state::LoadedModule;
use ash_plain_world::objects::ObjectMap;
use std::alloc::{AllocError, Global};

/// The place of the module of a name.
fn place_of(modules: &[LoadedModule], name: &str) -> Option<usize>
    ensures value { result ≡ position (λ m. has_name name.now (loaded_seen m)) modules.now }
{
    modules.iter().position(|m| m.name.as_str() == name)
}

/// The index of the module of a name.
pub fn index_of(modules: &[LoadedModule], name: &str) -> usize
    ensures value { result ≡ index_in (modules_seen modules.now) name.now }
{
    place_of(modules, name).unwrap_or(0)
}

/// What the elements of an array are.
pub fn element_type(modules: &[LoadedModule], of: &Elements) -> ElementTag
    requires indexed { IsElementIndexed (modules_seen modules.now) (element_seen of.now) }
    ensures indexed { element_of result
        ≡ element_indexed (index_in (modules_seen modules.now)) (element_seen of.now) }
    ensures kind { HasElementKind (element_of result) }
{
    match of {
        Elements::Bools => ElementTag::Bool,
        Elements::Ints => ElementTag::Int,
        Elements::Uints => ElementTag::Uint,
        Elements::Int64s => ElementTag::Int64,
        Elements::Uint64s => ElementTag::Uint64,
        Elements::Handles { owner, place } => {
            ElementTag::Class(index_of(modules, owner.as_str()) as u8, *place as u16)
        }
        Elements::Hosts(kind) => ElementTag::Kind(*kind),
    }
}

/// What an object is, beside its number.
fn body_parts<'a>(modules: &[LoadedModule], object: &'a Object) -> BodyParts<'a>
    requires indexed { IsPlainIndexed (modules_seen modules.now) (object_seen object.now) }
    ensures indexed { plain_in result
        ≡ plain_indexed (index_in (modules_seen modules.now)) (object_seen object.now) }
    ensures kind { HasKind (plain_in result) }
{
    match object {
        Object::Script {
            owner,
            place,
            fields,
        } => BodyParts::Script(ScriptParts {
            owner: index_of(modules, owner.as_str()) as u8,
            class: *place as u16,
            fields: fields.as_slice(),
        }),
        Object::Array { of, elements } => BodyParts::Array(ArrayParts {
            element: element_type(modules, of),
            elements: elements.as_slice(),
        }),
        Object::Host { kind, state } => BodyParts::Host(HostParts {
            kind: *kind,
            state: state.as_slice(),
        }),
    }
}

/// The objects by ascending number.
pub(crate) fn object_parts<'a>(
    alloc: Global,
    modules: &[LoadedModule],
    objects: &'a ObjectMap,
) -> Result<Vec<ObjectParts<'a>>, AllocError>
    requires indexed { AllByRecursion (λ e. IsPlainIndexed (modules_seen modules.now) e.1)
        objects.now }
    ensures indexed { IfOk result (λ parts. objects_in parts.items
        ≡ map (entry_indexed (index_in (modules_seen modules.now))) objects.now) }
    ensures kinds { IfOk result (λ parts. HavePartKinds parts.items) }
{
    let mut parts = Vec::with_capacity(alloc, objects.len())?;
    for (number, object) in objects.iter() {
        let body = body_parts(modules, object);
        parts.push(ObjectParts {
            number: *number,
            body,
        })?;
    }
    Ok(parts)
}

/// The modules by ascending name.
pub fn module_parts(
    alloc: Global,
    modules: &[LoadedModule],
) -> Result<Vec<ModuleParts<'_>>, AllocError>
    ensures stored { IfOk result (λ parts. modules_in parts.items
        ≡ stored_modules_of (modules_seen modules.now)) }
{
    let mut parts = Vec::with_capacity(alloc, modules.len())?;
    for loaded in modules {
        parts.push(ModuleParts {
            name: loaded.name.as_str(),
            source: &loaded.source,
            globals: &loaded.globals,
        })?;
    }
    Ok(parts)
}
