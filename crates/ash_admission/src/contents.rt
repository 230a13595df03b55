//! Whether an object is well-formed among the living ones.

ghost use Rattle.std.specs.Prelude.{◌≡◌, map, option_map};
ghost use Rattle.ash_host.specs.Objects.{IsInOrder};
ghost use Rattle.ash_host.specs.Reach.{is_among};
ghost use Rattle.ash_plain_data.specs.ObjectViews.{element_seen, object_seen};
ghost use Rattle.ash_admission.specs.Contents.{program_of_name, is_script, are_elements};
ghost use Rattle.ash_admission.specs.Contents.{is_object, are_objects};
ghost use Rattle.ash_admission.specs.Admission.{program_of};

use crate::elements::{are_handles, are_integers, are_of_kind, are_truths};
use crate::places::class_at;
use crate::values::are_values;
use ash_host::{MAX_ELEMENTS, MAX_STATE_BYTES, Word};
use ash_plain_data::object::{Elements, Object};
use ash_plain_steps::state::LoadedModule;
use ash_plain_world::objects::ObjectMap;
use ash_typed::IntType;

/// The module of a name.
fn module_of_name<'a>(modules: &'a [LoadedModule], name: &str) -> Option<&'a LoadedModule>
    ensures value { option_map (λ m. program_of m.now) result
        ≡ program_of_name name.now (map program_of modules.now) }
{
    for loaded in modules {
        if loaded.name.as_str() == name {
            return Some(loaded);
        }
    }
    None
}

/// Whether words are the fields of an object of the class at a place of the module's source.
fn is_script(loaded: &LoadedModule, objects: &ObjectMap, place: usize, fields: &[Word]) -> bool
    ensures value { result ≡ is_script objects.now place fields.now (program_of loaded.now) }
{
    match class_at(&loaded.tree, place) {
        Some(class) => are_values(loaded, objects, &class.fields, fields),
        None => false,
    }
}

/// Whether words are of what an array says of its elements.
fn are_elements(
    modules: &[LoadedModule],
    objects: &ObjectMap,
    of: &Elements,
    words: &[Word],
) -> bool
    ensures value { result
        ≡ are_elements (map program_of modules.now) objects.now (element_seen of.now) words.now }
{
    match of {
        Elements::Bools => are_truths(words),
        Elements::Ints => are_integers(IntType::Int, words),
        Elements::Uints => are_integers(IntType::Uint, words),
        Elements::Int64s => are_integers(IntType::Int64, words),
        Elements::Uint64s => are_integers(IntType::Uint64, words),
        Elements::Handles { owner, place } => match module_of_name(modules, owner.as_str()) {
            Some(loaded) => are_handles(loaded, objects, *place, words),
            None => false,
        },
        Elements::Hosts(kind) => are_of_kind(objects, *kind, words),
    }
}

/// Whether a kind is one of these.
fn is_of_kinds(kinds: &[u16], kind: u16) -> bool
    ensures value { result ≡ is_among kinds.now kind }
{
    for other in kinds {
        if kind == *other {
            return true;
        }
    }
    false
}

/// Whether an object is well-formed among the living ones, where the host constructs objects of these kinds.
fn is_object(kinds: &[u16], modules: &[LoadedModule], objects: &ObjectMap, object: &Object) -> bool
    ensures value { result
        ≡ is_object kinds.now (map program_of modules.now) objects.now (object_seen object.now) }
{
    match object {
        Object::Script {
            owner,
            place,
            fields,
        } => match module_of_name(modules, owner.as_str()) {
            Some(loaded) => is_script(loaded, objects, *place, fields),
            None => false,
        },
        Object::Array { of, elements } => {
            elements.len() <= MAX_ELEMENTS && are_elements(modules, objects, of, elements)
        }
        Object::Host { kind, state } => {
            state.len() <= MAX_STATE_BYTES && is_of_kinds(kinds, *kind)
        }
    }
}

/// Whether each object is well-formed among the living ones.
pub(crate) fn are_objects(kinds: &[u16], modules: &[LoadedModule], objects: &ObjectMap) -> bool
    ensures each { result ≡ are_objects kinds.now (map program_of modules.now) objects.now }
    ensures in_order { IsInOrder objects.now }
{
    for (_, object) in objects.iter() {
        if !is_object(kinds, modules, objects, object) {
            return false;
        }
    }
    true
}
