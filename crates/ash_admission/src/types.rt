//! Whether an object is of a type of a module.

ghost use Rattle.std.specs.Prelude.{◌≡◌};
ghost use Rattle.ash_plain_data.specs.ObjectViews.{element_seen, object_seen};
ghost use Rattle.ash_soundness.specs.WellFormed.{shape_of};
ghost use Rattle.ash_admission.specs.Places.{is_of_place, is_of_kind, is_element, is_of};
ghost use Rattle.ash_admission.specs.Admission.{program_of};

use crate::places::{implements, is_class_at, is_interface_at};
use ash_plain_data::object::{Elements, Object};
use ash_plain_steps::state::LoadedModule;
use ash_typed::{Element as TypedElement, IntType, ObjectType};

/// Whether an object is of the class at a place of the source of a module of this name.
pub(crate) fn is_of_place(name: &str, place: usize, object: &Object) -> bool
    ensures value { result ≡ is_of_place name.now place (shape_of (object_seen object.now)) }
{
    match object {
        Object::Script {
            owner,
            place: other,
            ..
        } => owner.as_str() == name && *other == place,
        Object::Array { .. } | Object::Host { .. } => false,
    }
}

/// Whether an object is a host object of a kind.
pub(crate) fn is_of_kind(kind: u16, object: &Object) -> bool
    ensures value { result ≡ is_of_kind kind (shape_of (object_seen object.now)) }
{
    match object {
        Object::Host { kind: other, .. } => *other == kind,
        Object::Script { .. } | Object::Array { .. } => false,
    }
}

/// Whether what an array says of its elements is a type of elements of a module.
fn is_element(loaded: &LoadedModule, of: TypedElement, element: &Elements) -> bool
    ensures value { result ≡ is_element (program_of loaded.now) of (element_seen element.now) }
{
    match (of, element) {
        (TypedElement::Bool, Elements::Bools) => true,
        (TypedElement::Integer(IntType::Int), Elements::Ints) => true,
        (TypedElement::Integer(IntType::Uint), Elements::Uints) => true,
        (TypedElement::Integer(IntType::Int64), Elements::Int64s) => true,
        (TypedElement::Integer(IntType::Uint64), Elements::Uint64s) => true,
        (TypedElement::Class(class), Elements::Handles { owner, place }) => {
            owner.as_str() == loaded.name.as_str() && is_class_at(&loaded.tree, class, *place)
        }
        (TypedElement::Interface(interface), Elements::Handles { owner, place }) => {
            owner.as_str() == loaded.name.as_str()
                && is_interface_at(&loaded.tree, interface, *place)
        }
        (TypedElement::Host(kind), Elements::Hosts(other)) => *other == kind,
        _ => false,
    }
}

/// Whether an object is of a type of a module.
pub(crate) fn is_of(loaded: &LoadedModule, of: ObjectType, object: &Object) -> bool
    ensures value { result ≡ is_of (program_of loaded.now) of (shape_of (object_seen object.now)) }
{
    match (of, object) {
        (ObjectType::Class(class), Object::Script { owner, place, .. }) => {
            owner.as_str() == loaded.name.as_str() && is_class_at(&loaded.tree, class, *place)
        }
        (ObjectType::Interface(interface), Object::Script { owner, place, .. }) => {
            owner.as_str() == loaded.name.as_str() && implements(&loaded.tree, interface, *place)
        }
        (ObjectType::Host(kind), Object::Host { kind: other, .. }) => *other == kind,
        (ObjectType::Array(of), Object::Array { of: element, .. }) => {
            is_element(loaded, of, element)
        }
        _ => false,
    }
}
