//! Types by their names in a script.

ghost use Rattle.std.specs.Prelude.{◌≡◌, option_map};
ghost use Rattle.ash_registrations.specs.Registered.{registered};
ghost use Rattle.ash_registrations.specs.Registrations.{registration_of};
ghost use Rattle.ash_tree.specs.TreeViews.{element_of, type_of};
ghost use Rattle.ash_type_rules.specs.ModuleDeclarations as definition;
ghost use Rattle.ash_check_names.specs.EnvironmentViews.{signatures_of};

use crate::signatures::Signatures;
use crate::types::ty_of;
use ash_registrations::{Registration, Registrations};
use ash_tree::{ElementKind, Primitive, Type, TypeKind};
use ash_type_rules::Ty;
use ash_typed::{Element, IntType, ObjectType};

/// The type of a registered type's objects.
fn host_object_type(registration: &Registration) -> Option<ObjectType>
    ensures value { result ≡ definition.host_object (registration_of registration.now) }
{
    match registration {
        Registration::Type { kind, .. } => Some(ObjectType::Host(*kind)),
        _ => None,
    }
}

/// A type of objects, by its name: a class of the module, else an interface, else a registered
/// type.
#[tactic(auto, unfolding(ash_type_rules::specs::ModuleDeclarations::object_named))]
pub fn object_named(
    registry: &Registrations,
    signatures: &Signatures,
    name: &str,
) -> Option<ObjectType>
    ensures object_found { result
        ≡ definition.object_named (registered registry.now) (signatures_of signatures.now)
        name.now }
{
    if let Some((place, _)) = signatures.class(name) {
        return Some(ObjectType::Class(place));
    }
    if let Some((place, _)) = signatures.interface(name) {
        return Some(ObjectType::Interface(place));
    }
    host_object_type(registry.named(name)?)
}

/// The element type of a primitive type.
fn element_of_primitive(primitive: Primitive) -> Element
    ensures value { result ≡ definition.element_of primitive }
{
    match primitive {
        Primitive::Bool => Element::Bool,
        Primitive::Int => Element::Integer(IntType::Int),
        Primitive::Int64 => Element::Integer(IntType::Int64),
        Primitive::Uint => Element::Integer(IntType::Uint),
        Primitive::Uint64 => Element::Integer(IntType::Uint64),
    }
}

/// The element type of handles of these objects.
fn element_of_object(object: ObjectType) -> Option<Element>
    ensures value { result ≡ definition.element_by object }
{
    match object {
        ObjectType::Class(class) => Some(Element::Class(class)),
        ObjectType::Interface(interface) => Some(Element::Interface(interface)),
        ObjectType::Host(kind) => Some(Element::Host(kind)),
        ObjectType::Array(_) => None,
    }
}

/// The element type of an array, as it is written: a primitive type, or a handle of objects whose type has this name.
/// `None` is that no type of objects has it.
#[tactic(auto, unfolding(ash_type_rules::specs::ModuleDeclarations::element_named))]
pub fn element_named(
    registry: &Registrations,
    signatures: &Signatures,
    of: &ash_tree::Element,
) -> Option<Element>
    ensures element_found { result
        ≡ definition.element_named (registered registry.now) (signatures_of signatures.now)
        (element_of of.now) }
{
    match &of.kind {
        ElementKind::Primitive(primitive) => Some(element_of_primitive(*primitive)),
        ElementKind::Handle(name) => element_of_object(object_named(
            registry,
            signatures,
            name.as_str(),
        )?),
    }
}

fn array_type_named(
    registry: &Registrations,
    signatures: &Signatures,
    of: &ash_tree::Element,
) -> Option<ObjectType>
    ensures value { result
        ≡ definition.array_named (registered registry.now) (signatures_of signatures.now)
        (element_of of.now) }
{
    Some(ObjectType::Array(element_named(registry, signatures, of)?))
}

fn object_type(object: Option<ObjectType>) -> Ty
    ensures value { result ≡ definition.object_ty object }
{
    match object {
        None => Ty::Unknown,
        Some(object) => Ty::Object(object),
    }
}

fn handle_type_of(object: Option<ObjectType>) -> Ty
    ensures value { result ≡ definition.handle_ty object }
{
    match object {
        None => Ty::Unknown,
        Some(object) => Ty::Handle(object),
    }
}

/// The type that is written.
#[tactic(auto, unfolding(ash_type_rules::specs::ModuleDeclarations::ty_named))]
pub fn ty_named(registry: &Registrations, signatures: &Signatures, of: &Type) -> Ty
    ensures type_found { result
        ≡ definition.ty_named (registered registry.now) (signatures_of signatures.now)
        (type_of of.now) }
{
    match &of.kind {
        TypeKind::Primitive(primitive) => ty_of(*primitive),
        TypeKind::Object(name) => object_type(object_named(registry, signatures, name.as_str())),
        TypeKind::Handle(name) => handle_type_of(object_named(registry, signatures, name.as_str())),
        TypeKind::Array(of) => object_type(array_type_named(registry, signatures, of)),
        TypeKind::ArrayHandle(of) => handle_type_of(array_type_named(registry, signatures, of)),
    }
}

/// The type of a function's result: `void` where none is written.
pub fn result_named(registry: &Registrations, signatures: &Signatures, of: &Option<Type>) -> Ty
    ensures void_if_none { result
        ≡ definition.result_named (registered registry.now) (signatures_of signatures.now)
        (option_map type_of of.now) }
{
    match of {
        None => Ty::Void,
        Some(of) => ty_named(registry, signatures, of),
    }
}
