//! Signatures as they are tested and registered.
ghost use Rattle.std.specs.Prelude.{◌≡◌, IfOk, Some, map};
ghost use Rattle.std.specs.List.{list_any, filter_map};
ghost use Rattle.ash_registrations.specs.Registrations.{operation_of};
ghost use Rattle.ash_registry.specs.Refusals.{is_unknown, is_unknown_element};
ghost use Rattle.ash_registry.specs.Refusals.{is_object, primitive_of};
ghost use Rattle.ash_registry.specs.Refusals.{primitive_operation, types_of, gives_handle_of};
ghost use Rattle.std.specs.Option.{option_map};
ghost use Rattle.ash_registry.specs.RegistryViews.{registered};
ghost use Rattle.ash_tree.specs.TreeViews.{element_of, type_of, signature_of};

use crate::{HostFunction, Registry};
use ash_tree::{Element, ElementKind, Primitive, Signature, Type, TypeKind};
use std::alloc::{AllocError, Global};

// The type, where it is a primitive.
fn primitive(of: &Type) -> Option<Primitive>
    ensures value { result ≡ primitive_of (type_of of.now) }
{
    match &of.kind {
        TypeKind::Primitive(primitive) => Some(*primitive),
        _ => None,
    }
}

// The primitives among types.
pub(crate) fn primitives(alloc: Global, types: &[Type]) -> Result<Vec<Primitive>, AllocError>
    ensures value { IfOk result (λ primitive_types.
        primitive_types.items ≡ filter_map (λ t. primitive_of (type_of t)) types.now) }
{
    types.iter().filter_map(|t| primitive(t)).collect(alloc)
}

/// A signature whose types are primitive.
#[tactic(auto, using(ash_registrations::proofs::Mapped::filter_mapped))]
pub(crate) fn operation(alloc: Global, signature: Signature) -> Result<HostFunction, AllocError>
    ensures value { IfOk result (λ primitive_types.
        operation_of primitive_types ≡ primitive_operation (signature_of signature)) }
{
    let Signature {
        place: _,
        result: of,
        name,
        parameters,
    } = signature;
    let parameters = primitives(alloc, &parameters)?;
    let of = match &of {
        Some(of) => primitive(of),
        None => None,
    };
    Ok(HostFunction {
        name,
        result: of,
        parameters,
    })
}

impl Registry {
    // Whether the elements of an array are handles of a type that isn't registered.
    fn is_unknown_element(&self, of: &Element) -> bool
        ensures value { result ≡ is_unknown_element (registered self.now) (element_of of.now) }
    {
        match &of.kind {
            ElementKind::Primitive(_) => false,
            ElementKind::Handle(name) => !self.table.knows(name.as_str()),
        }
    }

    // Whether a type names an object type that isn't registered.
    pub(crate) fn is_unknown(&self, of: &Type) -> bool
        ensures value { result ≡ is_unknown (registered self.now) (type_of of.now) }
    {
        match &of.kind {
            TypeKind::Primitive(_) => false,
            TypeKind::Object(name) | TypeKind::Handle(name) => !self.table.knows(name.as_str()),
            TypeKind::Array(element) | TypeKind::ArrayHandle(element) => {
                self.is_unknown_element(element)
            }
        }
    }

    // Whether one of these types names an object type that isn't registered.
    pub(crate) fn any_unknown(&self, types: &[Type]) -> bool
        ensures value { result ≡ list_any (λ t. is_unknown (registered self.now) (type_of t))
            types.now }
    {
        types.iter().any(|t| self.is_unknown(t))
    }

    // Whether a signature names an object type that isn't registered.
    #[tactic(auto, using(ash_registrations::proofs::Mapped::any_mapped))]
    pub(crate) fn names_unknown(&self, signature: &Signature) -> bool
        ensures value { result
            ≡ list_any (is_unknown (registered self.now)) (types_of (signature_of signature.now)) }
    {
        match &signature.result {
            Some(of) => self.is_unknown(of) || self.any_unknown(&signature.parameters),
            None => self.any_unknown(&signature.parameters),
        }
    }
}

// Whether a type is no primitive.
fn is_no_primitive(of: &Type) -> bool
    ensures value { result ≡ is_object (type_of of.now) }
{
    primitive(of).is_none()
}

/// Whether a signature names a type that is no primitive.
#[tactic(auto, using(ash_registrations::proofs::Mapped::any_mapped))]
pub(crate) fn names_object(signature: &Signature) -> bool
    ensures value { result ≡ list_any is_object (types_of (signature_of signature.now)) }
{
    match &signature.result {
        Some(of) => is_no_primitive(of) || has_object(&signature.parameters),
        None => has_object(&signature.parameters),
    }
}

// Whether one of these types is no primitive.
pub(crate) fn has_object(types: &[Type]) -> bool
    ensures value { result ≡ list_any (λ t. is_object (type_of t)) types.now }
{
    types.iter().any(|t| is_no_primitive(t))
}

/// Whether a result is a handle of a type.
pub(crate) fn gives_handle(result_type: &Option<Type>, of: &str) -> bool
    ensures value { result ≡ gives_handle_of of.now (option_map type_of result_type.now) }
{
    match result_type {
        Some(result_type) => is_handle(result_type, of),
        None => false,
    }
}

// Whether a type is a handle of a type of this name.
fn is_handle(result_type: &Type, of: &str) -> bool
    ensures value { result ≡ gives_handle_of of.now (Some (type_of result_type.now)) }
{
    match &result_type.kind {
        TypeKind::Handle(name) => of == name.as_str(),
        _ => false,
    }
}
