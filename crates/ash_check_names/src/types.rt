//! Types, and what operators take.

ghost use Rattle.std.specs.Prelude.{◌≡◌};
ghost use Rattle.ash_type_rules.specs.TypeRules as types;
ghost use Rattle.ash_type_rules.specs.Terms as terms;
ghost use Rattle.ash_type_rules.specs.ExpressionRules as typing;

use ash_tree::Primitive;
use ash_type_rules::Ty;
use ash_typed::{Conversion, Element, IntType, ObjectType, VarType};

pub(crate) fn is_signed(int_type: IntType) -> bool
    ensures value { result ≡ types.is_signed int_type }
{
    matches!(int_type, IntType::Int | IntType::Int64)
}

pub(crate) fn is_wide(int_type: IntType) -> bool
    ensures value { result ≡ types.is_wide int_type }
{
    matches!(int_type, IntType::Int64 | IntType::Uint64)
}

/// The sign and the width of an integer type.
#[derive(Clone, Copy)]
struct Shape {
    is_signed: bool,
    is_wide: bool,
}

fn integer_type_of(shape: Shape) -> IntType
    ensures value { result ≡ types.integer_type_of shape.is_signed shape.is_wide }
{
    match (shape.is_signed, shape.is_wide) {
        (true, false) => IntType::Int,
        (false, false) => IntType::Uint,
        (true, true) => IntType::Int64,
        (false, true) => IntType::Uint64,
    }
}

/// The integer type that operands of two integer types are converted to.
pub fn common_integer_type(one: IntType, other: IntType) -> IntType
    ensures signed_and_wide_if_either_is { result ≡ types.common_integer_type one other }
{
    integer_type_of(Shape {
        is_signed: is_signed(one) || is_signed(other),
        is_wide: is_wide(one) || is_wide(other),
    })
}

/// The signed type of the same width.
pub fn signed_type(int_type: IntType) -> IntType
    ensures signed_of_same_width { result ≡ types.signed int_type }
{
    integer_type_of(Shape {
        is_signed: true,
        is_wide: is_wide(int_type),
    })
}

pub(crate) fn is_same_integer_type(one: IntType, other: IntType) -> bool
    ensures value { result ≡ types.is_same_integer_type one other }
{
    match one {
        IntType::Int => matches!(other, IntType::Int),
        IntType::Uint => matches!(other, IntType::Uint),
        IntType::Int64 => matches!(other, IntType::Int64),
        IntType::Uint64 => matches!(other, IntType::Uint64),
    }
}

/// Whether a type holds a number.
pub fn holds(int_type: IntType, number: u64) -> bool
    ensures in_range { result ≡ types.holds int_type number }
{
    match int_type {
        IntType::Int => number < 1 << 31,
        IntType::Uint => number < 1 << 32,
        IntType::Int64 => number < 1 << 63,
        IntType::Uint64 => true,
    }
}

/// The first type that holds a number.
pub fn number_type(number: u64) -> IntType
    ensures first_that_holds { result ≡ types.number_type number }
{
    if holds(IntType::Int, number) {
        IntType::Int
    } else if holds(IntType::Uint, number) {
        IntType::Uint
    } else if holds(IntType::Int64, number) {
        IntType::Int64
    } else {
        IntType::Uint64
    }
}

fn is_same_element(one: Element, other: Element) -> bool
    ensures value { result ≡ types.is_same_element one other }
{
    match (one, other) {
        (Element::Bool, Element::Bool) => true,
        (Element::Integer(j), Element::Integer(k)) => is_same_integer_type(j, k),
        (Element::Class(a), Element::Class(b)) => a == b,
        (Element::Interface(a), Element::Interface(b)) => a == b,
        (Element::Host(a), Element::Host(b)) => a == b,
        _ => false,
    }
}

/// Whether two types of objects are the same.
pub fn is_same_object(one: ObjectType, other: ObjectType) -> bool
    ensures same_objects { result ≡ types.is_same_object one other }
{
    match (one, other) {
        (ObjectType::Class(a), ObjectType::Class(b)) => a == b,
        (ObjectType::Interface(a), ObjectType::Interface(b)) => a == b,
        (ObjectType::Host(a), ObjectType::Host(b)) => a == b,
        (ObjectType::Array(e), ObjectType::Array(f)) => is_same_element(e, f),
        _ => false,
    }
}

/// Whether a type is the same as another, as far as both are known.
pub fn is_same(one: Ty, other: Ty) -> bool
    ensures same_as_far_as_known { result ≡ types.is_same one other }
{
    match (one, other) {
        (Ty::Unknown, _) | (_, Ty::Unknown) => true,
        (Ty::Bool, Ty::Bool) | (Ty::Null, Ty::Null) | (Ty::Void, Ty::Void) => true,
        (Ty::Integer(j), Ty::Integer(k)) => is_same_integer_type(j, k),
        (Ty::Object(a), Ty::Object(b)) | (Ty::Handle(a), Ty::Handle(b)) => is_same_object(a, b),
        _ => false,
    }
}

/// The type of an array's elements. Of objects an array holds handles.
pub fn ty_of_element(of: Element) -> Ty
    ensures element_type { result ≡ types.ty_of_element of }
{
    match of {
        Element::Bool => Ty::Bool,
        Element::Integer(int_type) => Ty::Integer(int_type),
        Element::Class(class) => Ty::Handle(ObjectType::Class(class)),
        Element::Interface(interface) => Ty::Handle(ObjectType::Interface(interface)),
        Element::Host(kind) => Ty::Handle(ObjectType::Host(kind)),
    }
}

/// The type of values of a primitive type.
pub fn ty_of(primitive: Primitive) -> Ty
    ensures primitive_type { result ≡ types.ty_of primitive }
{
    match primitive {
        Primitive::Bool => Ty::Bool,
        Primitive::Int => Ty::Integer(IntType::Int),
        Primitive::Int64 => Ty::Integer(IntType::Int64),
        Primitive::Uint => Ty::Integer(IntType::Uint),
        Primitive::Uint64 => Ty::Integer(IntType::Uint64),
    }
}

/// The type of a variable, as a typed tree has it. `Null`, `Void` and `Unknown` become `Bool`.
pub fn var_type(of: Ty) -> VarType
    ensures variable_type { result ≡ types.var_type of }
{
    match of {
        Ty::Bool | Ty::Null | Ty::Void | Ty::Unknown => VarType::Bool,
        Ty::Integer(int_type) => VarType::Integer(int_type),
        Ty::Object(object) => VarType::Object(object),
        Ty::Handle(object) => VarType::Handle(object),
    }
}

/// The type of a function's result, as a typed tree has it: `void` is no type of a value.
pub fn result_type(of: Ty) -> Option<VarType>
    ensures none_for_void { result ≡ types.result_type of }
{
    match of {
        Ty::Void => None,
        _ => Some(var_type(of)),
    }
}

/// Whether the value of an expression of a type is an object of this one, or null.
fn can_be_object(object: ObjectType, of: Ty) -> bool
    ensures value { result ≡ types.gives_object object of }
{
    match of {
        Ty::Object(other) | Ty::Handle(other) => is_same_object(object, other),
        Ty::Null | Ty::Unknown => true,
        _ => false,
    }
}

fn common_object_type(object: ObjectType, of: Ty) -> Option<Ty>
    ensures value { result ≡ types.common_object object of }
{
    if can_be_object(object, of) {
        Some(Ty::Handle(object))
    } else {
        None
    }
}

/// The type of `c ? a : b`, from those of its branches.
pub fn common_type(one: Ty, other: Ty) -> Option<Ty>
    ensures common_if_any { result ≡ types.common one other }
{
    match (one, other) {
        (Ty::Bool, Ty::Bool | Ty::Unknown) => Some(Ty::Bool),
        (Ty::Integer(j), Ty::Integer(k)) => Some(Ty::Integer(common_integer_type(j, k))),
        (Ty::Integer(j), Ty::Unknown) => Some(Ty::Integer(j)),
        (Ty::Object(object) | Ty::Handle(object), _) => common_object_type(object, other),
        (Ty::Null, Ty::Object(object) | Ty::Handle(object)) => Some(Ty::Handle(object)),
        (Ty::Null, Ty::Unknown) => Some(Ty::Unknown),
        (Ty::Unknown, Ty::Void) => None,
        (Ty::Unknown, _) => Some(other),
        _ => None,
    }
}

/// What a value of the second type becomes in the place of one of the first.
pub fn conversion(to: Ty, of: Ty) -> Option<Conversion>
    ensures between_integer_types { result ≡ terms.conversion to of }
{
    match (to, of) {
        (Ty::Integer(to), Ty::Integer(from)) => {
            if is_same_integer_type(from, to) {
                None
            } else {
                Some(Conversion { from, to })
            }
        }
        _ => None,
    }
}

/// Whether a type is `void`.
pub fn is_void(of: Ty) -> bool
    ensures void_alone { result ≡ typing.is_void of }
{
    matches!(of, Ty::Void)
}
