//! The methods of arrays, by their names.

ghost use Rattle.std.specs.Prelude.{◌≡◌, [], ◌∷◌, find, option_map};
ghost use Rattle.ash_typed.specs.declared.tree.operations.ArrayMethod.TheVariants as arrays;
ghost use Rattle.ash_type_rules.specs.Environment as environment;
ghost use Rattle.ash_check_names.specs.EnvironmentViews.{method_callee_of};

use crate::callees::MethodCallee;
use crate::parameters::Parameters;
use crate::types::ty_of_element;
use ash_type_rules::Ty;
use ash_typed::{ArrayMethod, Element, IntType, Method};

/// The method of arrays that has this name.
fn array_method(name: &str) -> Option<ArrayMethod>
    ensures value { result
        ≡ find (environment.is_array_method name.now)
        (arrays.Length ∷ arrays.Resize ∷ arrays.InsertLast ∷ arrays.RemoveLast ∷ arrays.IsEmpty
        ∷ []) }
{
    if name == "length" {
        Some(ArrayMethod::Length)
    } else if name == "resize" {
        Some(ArrayMethod::Resize)
    } else if name == "insertLast" {
        Some(ArrayMethod::InsertLast)
    } else if name == "removeLast" {
        Some(ArrayMethod::RemoveLast)
    } else if name == "isEmpty" {
        Some(ArrayMethod::IsEmpty)
    } else {
        None
    }
}

/// A method of arrays whose elements are of a type, as it is called.
fn array_method_callee<'a>(of: Element, method: ArrayMethod) -> MethodCallee<'a>
    ensures value { method_callee_of result ≡ environment.array_method_of of method }
{
    let (result, parameters) = match method {
        ArrayMethod::Length => (Ty::Integer(IntType::Uint), Parameters::Nothing),
        ArrayMethod::Resize => (Ty::Void, Parameters::One(Ty::Integer(IntType::Uint))),
        ArrayMethod::InsertLast => (Ty::Void, Parameters::One(ty_of_element(of))),
        ArrayMethod::RemoveLast => (Ty::Void, Parameters::Nothing),
        ArrayMethod::IsEmpty => (Ty::Bool, Parameters::Nothing),
    };
    MethodCallee {
        method: Method::Array(method),
        result,
        parameters,
    }
}

/// A method of an array, as it is called.
#[tactic(auto, unfolding(ash_type_rules::specs::Environment::method_of_array))]
pub(crate) fn array_method_named<'a>(of: Element, name: &str) -> Option<MethodCallee<'a>>
    ensures value { option_map method_callee_of result ≡ environment.method_of_array of name.now }
{
    Some(array_method_callee(of, array_method(name)?))
}
