//! Arrays: their construction, and what is at an index.

ghost use Rattle.std.specs.Prelude.{◌≡◌};
ghost use Rattle.ash_typed.specs.TypedTreeViews.{expr_of};
ghost use Rattle.ash_type_rules.specs.Environment as environment;
ghost use Rattle.ash_type_rules.specs.Terms as terms;
ghost use Rattle.ash_type_rules.specs.ExpressionRules as typing;
ghost use Rattle.ash_check_names.specs.Agreement.{Agrees};
ghost use Rattle.ash_check_names.specs.EnvironmentViews.{callee_of, parameters_of};
ghost use Rattle.ash_check_expressions.specs.TypedExprViews.{typed_of};

use crate::typed_expr::{TypedExpr, coerce, integer_type};
use ash_check_names::{Callee, CheckResult, Parameters, fault_at, ty_of_element};
use ash_type_rules::{Callable, Rule, Ty};
use ash_typed::{CallTarget, Element, Expr, IntType, ObjectType, nodes};
use std::alloc::Global;

/// What the construction of an array by so many arguments takes: at most one, how many elements it
/// has.
fn array_parameters<'a>(count: usize) -> Parameters<'a>
    ensures value { parameters_of result ≡ terms.array_parameters count }
{
    if count == 0 {
        Parameters::Nothing
    } else {
        Parameters::One(Ty::Integer(IntType::Uint))
    }
}

/// The construction of an array by so many arguments.
pub fn array_callee<'a>(of: Element, count: usize) -> Callee<'a>
    ensures constructs_array { callee_of result ≡ environment.array_built of count }
{
    Callee {
        target: Callable::Target(CallTarget::Array(of)),
        result: Ty::Handle(ObjectType::Array(of)),
        parameters: Some(array_parameters(count)),
    }
}

/// The type of the elements, whose name is at this offset.
pub(crate) fn check_element_type(at: usize, of: Option<Element>) -> CheckResult<Element>
    ensures agrees { Agrees (λ e. e) result (typing.known_element at of) }
{
    match of {
        None => Err(fault_at(Rule::UnknownType, at)),
        Some(of) => Ok(of),
    }
}

/// An index, which is converted to `uint`.
fn coerce_index(alloc: Global, index: TypedExpr) -> CheckResult<Expr>
    ensures agrees { Agrees expr_of result (typing.index_in (typed_of index)) }
{
    integer_type(index.at, index.ty)?;
    Ok(coerce(alloc, Ty::Integer(IntType::Uint), index)?)
}

fn build_element(
    alloc: Global,
    array: TypedExpr,
    index: TypedExpr,
    ty: Ty,
    of: Element,
) -> CheckResult<TypedExpr>
    ensures agrees { Agrees typed_of result (typing.indexed_at (typed_of array) (typed_of index) ty
        of) }
{
    let index = coerce_index(alloc, index)?;
    let tree = nodes::element(alloc, array.tree, index, of)?;
    Ok(TypedExpr::place(array.at, ty, tree))
}

fn build_object_index(
    alloc: Global,
    array: TypedExpr,
    index: TypedExpr,
    object: ObjectType,
) -> CheckResult<TypedExpr>
    ensures agrees { Agrees typed_of result
        (typing.indexed_object (typed_of array) (typed_of index) object) }
{
    match object {
        ObjectType::Array(of) => build_element(alloc, array, index, ty_of_element(of), of),
        _ => Err(fault_at(Rule::TypeMismatch, array.at)),
    }
}

/// `array[index]`
#[tactic(auto, unfolding(ash_type_rules::specs::ExpressionRules::indexed))]
pub(crate) fn build_index(
    alloc: Global,
    array: TypedExpr,
    index: TypedExpr,
) -> CheckResult<TypedExpr>
    ensures agrees { Agrees typed_of result (typing.indexed (typed_of array) array.ty
        (typed_of index)) }
{
    match array.ty {
        Ty::Object(object) | Ty::Handle(object) => build_object_index(alloc, array, index, object),
        Ty::Unknown => build_element(alloc, array, index, Ty::Unknown, Element::Bool),
        _ => Err(fault_at(Rule::TypeMismatch, array.at)),
    }
}
