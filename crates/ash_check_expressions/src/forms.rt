//! The form of an expression and its side: what can be assigned, and where.

ghost use Rattle.std.specs.Prelude.{◌≡◌, option_map, IfOk};
ghost use Rattle.ash_typed.specs.TypedTreeViews.{expr_of, place_of};
ghost use Rattle.ash_type_rules.specs.Terms as terms;
ghost use Rattle.ash_type_rules.specs.ExpressionRules as typing;
ghost use Rattle.ash_check_expressions.specs.TypedExprViews.{is_target};

use ash_tree::AssignOp;
use ash_type_rules::{Form, Ty};
use ash_typed::{Expr, Place, nodes};
use std::alloc::{AllocError, Global};

/// Where an expression is.
#[derive(Clone, Copy)]
pub enum AssignmentSide {
    /// Left of `=`, where the sign `@` makes a place one that takes a handle.
    Target,
    /// Anywhere else.
    Value,
}

/// The side of what an operator assigns to.
pub(crate) fn target_side(operator: AssignOp) -> AssignmentSide
    ensures value { is_target result ≡ typing.is_assign operator }
{
    match operator {
        AssignOp::Assign => AssignmentSide::Target,
        _ => AssignmentSide::Value,
    }
}

/// Whether a place takes what is assigned to it.
pub(crate) fn is_assignable_form(form: Form, of: Ty) -> bool
    ensures value { result ≡ terms.is_stored form of }
{
    match (form, of) {
        (Form::HandlePlace, Ty::Handle(_) | Ty::Unknown) => true,
        (Form::Place, Ty::Bool | Ty::Integer(_) | Ty::Unknown) => true,
        _ => false,
    }
}

/// What is written to left of `=`: a place with its sign `@`.
pub(crate) fn handle_form(form: Form) -> Form
    ensures value { result ≡ terms.handle_form form }
{
    match form {
        Form::Place => Form::HandlePlace,
        _ => Form::Value,
    }
}

/// What an expression in brackets is: a place still is one, and a number is a value.
pub(crate) fn bracketed_form(form: Form) -> Form
    ensures value { result ≡ terms.bracketed form }
{
    match form {
        Form::Place => Form::Place,
        _ => Form::Value,
    }
}

/// The place that can be assigned, where an expression of this form is one.
pub(crate) fn assignable_place(
    alloc: Global,
    form: Form,
    tree: Expr,
) -> Result<Option<Place>, AllocError>
    ensures value { IfOk result
        (λ found. option_map place_of found ≡ terms.assignable form (expr_of tree)) }
{
    match form {
        Form::Place | Form::HandlePlace => nodes::place(alloc, tree),
        Form::Number(_) | Form::Value => Ok(None),
    }
}
