//! Assignments, once both sides are typed.

ghost use Rattle.std.specs.Prelude.{None};
ghost use Rattle.ash_typed.specs.TypedTreeViews.{place_of};
ghost use Rattle.ash_type_rules.specs.ExpressionRules as typing;
ghost use Rattle.ash_check_names.specs.Agreement.{Agrees};
ghost use Rattle.ash_check_names.specs.EnvironmentViews.{classes_of};
ghost use Rattle.ash_check_expressions.specs.TypedExprViews.{typed_of};

use crate::forms::{assignable_place, is_assignable_form};
use crate::operator_types::{assign_calculator, calculator_operator, operand_integer_type};
use crate::operators::unify_operands;
use crate::typed_expr::{TypedExpr, coerce_for_assignment, integer_type};
use ash_check_names::{CheckResult, Environment, fault_at};
use ash_tree::AssignOp;
use ash_type_rules::{Rule, Ty};
use ash_typed::{Calculation, Calculator, ExprKind, Place, nodes};
use std::alloc::Global;

/// What is assigned to: a place of a type, at the offset of its first token.
#[derive(Drop)]
struct Destination {
    at: usize,
    of: Ty,
    place: Place,
}

/// `place operator= value`
fn build_update(
    alloc: Global,
    target: Destination,
    operator: Calculator,
    value: TypedExpr,
) -> CheckResult<TypedExpr>
    ensures agrees { Agrees typed_of result
        (typing.updated target.at target.of (place_of target.place) operator (typed_of value)) }
{
    let left = TypedExpr::of_kind(alloc, target.at, target.of, ExprKind::Null)?;
    let unified = unify_operands(alloc, calculator_operator(operator), left, value)?;
    let int_type = integer_type(target.at, target.of)?;
    let calculation = Calculation {
        operator,
        of: operand_integer_type(unified.operands),
    };
    let tree = nodes::update(alloc, target.place, int_type, calculation, unified.right)?;
    Ok(TypedExpr::value(target.at, Ty::Integer(int_type), tree))
}

/// `place = value`
#[tactic(auto, unfolding(ash_type_rules::specs::ExpressionRules::stored))]
fn build_store(env: &Environment, target: Destination, value: TypedExpr) -> CheckResult<TypedExpr>
    ensures agrees { Agrees typed_of result
        (typing.stored (classes_of env.now) target.at target.of (place_of target.place) None
        (typed_of value)) }
{
    let value = coerce_for_assignment(env, target.of, value)?;
    let tree = nodes::assign(env.alloc, target.place, value)?;
    Ok(TypedExpr::value(target.at, target.of, tree))
}

/// An assignment, once both sides are typed.
#[tactic(auto, unfolding(ash_type_rules::specs::ExpressionRules::assigned, ash_type_rules::specs::ExpressionRules::stored))]
pub(crate) fn build_assignment(
    env: &Environment,
    target: TypedExpr,
    operator: AssignOp,
    value: TypedExpr,
) -> CheckResult<TypedExpr>
    ensures agrees { Agrees typed_of result
        (typing.assigned (classes_of env.now) (typed_of target) operator (typed_of value)) }
{
    let (at, of, form) = (target.at, target.ty, target.form);
    let Some(place) = assignable_place(env.alloc, form, target.tree)? else {
        return Err(fault_at(Rule::NotAssignable, at));
    };
    if !is_assignable_form(form, of) {
        return Err(fault_at(Rule::NotAssignable, at));
    }
    let target = Destination { at, of, place };
    match assign_calculator(operator) {
        None => build_store(env, target, value),
        Some(operator) => build_update(env.alloc, target, operator, value),
    }
}
