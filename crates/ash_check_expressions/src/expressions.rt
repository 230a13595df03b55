//! The walk over an expression: its parts in the order of the text, then the expression.

ghost use Rattle.std.specs.Prelude.{false, Ok, map};
ghost use Rattle.ash_tree.specs.Tree.{exprs, links, suffixes};
ghost use Rattle.ash_tree.specs.TreeViews as written;
ghost use Rattle.ash_type_rules.specs.TypingResult.{◌>>=◌ as ◌and_then◌};
ghost use Rattle.ash_type_rules.specs.ModuleDeclarations.{object_named};
ghost use Rattle.ash_type_rules.specs.ExpressionRules as typing;
ghost use Rattle.ash_check_names.specs.Agreement.{Agrees};
ghost use Rattle.ash_check_names.specs.EnvironmentViews.{environment_of, classes_of};
ghost use Rattle.ash_check_expressions.specs.TypedExprViews.{typed_of, all_typed_of, is_target};

use crate::arrays::{array_callee, build_index, check_element_type};
use crate::assignments::build_assignment;
use crate::calls::{
    Arguments, Name, build_brackets, build_call, build_field, build_method_call, callee_named,
    check_name, check_this, find_method,
};
use crate::forms::{AssignmentSide, target_side};
use crate::operators::{
    Prefix, build_binary, build_cast, build_conditional, build_conversion, build_step, build_unary,
    cast_target,
};
use crate::typed_expr::TypedExpr;
use ash_check_names::{CheckResult, Environment, element_named, object_named};
use ash_tree::{AssignOp, Element, Expr, ExprKind, Link, Primitive, Suffix, TypeName};
use ash_type_rules::Ty;
use ash_typed::{ExprKind as Tree, IncrementOp};

/// Checks an expression. One with parts is checked by a function of its own, so that the frame of this one, which each
/// level pays for, stays small.
#[cycle(expressions)]
pub fn check_expr(env: &Environment, side: AssignmentSide, source: &Expr) -> CheckResult<TypedExpr>
    ensures typed_as_defined { Agrees typed_of result
        (typing.check_expr (environment_of env.now) (is_target side) (written.expr_of source.now)) }
{
    let at = source.place.at;
    match &*source.kind {
        ExprKind::Number(number) => TypedExpr::number(env.alloc, at, *number),
        ExprKind::Bool(value) => TypedExpr::of_kind(env.alloc, at, Ty::Bool, Tree::Bool(*value)),
        ExprKind::Null => TypedExpr::of_kind(env.alloc, at, Ty::Null, Tree::Null),
        ExprKind::This => check_this(env.alloc, at, env.this),
        ExprKind::Name(name) => check_name(
            env,
            Name {
                at,
                text: name.as_str(),
            },
        ),
        ExprKind::Call { name, arguments } => {
            check_call(
                env,
                Name {
                    at,
                    text: name.as_str(),
                },
                arguments,
            )
        }
        ExprKind::Brackets(inner) => check_brackets(env, at, inner),
        ExprKind::Convert { to, value } => check_conversion(env, at, *to, value),
        ExprKind::NewArray { of, arguments } => check_new_array(env, at, of, arguments),
        ExprKind::Cast { to, value } => check_cast(env, at, to, value),
        ExprKind::Postfix { operand, suffixes } => check_postfix(env, operand, suffixes),
        ExprKind::Unary { operator, operand } => {
            let prefix = Prefix {
                at,
                operator: *operator,
                side,
            };
            check_unary(env, prefix, operand)
        }
        ExprKind::Binary { first, links } => check_binary(env, first, links),
        ExprKind::Conditional {
            condition,
            then,
            otherwise,
        } => check_conditional(env, condition, then, otherwise),
        ExprKind::Assign {
            target,
            operator,
            value,
        } => check_assignment(env, target, *operator, value),
    }
}

/// `(inner)`
#[cycle(expressions)]
#[inline(never)]
fn check_brackets(env: &Environment, at: usize, inner: &Expr) -> CheckResult<TypedExpr>
    ensures agrees { Agrees typed_of result
        (typing.check_expr (environment_of env.now) false (written.expr_of inner.now)
        and_then λ t. Ok (typing.in_brackets at t)) }
{
    let inner = check_expr(env, AssignmentSide::Value, inner)?;
    Ok(build_brackets(at, inner))
}

/// `to(value)`
#[cycle(expressions)]
#[inline(never)]
fn check_conversion(
    env: &Environment,
    at: usize,
    to: Primitive,
    value: &Expr,
) -> CheckResult<TypedExpr>
    ensures agrees { Agrees typed_of result
        (typing.check_expr (environment_of env.now) false (written.expr_of value.now)
        and_then λ t. typing.convert_at at to t) }
{
    let value = check_expr(env, AssignmentSide::Value, value)?;
    build_conversion(env.alloc, at, to, value)
}

/// `cast<to>(value)`
#[cycle(expressions)]
#[inline(never)]
fn check_cast(env: &Environment, at: usize, to: &TypeName, value: &Expr) -> CheckResult<TypedExpr>
    ensures agrees { Agrees typed_of result
        (typing.cast_type to.now.place.at
        (object_named (environment_of env.now).registered (environment_of env.now).declarations
        (written.type_name_of to.now).name)
        and_then λ o. typing.check_expr (environment_of env.now) false (written.expr_of value.now)
        and_then λ t. typing.cast_at at o t) }
{
    let object = object_named(env.registry, env.signatures, to.name.as_str());
    let to = cast_target(to.place.at, object)?;
    let value = check_expr(env, AssignmentSide::Value, value)?;
    build_cast(env.alloc, at, to, value)
}

/// `array<of>(arguments)`
#[cycle(expressions)]
#[inline(never)]
fn check_new_array(
    env: &Environment,
    at: usize,
    of: &Element,
    arguments: &[Expr],
) -> CheckResult<TypedExpr>
    ensures agrees { Agrees typed_of result
        (typing.check_array (environment_of env.now) at (written.element_of of.now)
        (typing.check_exprs (environment_of env.now) (exprs (map written.expr_of arguments.now)))) }
{
    let element = element_named(env.registry, env.signatures, of);
    let element = check_element_type(of.place.at, element)?;
    let exprs = check_exprs(env, arguments)?;
    let callee = array_callee(element, exprs.len());
    build_call(env, &callee, Arguments { at, exprs })
}

/// An operator before its operand.
#[cycle(expressions)]
#[inline(never)]
fn check_unary(env: &Environment, prefix: Prefix, operand: &Expr) -> CheckResult<TypedExpr>
    ensures agrees { Agrees typed_of result
        (typing.check_expr (environment_of env.now) false (written.expr_of operand.now)
        and_then λ t. typing.unary_at (is_target prefix.side) prefix.at prefix.operator t) }
{
    let operand = check_expr(env, AssignmentSide::Value, operand)?;
    build_unary(env.alloc, prefix, operand)
}

/// Operators of one level, from left to right.
#[cycle(expressions)]
#[inline(never)]
fn check_binary(env: &Environment, first: &Expr, operators: &[Link]) -> CheckResult<TypedExpr>
    ensures agrees { Agrees typed_of result
        (typing.check_expr (environment_of env.now) false (written.expr_of first.now)
        and_then λ t. typing.check_links (environment_of env.now) t
        (links (map written.operation_of operators.now))) }
{
    let mut typed = check_expr(env, AssignmentSide::Value, first)?;
    for link in operators {
        let operand = check_expr(env, AssignmentSide::Value, &link.operand)?;
        typed = build_binary(env.alloc, link.operator, typed, operand)?;
    }
    Ok(typed)
}

/// `condition ? then : otherwise`
#[cycle(expressions)]
#[inline(never)]
fn check_conditional(
    env: &Environment,
    condition: &Expr,
    then: &Expr,
    otherwise: &Expr,
) -> CheckResult<TypedExpr>
    ensures agrees { Agrees typed_of result
        (typing.check_expr (environment_of env.now) false (written.expr_of condition.now)
        and_then λ c. typing.check_expr (environment_of env.now) false (written.expr_of then.now)
        and_then λ a.
        typing.check_expr (environment_of env.now) false (written.expr_of otherwise.now)
        and_then λ b. typing.choice c a b) }
{
    let condition = check_expr(env, AssignmentSide::Value, condition)?;
    let then = check_expr(env, AssignmentSide::Value, then)?;
    let otherwise = check_expr(env, AssignmentSide::Value, otherwise)?;
    build_conditional(env.alloc, condition, then, otherwise)
}

/// `target operator value`
#[cycle(expressions)]
#[inline(never)]
fn check_assignment(
    env: &Environment,
    target: &Expr,
    operator: AssignOp,
    value: &Expr,
) -> CheckResult<TypedExpr>
    ensures agrees { Agrees typed_of result
        (typing.check_expr (environment_of env.now) (typing.is_assign operator)
        (written.expr_of target.now)
        and_then λ t. typing.check_expr (environment_of env.now) false (written.expr_of value.now)
        and_then λ v. typing.assigned (classes_of env.now) t operator v) }
{
    let target = check_expr(env, target_side(operator), target)?;
    let value = check_expr(env, AssignmentSide::Value, value)?;
    build_assignment(env, target, operator, value)
}

/// `name(arguments)`
#[cycle(expressions)]
#[inline(never)]
fn check_call(env: &Environment, name: Name, arguments: &[Expr]) -> CheckResult<TypedExpr>
    ensures agrees { Agrees typed_of result
        (typing.check_call (environment_of env.now) name.entry.at name.entry.text.now
        (typing.check_exprs (environment_of env.now) (exprs (map written.expr_of arguments.now)))) }
{
    let callee = callee_named(env, name)?;
    let exprs = check_exprs(env, arguments)?;
    let arguments = Arguments { at: name.at, exprs };
    build_call(env, &callee, arguments)
}

/// Checks expressions in their order.
#[cycle(expressions)]
pub fn check_exprs(env: &Environment, arguments: &[Expr]) -> CheckResult<Vec<TypedExpr>>
    ensures all_typed_in_order { Agrees all_typed_of result
        (typing.check_exprs (environment_of env.now) (exprs (map written.expr_of arguments.now))) }
{
    let mut typed = Vec::with_capacity(env.alloc, arguments.len())?;
    for argument in arguments {
        typed.push(check_expr(env, AssignmentSide::Value, argument)?)?;
    }
    Ok(typed)
}

/// An operand with its suffixes, from left to right.
#[cycle(expressions)]
#[inline(never)]
fn check_postfix(env: &Environment, operand: &Expr, rest: &[Suffix]) -> CheckResult<TypedExpr>
    ensures agrees { Agrees typed_of result
        (typing.check_expr (environment_of env.now) false (written.expr_of operand.now)
        and_then λ t. typing.check_suffixes (environment_of env.now) t
        (suffixes (map written.suffix_of rest.now))) }
{
    let mut typed = check_expr(env, AssignmentSide::Value, operand)?;
    for suffix in rest {
        typed = check_suffix(env, typed, suffix)?;
    }
    Ok(typed)
}

#[cycle(expressions)]
fn check_suffix(env: &Environment, base: TypedExpr, suffix: &Suffix) -> CheckResult<TypedExpr>
    ensures agrees { Agrees typed_of result
        (typing.check_suffix (environment_of env.now) (typed_of base)
        (written.suffix_of suffix.now)) }
{
    match suffix {
        Suffix::Field { place, name } => {
            build_field(
                env,
                base,
                Name {
                    at: place.at,
                    text: name.as_str(),
                },
            )
        }
        Suffix::Method {
            place,
            name,
            arguments,
        } => check_method_call(
            env,
            base,
            Name {
                at: place.at,
                text: name.as_str(),
            },
            arguments,
        ),
        Suffix::Index(value) => check_index(env, base, value),
        Suffix::Increment => build_step(env.alloc, base.at, IncrementOp::IncrementAfter, base),
        Suffix::Decrement => build_step(env.alloc, base.at, IncrementOp::DecrementAfter, base),
    }
}

/// `base[value]`
#[cycle(expressions)]
#[inline(never)]
fn check_index(env: &Environment, base: TypedExpr, value: &Expr) -> CheckResult<TypedExpr>
    ensures agrees { Agrees typed_of result
        (typing.check_expr (environment_of env.now) false (written.expr_of value.now)
        and_then λ i. typing.indexed (typed_of base) base.ty i) }
{
    let value = check_expr(env, AssignmentSide::Value, value)?;
    build_index(env.alloc, base, value)
}

/// `base.name(arguments)`
#[cycle(expressions)]
fn check_method_call(
    env: &Environment,
    base: TypedExpr,
    name: Name,
    arguments: &[Expr],
) -> CheckResult<TypedExpr>
    ensures agrees { Agrees typed_of result
        (typing.check_invocation (environment_of env.now) (typed_of base) name.entry.at
        name.entry.text.now
        (typing.check_exprs (environment_of env.now) (exprs (map written.expr_of arguments.now)))) }
{
    let method = find_method(env, &base, name)?;
    let exprs = check_exprs(env, arguments)?;
    let arguments = Arguments { at: name.at, exprs };
    build_method_call(env, base, method, arguments)
}
