//! Operators and conversions, once their operands are typed.

ghost use Rattle.std.specs.Prelude.{◌≡◌, Ok, IfOk};
ghost use Rattle.ash_typed.specs.TypedTree.{Alter, Operate, Lazily};
ghost use Rattle.ash_typed.specs.TypedTreeViews.{expr_of};
ghost use Rattle.ash_type_rules.specs.Terms as terms;
ghost use Rattle.ash_type_rules.specs.ExpressionRules as typing;
ghost use Rattle.ash_check_names.specs.Agreement.{Agrees};
ghost use Rattle.ash_check_expressions.specs.TypedExprViews.{typed_of, unified_of, is_target};

use crate::forms::{AssignmentSide, assignable_place, handle_form};
use crate::operator_types::{
    accepts, assumed_type, common_operands, operand_integer_type, operand_type, operator_class,
    operator_result, typed_operator,
};
use crate::typed_expr::{TypedExpr, adapt_operand, check_bool, coerce, handle_type, integer_type};
use ash_check_names::{
    CheckResult, common_type, conversion, fault_at, is_void, signed_type, ty_of,
};
use ash_tree::{BinaryOp, Primitive, UnaryOp};
use ash_type_rules::{Operator, OperatorClass, Rule, Ty};
use ash_typed::{
    Calculation, Change, Expr, IncrementOp, IntType, Lazy, ObjectType, Operand, Operands,
    Operation, nodes,
};
use std::alloc::{AllocError, Global};

/// An operator before its operand, at the offset of the operator.
#[derive(Clone, Copy)]
pub(crate) struct Prefix {
    pub(crate) at: usize,
    pub(crate) operator: UnaryOp,
    pub(crate) side: AssignmentSide,
}

/// The operands of an operator, converted to one type, and what the operator takes them for.
#[derive(Drop)]
pub(crate) struct UnifiedOperands {
    pub(crate) left: TypedExpr,
    pub(crate) operands: Operands,
    pub(crate) right: Expr,
}

fn right_operand(
    alloc: Global,
    class: OperatorClass,
    operands: Operands,
    right: TypedExpr,
) -> CheckResult<Expr>
    ensures agrees { Agrees expr_of result
        (Ok (terms.right_by class operands (typing.term_of (typed_of right)))) }
{
    match class {
        OperatorClass::Shift => Ok(right.tree),
        _ => Ok(coerce(alloc, operand_type(operands), right)?),
    }
}

fn unify_adapted(
    alloc: Global,
    class: OperatorClass,
    left: TypedExpr,
    right: TypedExpr,
) -> CheckResult<UnifiedOperands>
    ensures agrees { Agrees unified_of result (typing.unified_by class (typed_of left)
        (typed_of right)) }
{
    let one = assumed_type(class, right.ty, left.ty);
    let other = assumed_type(class, left.ty, right.ty);
    let Some(operands) = common_operands(class, one, other) else {
        let at = if accepts(class, left.ty) {
            right.at
        } else {
            left.at
        };
        return Err(fault_at(Rule::TypeMismatch, at));
    };
    let right = right_operand(alloc, class, operands, right)?;
    Ok(UnifiedOperands {
        left,
        operands,
        right,
    })
}

#[tactic(auto, unfolding(ash_type_rules::specs::ExpressionRules::unify_operands))]
pub(crate) fn unify_operands(
    alloc: Global,
    operator: BinaryOp,
    mut left: TypedExpr,
    mut right: TypedExpr,
) -> CheckResult<UnifiedOperands>
    ensures agrees { Agrees unified_of result
        (typing.unify_operands operator (typed_of left) (typed_of right)) }
{
    let class = operator_class(operator);
    let (form, of) = (right.form, right.ty);
    adapt_operand(class, left.form, left.ty, &mut right);
    adapt_operand(class, form, of, &mut left);
    unify_adapted(alloc, class, left, right)
}

/// The tree of an operation on two operands. The left one is converted to the type that the operator takes it for.
fn operation_tree(
    alloc: Global,
    operation: Operation,
    operands: Operands,
    left: TypedExpr,
    right: Expr,
) -> Result<Expr, AllocError>
    ensures value { IfOk result
        (λ e. expr_of e
        ≡ Operate operation (typing.coerced (terms.operand_type operands) (typed_of left))
        (expr_of right)) }
{
    let next = Operand {
        before: conversion(operand_type(operands), left.ty),
        operation,
        value: right,
    };
    nodes::operate(alloc, left.tree, next)
}

/// The tree of `&&` or `||`. The left operand is converted to the type that the operator takes it for.
fn lazy_tree(
    alloc: Global,
    operator: Lazy,
    operands: Operands,
    left: TypedExpr,
    right: Expr,
) -> Result<Expr, AllocError>
    ensures value { IfOk result
        (λ e. expr_of e
        ≡ Lazily operator (typing.coerced (terms.operand_type operands) (typed_of left))
        (expr_of right)) }
{
    let left = coerce(alloc, operand_type(operands), left)?;
    nodes::lazily(alloc, operator, left, right)
}

/// The tree of an operator and its operands. The left one is converted to the type that the operator takes it for.
fn operator_tree(
    alloc: Global,
    operator: BinaryOp,
    operands: Operands,
    left: TypedExpr,
    right: Expr,
) -> Result<Expr, AllocError>
    ensures value { IfOk result
        (λ e. expr_of e
        ≡ terms.applied operator operands
        (typing.coerced (terms.operand_type operands) (typed_of left)) (expr_of right)) }
{
    match typed_operator(operator) {
        Operator::Calculate(operator) => {
            let of = operand_integer_type(operands);
            let calculation = Calculation { operator, of };
            operation_tree(
                alloc,
                Operation::Calculate(calculation),
                operands,
                left,
                right,
            )
        }
        Operator::Compare(comparator) => {
            let comparison = Operation::Compare(comparator, operands);
            operation_tree(alloc, comparison, operands, left, right)
        }
        Operator::Lazy(lazy) => lazy_tree(alloc, lazy, operands, left, right),
    }
}

/// An operator between two operands.
#[tactic(auto, unfolding(ash_type_rules::specs::ExpressionRules::operate))]
pub(crate) fn build_binary(
    alloc: Global,
    operator: BinaryOp,
    left: TypedExpr,
    right: TypedExpr,
) -> CheckResult<TypedExpr>
    ensures agrees { Agrees typed_of result (typing.operate operator (typed_of left)
        (typed_of right)) }
{
    let unified = unify_operands(alloc, operator, left, right)?;
    let at = unified.left.at;
    let operands = unified.operands;
    let tree = operator_tree(alloc, operator, operands, unified.left, unified.right)?;
    Ok(TypedExpr::value(
        at,
        operator_result(operator_class(operator), operands),
        tree,
    ))
}

/// `++` or `--` at a place.
#[tactic(auto, unfolding(ash_type_rules::specs::ExpressionRules::counted))]
pub(crate) fn build_step(
    alloc: Global,
    at: usize,
    step: IncrementOp,
    operand: TypedExpr,
) -> CheckResult<TypedExpr>
    ensures agrees { Agrees typed_of result
        (typing.counted at step (typed_of operand)
        (terms.assignable operand.form (expr_of operand.tree))) }
{
    let Some(place) = assignable_place(alloc, operand.form, operand.tree)? else {
        return Err(fault_at(Rule::NotAssignable, operand.at));
    };
    let int_type = integer_type(operand.at, operand.ty)?;
    Ok(TypedExpr::value(
        at,
        Ty::Integer(int_type),
        nodes::count(alloc, place, int_type, step)?,
    ))
}

fn build_integer_change(
    alloc: Global,
    at: usize,
    int_type: IntType,
    change: Change,
    operand: TypedExpr,
) -> CheckResult<TypedExpr>
    ensures agrees { Agrees typed_of result (Ok
        (typing.altered at int_type change (typed_of operand))) }
{
    let value = coerce(alloc, Ty::Integer(int_type), operand)?;
    Ok(TypedExpr::value(
        at,
        Ty::Integer(int_type),
        nodes::alter(alloc, change, value)?,
    ))
}

/// The value alone, which can't be assigned.
fn build_integer(
    alloc: Global,
    at: usize,
    int_type: IntType,
    operand: TypedExpr,
) -> CheckResult<TypedExpr>
    ensures agrees { Agrees typed_of result
        (Ok (typing.integer_at at int_type (typed_of operand))) }
{
    let value = coerce(alloc, Ty::Integer(int_type), operand)?;
    Ok(TypedExpr::value(at, Ty::Integer(int_type), value))
}

fn build_change(
    alloc: Global,
    at: usize,
    of: Ty,
    change: Change,
    operand: TypedExpr,
) -> CheckResult<TypedExpr>
    ensures agrees { Agrees typed_of result
        (Ok (typing.term_at at of (Alter change (expr_of operand.tree)))) }
{
    Ok(TypedExpr::value(at, of, nodes::alter(alloc, change, operand.tree)?))
}

/// `@operand`
fn build_handle(side: AssignmentSide, at: usize, operand: TypedExpr) -> CheckResult<TypedExpr>
    ensures agrees { Agrees typed_of result (typing.handle_at (is_target side) at
        (typed_of operand)) }
{
    match side {
        AssignmentSide::Target => Ok(TypedExpr {
            at,
            ty: operand.ty,
            form: handle_form(operand.form),
            tree: operand.tree,
        }),
        AssignmentSide::Value => {
            let of = handle_type(operand.at, operand.ty)?;
            Ok(TypedExpr::value(at, of, operand.tree))
        }
    }
}

/// An operator before its operand.
#[tactic(auto, unfolding(ash_type_rules::specs::ExpressionRules::unary_at))]
pub(crate) fn build_unary(
    alloc: Global,
    prefix: Prefix,
    operand: TypedExpr,
) -> CheckResult<TypedExpr>
    ensures agrees { Agrees typed_of result
        (typing.unary_at (is_target prefix.side) prefix.at prefix.operator (typed_of operand)) }
{
    let at = prefix.at;
    match prefix.operator {
        UnaryOp::Plus => {
            let int_type = integer_type(operand.at, operand.ty)?;
            build_integer(alloc, at, int_type, operand)
        }
        UnaryOp::Minus => {
            let int_type = signed_type(integer_type(operand.at, operand.ty)?);
            build_integer_change(alloc, at, int_type, Change::Negate(int_type), operand)
        }
        UnaryOp::BitNot => {
            let int_type = integer_type(operand.at, operand.ty)?;
            build_integer_change(alloc, at, int_type, Change::Complement(int_type), operand)
        }
        UnaryOp::Not => {
            check_bool(operand.at, operand.ty)?;
            build_change(alloc, at, Ty::Bool, Change::Not, operand)
        }
        UnaryOp::Increment => build_step(alloc, at, IncrementOp::Increment, operand),
        UnaryOp::Decrement => build_step(alloc, at, IncrementOp::Decrement, operand),
        UnaryOp::Handle => build_handle(prefix.side, at, operand),
    }
}

/// `prim(e)`
#[tactic(auto, unfolding(ash_type_rules::specs::ExpressionRules::convert_at))]
pub(crate) fn build_conversion(
    alloc: Global,
    at: usize,
    to: Primitive,
    value: TypedExpr,
) -> CheckResult<TypedExpr>
    ensures agrees { Agrees typed_of result (typing.convert_at at to (typed_of value)) }
{
    match ty_of(to) {
        Ty::Integer(int_type) => {
            integer_type(value.at, value.ty)?;
            build_integer(alloc, at, int_type, value)
        }
        _ => {
            check_bool(value.at, value.ty)?;
            Ok(TypedExpr::value(at, Ty::Bool, value.tree))
        }
    }
}

/// The class or the interface of a cast, whose name is at this offset.
pub(crate) fn cast_target(at: usize, object: Option<ObjectType>) -> CheckResult<ObjectType>
    ensures agrees { Agrees (λ o. o) result (typing.cast_type at object) }
{
    match object {
        Some(ObjectType::Class(class)) => Ok(ObjectType::Class(class)),
        Some(ObjectType::Interface(interface)) => Ok(ObjectType::Interface(interface)),
        Some(_) => Err(fault_at(Rule::TypeMismatch, at)),
        None => Err(fault_at(Rule::UnknownType, at)),
    }
}

/// `cast<to>(value)`
#[tactic(auto, unfolding(ash_type_rules::specs::ExpressionRules::cast_at))]
pub(crate) fn build_cast(
    alloc: Global,
    at: usize,
    to: ObjectType,
    value: TypedExpr,
) -> CheckResult<TypedExpr>
    ensures agrees { Agrees typed_of result (typing.cast_at at to (typed_of value)) }
{
    handle_type(value.at, value.ty)?;
    let tree = nodes::cast(alloc, to, value.tree)?;
    Ok(TypedExpr::value(at, Ty::Handle(to), tree))
}

/// `condition ? then : otherwise`
#[tactic(auto, unfolding(ash_type_rules::specs::ExpressionRules::choice))]
pub(crate) fn build_conditional(
    alloc: Global,
    condition: TypedExpr,
    then: TypedExpr,
    otherwise: TypedExpr,
) -> CheckResult<TypedExpr>
    ensures agrees { Agrees typed_of result
        (typing.choice (typed_of condition) (typed_of then) (typed_of otherwise)) }
{
    check_bool(condition.at, condition.ty)?;
    let Some(of) = common_type(then.ty, otherwise.ty) else {
        let at = if is_void(then.ty) {
            then.at
        } else {
            otherwise.at
        };
        return Err(fault_at(Rule::TypeMismatch, at));
    };
    let then = coerce(alloc, of, then)?;
    let otherwise = coerce(alloc, of, otherwise)?;
    let tree = nodes::conditional(alloc, condition.tree, then, otherwise)?;
    Ok(TypedExpr::value(condition.at, of, tree))
}
