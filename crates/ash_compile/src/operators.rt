//! What is simple in an operator: operands that need no code, and instructions that say more than `Calculate`.

ghost use Rattle.std.specs.Prelude.{IsTrue, IfSome};
ghost use Rattle.ash_typed.specs.declared.tree.operations.Operation.TheVariants as operations;
ghost use Rattle.ash_typed.specs.TypedTree.{Expr as ExprData, Number, Read, Stored};
ghost use Rattle.ash_typed.specs.TypedTreeViews.{expr_of, chained, all_chained};
ghost use Rattle.ash_code.specs.Performing.{of_int};
ghost use Rattle.ash_compile.specs.Operands.{IsPlain, ReadsLocal, IsSimple, IsInt, Adds, AddsTo, IsAddition};
ghost use Rattle.ash_compile.specs.Operands.{Calculates, Operates, ComparesBy, Compares, ComparesLocals};

use ash_code::instruction::Instruction;
use ash_integers::{Comparison, IntType};
use ash_typed::{
    Calculation, Calculator, Comparator, Expr, ExprKind, Operand, Operands, Operation, VarType,
    Variable,
};

/// Whether a type is one of numbers or of truth values.
fn is_plain(of: VarType) -> bool
    ensures plain { IsTrue result → IsPlain of }
{
    match of {
        VarType::Bool => true,
        VarType::Integer(_) => true,
        _ => false,
    }
}

/// The slot of a local, if it is no handle.
fn plain_local(variable: Variable) -> Option<usize>
    ensures reads { IfSome result (λ n. ReadsLocal (Read (Stored variable)) n) }
{
    match variable {
        Variable::Local { slot, of } => { if is_plain(of) { Some(slot) } else { None } }
        Variable::Global { .. } => None,
    }
}

/// The slot of the local that an expression reads, if that is no handle.
pub fn local_read(expr: &Expr) -> Option<usize>
    ensures reads { IfSome result (λ n. ReadsLocal (expr_of expr.now) n) }
{
    match &*expr.kind {
        ExprKind::Variable(variable) => plain_local(*variable),
        _ => None,
    }
}

/// Whether a variable is a local.
fn is_local(variable: Variable) -> bool
    ensures simple { IsTrue result → IsSimple (Read (Stored variable)) }
{
    match variable {
        Variable::Local { .. } => true,
        Variable::Global { .. } => false,
    }
}

/// Whether an expression is a literal or a local that is read. Others may be simple as well.
pub fn is_simple(expr: &Expr) -> bool
    ensures simple { IsTrue result → IsSimple (expr_of expr.now) }
{
    match &*expr.kind {
        ExprKind::Number { .. } => true,
        ExprKind::Bool(_) => true,
        ExprKind::Variable(variable) => is_local(*variable),
        _ => false,
    }
}

/// A number that a script writes, if it is an `int`.
fn int_from(of: IntType, value: u64) -> Option<i32>
    ensures int { IfSome result (λ number. IsInt (Number of value) number) }
{
    match of {
        IntType::Int => i32::try_from(value).ok(),
        _ => None,
    }
}

/// The number that an expression is, if it is an `int`.
fn int_literal(expr: &Expr) -> Option<i32>
    ensures int { IfSome result (λ number. IsInt (expr_of expr.now) number) }
{
    match &*expr.kind {
        ExprKind::Number { of, value } => int_from(*of, *value),
        _ => None,
    }
}

/// What an operator adds to its left operand, if the right one is this number.
fn added(operator: Calculator, number: i32) -> Option<i32>
    ensures adds { IfSome result (λ sum. (e : ExprData) → IsInt e number → Adds operator e sum) }
{
    match operator {
        Calculator::Add => Some(number),
        Calculator::Subtract => number.checked_neg(),
        _ => None,
    }
}

/// The number that a calculation adds to an `int`, if its right operand is one.
pub fn addend(calculation: Calculation, right: &Expr) -> Option<i32>
    ensures adds { IfSome result (λ number. AddsTo calculation (expr_of right.now) number) }
{
    let number = int_literal(right)?;
    match calculation.of {
        IntType::Int => added(calculation.operator, number),
        _ => None,
    }
}

/// Calculates an `int` with the words of two slots.
fn calculating_int(operator: Calculator, left: usize, right: usize, to: usize) -> Instruction
    ensures calculates { Calculates result (of_int operator) left right to }
{
    match operator {
        Calculator::Add => Instruction::AddInt { left, right, to },
        Calculator::Subtract => Instruction::SubtractInt { left, right, to },
        _ => Instruction::Calculate {
            calculation: Calculation {
                operator,
                of: IntType::Int,
            },
            left,
            right,
            to,
        },
    }
}

/// Calculates with the words of two slots.
pub fn calculating(calculation: Calculation, left: usize, right: usize, to: usize) -> Instruction
    ensures calculates { Calculates result calculation left right to }
{
    match calculation.of {
        IntType::Int => calculating_int(calculation.operator, left, right, to),
        _ => Instruction::Calculate {
            calculation,
            left,
            right,
            to,
        },
    }
}

/// Does what an operator does with the words of two slots.
pub fn operating(operation: Operation, left: usize, right: usize, to: usize) -> Instruction
    ensures operates { Operates result operation left right to }
{
    match operation {
        Operation::Calculate(calculation) => calculating(calculation, left, right, to),
        Operation::Compare(comparator, operands) => Instruction::Compare {
            comparator,
            operands,
            left,
            right,
            to,
        },
    }
}

/// How a comparator compares integers.
fn comparison_by(comparator: Comparator) -> Option<Comparison>
    ensures compares { IfSome result (λ comparison. ComparesBy comparator comparison) }
{
    match comparator {
        Comparator::Less => Some(Comparison::Less),
        Comparator::LessOrEqual => Some(Comparison::LessOrEqual),
        Comparator::Greater => Some(Comparison::Greater),
        Comparator::GreaterOrEqual => Some(Comparison::GreaterOrEqual),
        Comparator::Equal => Some(Comparison::Equal),
        Comparator::NotEqual => Some(Comparison::NotEqual),
        _ => None,
    }
}

/// How a comparator compares operands, if they are integers.
fn comparison_in(comparator: Comparator, operands: Operands) -> Option<Comparison>
    ensures compares { IfSome result (λ comparison. Compares (operations.Compare comparator operands) comparison) }
{
    match operands {
        Operands::Integers(_) => comparison_by(comparator),
        _ => None,
    }
}

/// How an operator compares integers, if it does.
pub fn comparison_of(operation: Operation) -> Option<Comparison>
    ensures compares { IfSome result (λ comparison. Compares operation comparison) }
{
    match operation {
        Operation::Compare(comparator, operands) => comparison_in(comparator, operands),
        Operation::Calculate(_) => None,
    }
}

/// A comparison of the integers of two locals.
#[derive(Clone, Copy)]
pub struct LocalComparison {
    pub comparison: Comparison,
    pub left: usize,
    pub right: usize,
}

/// The comparison that an operator makes of two operands, if both are locals.
fn compared_with(first: &Expr, operand: &Operand) -> Option<LocalComparison>
    ensures compares { IfSome result (λ c. ComparesLocals (chained (expr_of first.now) operand.now)
        c.comparison c.left c.right) }
{
    match operand.before {
        Some(_) => None,
        None => {
            let comparison = comparison_of(operand.operation)?;
            let left = local_read(first)?;
            let right = local_read(&operand.value)?;
            Some(LocalComparison {
                comparison,
                left,
                right,
            })
        }
    }
}

/// The same of a row of operators, if it has one.
fn compared_by(first: &Expr, operands: &[Operand]) -> Option<LocalComparison>
    ensures compares { IfSome result (λ c. ComparesLocals (all_chained (expr_of first.now) operands.now)
        c.comparison c.left c.right) }
{
    match operands.split_first() {
        Some((operand, rest)) => {
            if rest.is_empty() {
                compared_with(first, operand)
            } else {
                None
            }
        }
        None => None,
    }
}

/// The comparison of two locals that an expression is.
pub fn local_comparison(expr: &Expr) -> Option<LocalComparison>
    ensures compares { IfSome result (λ c. ComparesLocals (expr_of expr.now) c.comparison c.left c.right) }
{
    match &*expr.kind {
        ExprKind::Chain { first, operands } => compared_by(first, operands),
        _ => None,
    }
}

/// The number that an operator adds to an `int`, if its right operand is one.
pub fn addend_of(operation: Operation, right: &Expr) -> Option<i32>
    ensures adds { IfSome result (λ number. IsAddition operation (expr_of right.now) number) }
{
    match operation {
        Operation::Calculate(calculation) => addend(calculation, right),
        Operation::Compare(_, _) => None,
    }
}
