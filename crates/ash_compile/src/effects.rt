//! The code of expressions whose value is not used: an assignment to a local writes the local itself.

ghost use Rattle.std.specs.Prelude.{IfOk, IfSome};
ghost use Rattle.ash_typed.specs.TypedTree.{Place as PlaceData, Update, Stored};
ghost use Rattle.ash_typed.specs.TypedTreeViews.{expr_of, place_of};
ghost use Rattle.ash_compile.specs.Operands.{EmitsInto, EmitsEffect};
ghost use Rattle.ash_compile.specs.Effects.{IsLocalPlace, CountsInt, Counts};

use crate::builder::CodeBuilder;
use crate::operators::{addend, calculating};
use ash_code::instruction::Instruction;
use ash_integers::IntType;
use ash_typed::{Calculation, Expr, ExprKind, IncrementOp, Place, Variable};
use std::alloc::AllocError;

/// The slot of a variable, if it is a local.
fn slot_of(variable: Variable) -> Option<usize>
    ensures local { IfSome result (λ n. IsLocalPlace (Stored variable) n) }
{
    match variable {
        Variable::Local { slot, .. } => Some(slot),
        Variable::Global { .. } => None,
    }
}

/// The slot of a place, if it is a local.
fn local_in(place: &Place) -> Option<usize>
    ensures local { IfSome result (λ n. IsLocalPlace (place_of place.now) n) }
{
    match place {
        Place::Variable(variable) => slot_of(*variable),
        _ => None,
    }
}

/// Counts an `int` in a slot.
fn counting_int(step: IncrementOp, slot: usize) -> Instruction
    ensures counts { CountsInt result step slot }
{
    match step {
        IncrementOp::Increment => Instruction::AddNumber {
            left: slot,
            number: 1,
            to: slot,
        },
        IncrementOp::IncrementAfter => Instruction::AddNumber {
            left: slot,
            number: 1,
            to: slot,
        },
        IncrementOp::Decrement => Instruction::AddNumber {
            left: slot,
            number: -1,
            to: slot,
        },
        IncrementOp::DecrementAfter => Instruction::AddNumber {
            left: slot,
            number: -1,
            to: slot,
        },
    }
}

/// Counts what is in a slot.
fn counting(step: IncrementOp, int_type: IntType, slot: usize) -> Instruction
    ensures counts { Counts result step int_type slot }
{
    match int_type {
        IntType::Int => counting_int(step, slot),
        _ => Instruction::Count {
            step,
            int_type,
            from: slot,
            to: slot,
        },
    }
}

impl CodeBuilder {
    /// Appends the code of an expression that is evaluated for what it does: its value is not used.
    ///
    /// # Errors
    ///
    /// If there is no memory, or there are no more slots.
    pub fn effect(&mut self, expr: &Expr, slot: usize) -> Result<(), AllocError>
        ensures emits { IfOk result (λ u. EmitsEffect self.old self.new (expr_of expr.now) slot) }
    {
        match &*expr.kind {
            ExprKind::Assign { place, value } => match local_in(place) {
                Some(to) => self.value_into(value, slot, to),
                None => self.expression(expr, slot),
            },
            ExprKind::Update {
                place,
                of,
                calculation,
                value,
            } => match local_in(place) {
                Some(to) => {
                    if *of == calculation.of {
                        self.update_local(*calculation, value, slot, to)
                    } else {
                        self.expression(expr, slot)
                    }
                }
                None => self.expression(expr, slot),
            },
            ExprKind::Step { place, of, step } => match local_in(place) {
                Some(to) => self.put(slot, counting(*step, *of, to)),
                None => self.expression(expr, slot),
            },
            _ => self.expression(expr, slot),
        }
    }

    /// Appends the code of an expression whose value goes to a slot: its own, or that of a local.
    fn value_into(&mut self, expr: &Expr, slot: usize, to: usize) -> Result<(), AllocError>
        ensures emits { IfOk result (λ u. EmitsInto self.old self.new (expr_of expr.now) slot to) }
    {
        match &*expr.kind {
            ExprKind::Chain { first, operands } => self.chain(first, operands, slot, to),
            _ => {
                let from = self.value(expr, slot)?;
                self.put(slot, Instruction::Move { from, to })
            }
        }
    }

    /// Calculates with a local, which has what comes out.
    fn update_local(
        &mut self,
        calculation: Calculation,
        value: &Expr,
        slot: usize,
        local: usize,
    ) -> Result<(), AllocError>
        ensures emits { IfOk result (λ u. (place : PlaceData) → IsLocalPlace place local
            → EmitsEffect self.old self.new (Update place calculation.of calculation (expr_of value.now)) slot) }
    {
        match addend(calculation, value) {
            Some(number) => self.put(
                slot,
                Instruction::AddNumber {
                    left: local,
                    number,
                    to: local,
                },
            ),
            None => {
                let right = self.value(value, slot)?;
                self.put(slot, calculating(calculation, local, right, local))
            }
        }
    }
}
