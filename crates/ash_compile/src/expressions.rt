//! The code of expressions. Operands and arguments go from left to right, and the right side of an assignment comes
//! before its place.
//!
//! An expression leaves its value in a slot of no local, and uses no slot below that. Its parts use the slots from
//! there on.

ghost use Rattle.std.specs.Prelude.{◌≡◌, ◌⊎◌, ◌+◌, List, map, IfOk, pos};
ghost use Rattle.ash_typed.specs.declared.types.VarType.{VarType as VarTypeData};
ghost use Rattle.ash_typed.specs.TypedTree.{Expr as ExprData, Read, Stored, Lazily, Conditional};
ghost use Rattle.ash_typed.specs.TypedTree.{Invoke, exprs, converted};
ghost use Rattle.ash_typed.specs.TypedTreeViews.{expr_of, place_of, linked, all_linked, chained, all_chained};
ghost use Rattle.ash_typed.specs.TypedTreeViews.{all_lazies};
ghost use Rattle.ash_meaning.specs.OperatorMeaning.{word_at};
ghost use Rattle.ash_compile.specs.Emission.{Emits, lazy_jump, read_local};
ghost use Rattle.ash_compile.specs.Places.{EmitsPlace};
ghost use Rattle.ash_compile.specs.Operands.{IsSimple, EmitsIn, EmitsInto};
ghost use Rattle.ash_compile.specs.Arguments.{EmitsArguments};
ghost use Rattle.ash_compile.specs.declared.builder.Written.{Written};

use crate::builder::CodeBuilder;
use crate::operators::{addend_of, is_simple, local_read, operating};
use crate::places::{Spot, spot_of_member, spot_of_variable};
use ash_code::instruction::Instruction;
use ash_host::Word;
use ash_integers::{IntType, word_from};
use ash_typed::{
    Conversion, Expr, ExprKind, Lazy, Link, Method, Operand, Place, VarType, Variable,
};
use std::alloc::AllocError;

/// The slot after one.
fn after(slot: usize) -> Result<usize, AllocError>
    ensures next { IfOk result (λ next. next ≡ slot + 1) }
{
    slot.checked_add(1).ok_or(AllocError)
}

/// A number that a script writes.
fn numeral(int_type: IntType, value: u64) -> Word
    ensures word { result ≡ word_at int_type (pos value) }
{
    word_from(int_type, i128::from(value))
}

/// A jump over the right operand of a lazy operator.
fn jump_over(operator: Lazy, condition: usize, to: usize) -> Instruction
    ensures jump { result ≡ lazy_jump operator condition to }
{
    match operator {
        Lazy::And => Instruction::JumpUnless { condition, to },
        Lazy::Or => Instruction::JumpIf { condition, to },
    }
}

/// Reads a local. What may be a handle is held.
fn read_local(from: usize, of: VarType, to: usize) -> Instruction
    ensures read { result ≡ read_local from of to }
{
    match of {
        VarType::Bool | VarType::Integer(_) => Instruction::Move { from, to },
        VarType::Object(_) | VarType::Handle(_) => Instruction::Hold { from, to },
    }
}

impl CodeBuilder {
    /// Appends the code of an expression, which leaves its value in a slot.
    ///
    /// # Errors
    ///
    /// If there is no memory, or there are no more slots.
    #[cycle(expressions)]
    pub fn expression(&mut self, expr: &Expr, slot: usize) -> Result<(), AllocError>
        ensures emits { IfOk result (λ u. Emits self.old self.new (expr_of expr.now) slot) }
    {
        match &*expr.kind {
            ExprKind::Number { of, value } => {
                let word = numeral(*of, *value);
                self.put(slot, Instruction::Load { word, to: slot })
            }
            ExprKind::Bool(value) => self.put(
                slot,
                Instruction::Load {
                    word: Word::Bool(*value),
                    to: slot,
                },
            ),
            ExprKind::Null => self.put(
                slot,
                Instruction::Load {
                    word: Word::Null,
                    to: slot,
                },
            ),
            ExprKind::This(_) => self.put(slot, Instruction::This { to: slot }),
            ExprKind::Variable(variable) => self.variable(*variable, slot),
            ExprKind::Convert { conversion, value } => {
                self.expression(value, slot)?;
                self.conversion(*conversion, slot)
            }
            ExprKind::Change { change, operand } => {
                self.expression(operand, slot)?;
                self.put(
                    slot,
                    Instruction::Alter {
                        change: *change,
                        from: slot,
                        to: slot,
                    },
                )
            }
            ExprKind::Chain { first, operands } => self.chain(first, operands, slot, slot),
            ExprKind::Lazy {
                operator,
                first,
                others,
            } => self.lazy_row(*operator, first, others, slot),
            ExprKind::Conditional {
                condition,
                then,
                otherwise,
            } => self.conditional(condition, then, otherwise, slot),
            ExprKind::Path { base, links } => self.path(base, links, slot),
            ExprKind::Cast { to, value } => {
                self.expression(value, slot)?;
                self.put(
                    slot,
                    Instruction::Cast {
                        object_type: *to,
                        from: slot,
                        to: slot,
                    },
                )
            }
            ExprKind::Assign { place, value } => {
                self.expression(value, slot)?;
                let next = after(slot)?;
                let spot = self.place(place, next)?;
                self.assignment(spot, slot)
            }
            ExprKind::Update {
                place,
                of,
                calculation,
                value,
            } => {
                self.expression(value, slot)?;
                let left = after(slot)?;
                let next = after(left)?;
                let spot = self.place(place, next)?;
                self.update(spot, *of, *calculation, slot, left)
            }
            ExprKind::Step { place, of, step } => {
                let other = after(slot)?;
                let next = after(other)?;
                let spot = self.place(place, next)?;
                self.step(spot, *of, *step, slot, other)
            }
            ExprKind::Call {
                target,
                arguments,
                ..
            } => {
                self.arguments(arguments, slot)?;
                self.call(*target, slot, arguments.len())
            }
        }
    }

    /// What a variable holds.
    fn variable(&mut self, variable: Variable, slot: usize) -> Result<(), AllocError>
        ensures emits { IfOk result (λ u. Emits self.old self.new (Read (Stored variable)) slot) }
    {
        match variable {
            Variable::Local { slot: from, of } => self.put(slot, read_local(from, of, slot)),
            Variable::Global { place, .. } => {
                self.put(slot, Instruction::ReadGlobal { place, to: slot })
            }
        }
    }

    /// Converts the value of a slot.
    fn conversion(&mut self, conversion: Conversion, slot: usize) -> Result<(), AllocError>
        ensures emits { IfOk result (λ u. (start : Written) (e : ExprData) → Emits start self.old e slot
            → Emits start self.new (converted (Some conversion) e) slot) }
    {
        self.convert(conversion.from, conversion.to, slot)
    }

    /// Converts an operand. Its value is in the slot that is given back.
    fn converted(
        &mut self,
        conversion: Conversion,
        left: usize,
        slot: usize,
    ) -> Result<usize, AllocError>
        ensures emits { IfOk result (λ at. (start : Written) (e : ExprData) → EmitsIn start self.old e slot left
            → EmitsIn start self.new (converted (Some conversion) e) slot at) }
        ensures there { IfOk result (λ at. (at ≡ left) ⊎ (at ≡ slot)) }
    {
        if conversion.from == conversion.to {
            return Ok(left);
        }
        self.put(
            slot,
            Instruction::Convert {
                int_type: conversion.to,
                from: left,
                to: slot,
            },
        )?;
        Ok(slot)
    }

    /// Converts an operand where a conversion is named. Its value is in the slot that is given back.
    pub(crate) fn conversion_before(
        &mut self,
        before: Option<Conversion>,
        left: usize,
        slot: usize,
    ) -> Result<usize, AllocError>
        ensures emits { IfOk result (λ at. (start : Written) (e : ExprData) → EmitsIn start self.old e slot left
            → EmitsIn start self.new (converted before e) slot at) }
        ensures there { IfOk result (λ at. (at ≡ left) ⊎ (at ≡ slot)) }
    {
        match before {
            None => Ok(left),
            Some(conversion) => self.converted(conversion, left, slot),
        }
    }

    /// Computes an operand. Its value is in the slot that is given back: a local stays in its own.
    #[cycle(expressions)]
    pub fn value(&mut self, expr: &Expr, slot: usize) -> Result<usize, AllocError>
        ensures emits { IfOk result (λ at. EmitsIn self.old self.new (expr_of expr.now) slot at) }
    {
        match local_read(expr) {
            Some(local) => Ok(local),
            None => {
                self.expression(expr, slot)?;
                Ok(slot)
            }
        }
    }

    /// Computes an operand before another one. A local stays in its own slot only if the other one is simple.
    #[cycle(expressions)]
    fn left(&mut self, expr: &Expr, other: &Expr, slot: usize) -> Result<usize, AllocError>
        ensures emits { IfOk result (λ at. EmitsIn self.old self.new (expr_of expr.now) slot at) }
        ensures stays { IfOk result (λ at. (at ≡ slot) ⊎ IsSimple (expr_of other.now)) }
    {
        if is_simple(other) {
            return self.value(expr, slot);
        }
        self.expression(expr, slot)?;
        Ok(slot)
    }

    /// What an operator with its right operand makes of the value of a slot, into another one: that of the expression,
    /// or that of a local.
    #[cycle(expressions)]
    fn operand(
        &mut self,
        operand: &Operand,
        left: usize,
        slot: usize,
        to: usize,
    ) -> Result<(), AllocError>
        ensures emits { IfOk result (λ u. (start : Written) (e : ExprData)
            → (left ≡ slot) ⊎ IsSimple (expr_of operand.now.value)
            → EmitsIn start self.old e slot left
            → EmitsInto start self.new (chained e operand.now) slot to) }
    {
        let left = self.conversion_before(operand.before, left, slot)?;
        match addend_of(operand.operation, &operand.value) {
            Some(number) => self.put(slot, Instruction::AddNumber { left, number, to }),
            None => {
                let next = after(slot)?;
                let right = self.value(&operand.value, next)?;
                self.put(slot, operating(operand.operation, left, right, to))
            }
        }
    }

    /// What operators make of the value of an expression, one after the other, into a slot: that of the expression, or
    /// that of a local.
    #[cycle(expressions)]
    pub fn chain(
        &mut self,
        first: &Expr,
        operands: &[Operand],
        slot: usize,
        to: usize,
    ) -> Result<(), AllocError>
        ensures emits { IfOk result (λ u. EmitsInto self.old self.new
            (all_chained (expr_of first.now) operands.now) slot to) }
    {
        match operands.split_last() {
            None => {
                let from = self.value(first, slot)?;
                self.put(slot, Instruction::Move { from, to })
            }
            Some((last, before)) => {
                let left = self.row(first, before, &last.value, slot)?;
                self.operand(last, left, slot, to)
            }
        }
    }

    /// What operators make of the value of an expression, one after the other, before another operand.
    #[cycle(expressions)]
    pub(crate) fn row(
        &mut self,
        first: &Expr,
        operands: &[Operand],
        other: &Expr,
        slot: usize,
    ) -> Result<usize, AllocError>
        ensures emits { IfOk result (λ at. EmitsIn self.old self.new
            (all_chained (expr_of first.now) operands.now) slot at) }
        ensures stays { IfOk result (λ at. (at ≡ slot) ⊎ IsSimple (expr_of other.now)) }
    {
        match operands.split_first() {
            None => self.left(first, other, slot),
            Some((next, rest)) => {
                let left = self.left(first, &next.value, slot)?;
                self.operand(next, left, slot, slot)?;
                for operand in rest {
                    self.operand(operand, slot, slot, slot)?;
                }
                Ok(slot)
            }
        }
    }

    /// What a lazy operator with its right operand makes of the value of a slot.
    #[cycle(expressions)]
    fn lazily(&mut self, operator: Lazy, right: &Expr, slot: usize) -> Result<(), AllocError>
        ensures emits { IfOk result (λ u. (start : Written) (e : ExprData) → Emits start self.old e slot
            → Emits start self.new (Lazily operator e (expr_of right.now)) slot) }
    {
        let branch = self.here();
        let past = self.behind();
        self.put(slot, jump_over(operator, slot, past))?;
        self.expression(right, slot)?;
        let end = self.here();
        self.lead(branch, jump_over(operator, slot, end));
        Ok(())
    }

    /// What a lazy operator makes of a row of operands.
    #[cycle(expressions)]
    fn lazy_row(
        &mut self,
        operator: Lazy,
        first: &Expr,
        others: &[Expr],
        slot: usize,
    ) -> Result<(), AllocError>
        ensures emits { IfOk result (λ u. Emits self.old self.new
            (all_lazies operator (expr_of first.now) others.now) slot) }
    {
        self.expression(first, slot)?;
        for other in others {
            self.lazily(operator, other, slot)?;
        }
        Ok(())
    }

    /// `condition ? then : otherwise`
    #[cycle(expressions)]
    fn conditional(
        &mut self,
        condition: &Expr,
        then: &Expr,
        otherwise: &Expr,
        slot: usize,
    ) -> Result<(), AllocError>
        ensures emits { IfOk result (λ u. Emits self.old self.new
            (Conditional (expr_of condition.now) (expr_of then.now) (expr_of otherwise.now)) slot) }
    {
        self.expression(condition, slot)?;
        let branch = self.here();
        let past = self.behind();
        self.put(
            slot,
            Instruction::JumpUnless {
                condition: slot,
                to: past,
            },
        )?;
        self.expression(then, slot)?;
        let back = self.here();
        let past_jump = self.behind();
        self.put(slot, Instruction::Jump { to: past_jump })?;
        let other = self.here();
        self.expression(otherwise, slot)?;
        let end = self.here();
        self.lead(
            branch,
            Instruction::JumpUnless {
                condition: slot,
                to: other,
            },
        );
        self.lead(back, Instruction::Jump { to: end });
        Ok(())
    }

    /// What links make of the value of an expression, one after the other.
    #[cycle(expressions)]
    fn path(&mut self, base: &Expr, links: &[Link], slot: usize) -> Result<(), AllocError>
        ensures emits { IfOk result (λ u. Emits self.old self.new (all_linked (expr_of base.now) links.now) slot) }
    {
        self.expression(base, slot)?;
        for link in links {
            self.link(link, slot)?;
        }
        Ok(())
    }

    /// What a link makes of the value of a slot.
    #[cycle(expressions)]
    fn link(&mut self, link: &Link, slot: usize) -> Result<(), AllocError>
        ensures emits { IfOk result (λ u. (start : Written) (e : ExprData) → Emits start self.old e slot
            → Emits start self.new (linked e link.now) slot) }
    {
        match link {
            Link::Member(member) => self.read_member(*member, slot),
            Link::Index { index, .. } => {
                let next = after(slot)?;
                self.expression(index, next)?;
                self.read_element(slot, next)
            }
            Link::Invoke {
                method,
                arguments,
                ..
            } => self.invoke(*method, arguments, slot),
        }
    }

    /// Appends the code of what a place names, which comes into slots from one on.
    #[cycle(expressions)]
    fn place(&mut self, place: &Place, slot: usize) -> Result<Spot, AllocError>
        ensures emits { IfOk result (λ spot. EmitsPlace self.old self.new (place_of place.now) spot slot) }
    {
        match place {
            Place::Variable(variable) => Ok(spot_of_variable(*variable)),
            Place::Member { object, member } => {
                self.expression(object, slot)?;
                Ok(spot_of_member(*member, slot))
            }
            Place::Element { array, index, .. } => {
                self.expression(array, slot)?;
                let next = after(slot)?;
                self.expression(index, next)?;
                Ok(Spot::Element {
                    array: slot,
                    index: next,
                })
            }
        }
    }

    /// Arguments, from left to right, in slots one after another.
    #[cycle(expressions)]
    fn arguments(&mut self, arguments: &[Expr], slot: usize) -> Result<(), AllocError>
        ensures emits { IfOk result (λ u. EmitsArguments self.old self.new (map expr_of arguments.now) slot) }
    {
        let mut next = slot;
        for argument in arguments {
            self.expression(argument, next)?;
            next = after(next)?;
        }
        Ok(())
    }

    /// What a method makes of the object in a slot. Its arguments are in the slots after that.
    #[cycle(expressions)]
    fn invoke(&mut self, method: Method, arguments: &[Expr], slot: usize) -> Result<(), AllocError>
        ensures emits { IfOk result (λ u. (start : Written) (e : ExprData) (parameters : List VarTypeData)
            → Emits start self.old e slot
            → Emits start self.new (Invoke e method parameters (exprs (map expr_of arguments.now))) slot) }
    {
        let first = after(slot)?;
        self.arguments(arguments, first)?;
        self.method(method, slot, first, arguments.len())
    }
}
