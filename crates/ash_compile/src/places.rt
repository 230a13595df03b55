//! The code of places: of what is read at them, written there, or both.
//!
//! What a place names is computed into slots first. It is tested as it is read or written.

ghost use Rattle.std.specs.Prelude.{◌≡◌, ◌+◌, IfOk, max};
ghost use Rattle.ash_typed.specs.declared.types.Element.{Element as ElementType};
ghost use Rattle.ash_typed.specs.TypedTree.{Expr as ExprData, Place as PlaceData, Read, Held, Indexed, Assign};
ghost use Rattle.ash_typed.specs.TypedTree.{Update, Count};
ghost use Rattle.ash_compile.specs.Emission.{Emits};
ghost use Rattle.ash_compile.specs.Conversions.{Converts};
ghost use Rattle.ash_compile.specs.Places.{spot_of_variable, spot_of_member, reading, writing, slot_of_old};
ghost use Rattle.ash_compile.specs.Places.{slot_of_new, EmitsPlace};
ghost use Rattle.ash_compile.specs.declared.builder.Written.{Written};

use crate::builder::CodeBuilder;
use ash_code::instruction::Instruction;
use ash_integers::IntType;
use ash_typed::{Calculation, IncrementOp, ObjectMember, VarType, Variable};
use std::alloc::AllocError;

/// Where the value of a place lies, once its object, or its array and its index, are in slots.
#[derive(Clone, Copy)]
pub enum Spot {
    Local { slot: usize },
    Global { place: usize },
    Field { object: usize, place: usize },
    Property { object: usize, id: u16, of: VarType },
    Element { array: usize, index: usize },
}

/// Where a variable lies.
pub fn spot_of_variable(variable: Variable) -> Spot
    ensures spot { result ≡ spot_of_variable variable }
{
    match variable {
        Variable::Local { slot, .. } => Spot::Local { slot },
        Variable::Global { place, .. } => Spot::Global { place },
    }
}

/// Where a member lies, of the object in a slot.
pub fn spot_of_member(member: ObjectMember, object: usize) -> Spot
    ensures spot { result ≡ spot_of_member member object }
{
    match member {
        ObjectMember::Field { place, .. } => Spot::Field { object, place },
        ObjectMember::Property { id, of } => Spot::Property { object, id, of },
    }
}

/// Reads what lies there. A local that is read here is no handle.
fn reading(spot: Spot, to: usize) -> Instruction
    ensures reads { result ≡ reading spot to }
{
    match spot {
        Spot::Local { slot: from } => Instruction::Move { from, to },
        Spot::Global { place } => Instruction::ReadGlobal { place, to },
        Spot::Field { object, place } => Instruction::ReadField { object, place, to },
        Spot::Property { object, id, of } => Instruction::GetProperty {
            object,
            id,
            var_type: of,
            to,
        },
        Spot::Element { array, index } => Instruction::ReadElement { array, index, to },
    }
}

/// Writes what is in a slot.
fn writing(spot: Spot, from: usize) -> Instruction
    ensures writes { result ≡ writing spot from }
{
    match spot {
        Spot::Local { slot: to } => Instruction::Move { from, to },
        Spot::Global { place } => Instruction::WriteGlobal { place, from },
        Spot::Field { object, place } => Instruction::WriteField {
            object,
            place,
            from,
        },
        Spot::Property { object, id, .. } => Instruction::SetProperty { object, id, from },
        Spot::Element { array, index } => Instruction::WriteElement { array, index, from },
    }
}

/// The slot of what was there before `++` or `--`, one of two. The first of them has what is given.
fn slot_of_old(step: IncrementOp, given: usize, other: usize) -> usize
    ensures slot { result ≡ slot_of_old step given other }
{
    match step {
        IncrementOp::Increment | IncrementOp::Decrement => other,
        IncrementOp::IncrementAfter | IncrementOp::DecrementAfter => given,
    }
}

/// The slot of what is there after it.
fn slot_of_new(step: IncrementOp, given: usize, other: usize) -> usize
    ensures slot { result ≡ slot_of_new step given other }
{
    match step {
        IncrementOp::Increment | IncrementOp::Decrement => given,
        IncrementOp::IncrementAfter | IncrementOp::DecrementAfter => other,
    }
}

impl CodeBuilder {
    /// Converts the integer of a slot, unless the types are equal.
    pub fn convert(&mut self, from: IntType, to: IntType, slot: usize) -> Result<(), AllocError>
        ensures converts { IfOk result (λ u. Converts self.old self.new from to slot) }
    {
        if from == to {
            return Ok(());
        }
        self.put(
            slot,
            Instruction::Convert {
                int_type: to,
                from: slot,
                to: slot,
            },
        )
    }

    /// Reads a member of the object in a slot.
    pub fn read_member(&mut self, member: ObjectMember, slot: usize) -> Result<(), AllocError>
        ensures emits { IfOk result (λ u. (start : Written) (e : ExprData) → Emits start self.old e slot
            → Emits start self.new (Read (Held e member)) slot) }
    {
        self.put(slot, reading(spot_of_member(member, slot), slot))
    }

    /// Reads an element of the array in a slot, by the index in the next one.
    pub fn read_element(&mut self, slot: usize, index: usize) -> Result<(), AllocError>
        requires next { index ≡ slot + 1 }
        ensures emits { IfOk result (λ u. (start mid : Written) (a i : ExprData) (of : ElementType)
            → Emits start mid a slot
            → Emits mid self.old i (slot + 1) → Emits start self.new (Read (Indexed a i of)) slot) }
    {
        self.put(slot, reading(Spot::Element { array: slot, index }, slot))
    }

    /// Stores the value of a slot at a place.
    pub fn assignment(&mut self, spot: Spot, slot: usize) -> Result<(), AllocError>
        ensures emits { IfOk result (λ u. (start mid : Written) (place : PlaceData) (e : ExprData)
            → Emits start mid e slot
            → EmitsPlace mid self.old place spot (slot + 1) → Emits start self.new (Assign place e) slot) }
    {
        self.put(slot, writing(spot, slot))
    }

    /// Calculates with what is at a place, and stores what comes out. The right operand is in a slot, the next one is
    /// free.
    pub fn update(
        &mut self,
        spot: Spot,
        of: IntType,
        calculation: Calculation,
        slot: usize,
        left: usize,
    ) -> Result<(), AllocError>
        requires next { left ≡ slot + 1 }
        ensures emits { IfOk result (λ u. (start mid : Written) (place : PlaceData) (e : ExprData)
            → Emits start mid e slot
            → EmitsPlace mid self.old place spot (slot + 2) → Emits start self.new (Update place of calculation e)
            slot) }
    {
        self.put(left, reading(spot, left))?;
        self.convert(of, calculation.of, left)?;
        self.put(
            slot,
            Instruction::Calculate {
                calculation,
                left,
                right: slot,
                to: slot,
            },
        )?;
        self.convert(calculation.of, of, slot)?;
        self.put(slot, writing(spot, slot))
    }

    /// Counts what is at a place up or down. What is given comes into a slot, the next one is free.
    pub fn step(
        &mut self,
        spot: Spot,
        of: IntType,
        step: IncrementOp,
        slot: usize,
        other: usize,
    ) -> Result<(), AllocError>
        requires next { other ≡ slot + 1 }
        ensures emits { IfOk result (λ u. (start : Written) (place : PlaceData)
            → EmitsPlace start self.old place spot (slot + 2)
            → Emits start self.new (Count place of step) slot) }
    {
        let old = slot_of_old(step, slot, other);
        let new = slot_of_new(step, slot, other);
        self.put(other, reading(spot, old))?;
        self.put(
            other,
            Instruction::Count {
                step,
                int_type: of,
                from: old,
                to: new,
            },
        )?;
        self.put(other, writing(spot, new))
    }
}
