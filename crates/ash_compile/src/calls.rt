//! The code of calls, once their arguments are in slots.

ghost use Rattle.std.specs.Prelude.{◌≡◌, ◌+◌, List, length, IfOk, Option, None, true};
ghost use Rattle.ash_typed.specs.declared.types.VarType.{VarType as VarTypeData};
ghost use Rattle.ash_typed.specs.TypedTree.{Expr as ExprData, Call, Invoke, exprs};
ghost use Rattle.ash_code.specs.Validity.{target};
ghost use Rattle.ash_compile.specs.Emission.{end_of, Keeps, Puts, Emits};
ghost use Rattle.ash_compile.specs.ValidCode.{MayStand, has_callee};
ghost use Rattle.ash_compile.specs.Arguments.{EmitsArguments};
ghost use Rattle.ash_compile.specs.declared.builder.Written.{Written};

use crate::builder::CodeBuilder;
use crate::named_slots::has_callee;
use ash_code::instruction::Instruction;
use ash_typed::{ArrayMethod, CallTarget, Element, Method, VarType};
use std::alloc::AllocError;

impl CodeBuilder {
    /// Calls what is no method. Its arguments are in so many slots from one on, where it leaves its value.
    pub(crate) fn call(
        &mut self,
        target: CallTarget,
        slot: usize,
        count: usize,
    ) -> Result<(), AllocError>
        ensures emits { IfOk result (λ u. (start : Written) (parameters : List VarTypeData) (es : List ExprData)
            → EmitsArguments start self.old es slot → length es ≡ count
            → Emits start self.new (Call target parameters (exprs es)) slot) }
    {
        match target {
            CallTarget::Function { function, .. } => self.enter(
                Instruction::Call { function, at: slot },
                slot,
            ),
            CallTarget::Service {
                service,
                id,
                result,
            } => self.put(
                slot,
                Instruction::CallService {
                    service,
                    id,
                    result,
                    at: slot,
                    count,
                },
            ),
            CallTarget::Class(class) => self.enter(
                Instruction::Construct { class, at: slot },
                slot,
            ),
            CallTarget::Host(kind) => self.put(
                slot,
                Instruction::ConstructHost {
                    kind,
                    at: slot,
                    count,
                },
            ),
            CallTarget::Array(of) => self.construct_array(of, slot, count),
        }
    }

    /// Enters a function that leaves its value in a slot. One that is not there is not entered: no sound module calls
    /// it.
    fn enter(&mut self, call: Instruction, slot: usize) -> Result<(), AllocError>
        requires leads { target call ≡ None }
        ensures keeps { IfOk result (λ u. Keeps self.old self.new) }
        ensures puts { IfOk result (λ u. has_callee self.old.layout call ≡ true → Puts self.old self.new slot call) }
    {
        if has_callee(self.layout(), call) {
            self.put(slot, call)
        } else {
            Ok(())
        }
    }

    /// Constructs an array, whose one argument is its length.
    fn construct_array(&mut self, of: Element, slot: usize, count: usize) -> Result<(), AllocError>
        ensures emits { IfOk result (λ u. (start : Written) (parameters : List VarTypeData) (es : List ExprData)
            → EmitsArguments start self.old es slot → length es ≡ count
            → Emits start self.new (Call (CallTarget.Array of) parameters (exprs es)) slot) }
    {
        let element = self.layout().element(of);
        if count == 0 {
            self.put(slot, Instruction::ConstructArray { element, to: slot })
        } else {
            self.put(
                slot,
                Instruction::ConstructArrayOf {
                    element,
                    len: slot,
                    to: slot,
                },
            )
        }
    }

    /// Calls a method of the object in a slot, where it leaves its value. Its arguments are in so many slots from the
    /// next one on.
    pub(crate) fn method(
        &mut self,
        method: Method,
        slot: usize,
        first: usize,
        count: usize,
    ) -> Result<(), AllocError>
        requires next { first ≡ slot + 1 }
        ensures emits { IfOk result (λ u. (start mid : Written) (e : ExprData) (parameters : List VarTypeData)
            (es : List ExprData) → Emits start mid e slot → EmitsArguments mid self.old es (slot + 1)
            → length es ≡ count → Emits start self.new (Invoke e method parameters (exprs es)) slot) }
    {
        match method {
            Method::Script { class, method, .. } => self.class_method(class, method, slot, first),
            Method::Interface {
                interface,
                method,
                ..
            } => {
                let call = Instruction::CallInterface {
                    interface,
                    method,
                    object: slot,
                    at: first,
                };
                self.put_and_move(call, first, slot)
            }
            Method::Host { id, result } => {
                let call = Instruction::CallHost {
                    object: slot,
                    id,
                    result,
                    at: first,
                    count,
                };
                self.put_and_move(call, first, slot)
            }
            Method::Array(method) => self.array_method(method, slot, first),
        }
    }

    /// Calls a method of a class. One that is not there is not called: no sound module calls it.
    fn class_method(
        &mut self,
        class: usize,
        method: usize,
        slot: usize,
        first: usize,
    ) -> Result<(), AllocError>
        requires next { first ≡ slot + 1 }
        ensures emits { IfOk result (λ u. (start mid : Written) (gives : Option VarTypeData) (e : ExprData)
            (parameters : List VarTypeData) (es : List ExprData) → Emits start mid e slot
            → EmitsArguments mid self.old es (slot + 1)
            → Emits start self.new (Invoke e (Method.Script class method gives) parameters (exprs es)) slot) }
    {
        match self.layout().method(class, method) {
            Some(function) => {
                let call = Instruction::CallMethod {
                    function,
                    object: slot,
                    at: first,
                };
                self.put_and_move(call, first, slot)
            }
            None => Ok(()),
        }
    }

    /// Appends an instruction that leaves its value in a slot, and moves that to another one.
    fn put_and_move(
        &mut self,
        instruction: Instruction,
        from: usize,
        to: usize,
    ) -> Result<(), AllocError>
        requires stands { MayStand self.old.layout (end_of self.old + 1) (end_of self.old) instruction }
        ensures puts { IfOk result (λ u. (mid : Written) × Puts self.old mid from instruction
            × Puts mid self.new to (Instruction.Move from to)) }
    {
        self.put(from, instruction)?;
        self.put(to, Instruction::Move { from, to })
    }

    /// Calls a method of the array in a slot.
    fn array_method(
        &mut self,
        method: ArrayMethod,
        slot: usize,
        first: usize,
    ) -> Result<(), AllocError>
        requires next { first ≡ slot + 1 }
        ensures emits { IfOk result (λ u. (start mid : Written) (e : ExprData) (parameters : List VarTypeData)
            (es : List ExprData) → Emits start mid e slot → EmitsArguments mid self.old es (slot + 1)
            → Emits start self.new (Invoke e (Method.Array method) parameters (exprs es)) slot) }
    {
        match method {
            ArrayMethod::Length => self.put(
                slot,
                Instruction::Length {
                    array: slot,
                    to: slot,
                },
            ),
            ArrayMethod::IsEmpty => self.put(
                slot,
                Instruction::IsEmpty {
                    array: slot,
                    to: slot,
                },
            ),
            ArrayMethod::Resize => self.put(
                slot,
                Instruction::Resize {
                    array: slot,
                    len: first,
                    to: slot,
                },
            ),
            ArrayMethod::InsertLast => self.put(
                slot,
                Instruction::InsertLast {
                    array: slot,
                    from: first,
                    to: slot,
                },
            ),
            ArrayMethod::RemoveLast => self.put(
                slot,
                Instruction::RemoveLast {
                    array: slot,
                    to: slot,
                },
            ),
        }
    }
}
