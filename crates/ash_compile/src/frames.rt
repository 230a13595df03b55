//! The code of functions, of constructions, and of the initializers of a module.
//!
//! A function begins with the tick of its entry; its parameters are its first locals. A construction initializes the
//! fields of its object next, and gives the object however its body is left. The initializers of a module take a tick
//! for each declaration, and none of their own.

ghost use Rattle.std.specs.Prelude.{◌≡◌, IfOk, List, map};
ghost use Rattle.ash_typed.specs.BodyViews.{value_of, body_of};
ghost use Rattle.ash_typed.specs.Modules.{Module as ModuleData, Class as ClassData, class_of, function_of};
ghost use Rattle.ash_typed.specs.Modules.{variables_of};
ghost use Rattle.ash_compile.specs.EmittedFrames.{frame_of_function, frame_of_method, frame_of_construction};
ghost use Rattle.ash_compile.specs.EmittedFrames.{IsFrameCode, IsInitCode, IsCodeOfAny};

use crate::bodies::function_end;
use crate::builder::CodeBuilder;
use ash_code::code::FunctionCode;
use ash_code::instruction::Instruction;
use ash_typed::{Class, Function, Initialization, Stmt, Variables};
use std::alloc::{AllocError, Global};

/// A line, as instructions have it.
fn entry_line(line: usize) -> Result<u32, AllocError>
    ensures line { IfOk result (λ entry. entry ≡ line) }
{
    u32::try_from(line).map_err(|_| AllocError)
}

impl CodeBuilder {
    /// A frame that is entered at a line, initializes fields, and does statements.
    fn frame(
        &mut self,
        alloc: Global,
        line: usize,
        parameters: usize,
        fields: &[Initialization],
        body: &[Stmt],
        constructs: bool,
    ) -> Result<FunctionCode, AllocError>
        ensures code { IfOk result (λ code. IsCodeOfAny self.old.layout line parameters (map value_of fields.now)
            (body_of body.now) constructs code) }
        ensures layout { IfOk result (λ code. self.new.layout ≡ self.old.layout) }
    {
        let entry = entry_line(line)?;
        self.clear(alloc);
        self.tick(line, parameters)?;
        self.fields(fields, parameters)?;
        self.body(alloc, body, parameters, constructs)?;
        self.finish(alloc, entry, parameters, function_end(constructs))
    }

    /// The code of a function or of a method.
    pub(crate) fn function(
        &mut self,
        alloc: Global,
        function: &Function,
    ) -> Result<FunctionCode, AllocError>
        ensures function { IfOk result (λ code. IsFrameCode self.old.layout
            (frame_of_function (function_of function.now)) code) }
        ensures method { IfOk result (λ code. (class : ClassData) → IsFrameCode self.old.layout
            (frame_of_method class (function_of function.now)) code) }
        ensures layout { IfOk result (λ code. self.new.layout ≡ self.old.layout) }
    {
        self.frame(
            alloc,
            function.line,
            function.parameters.len(),
            &[],
            &function.body,
            false,
        )
    }

    /// The code of the construction of an object of a class.
    pub(crate) fn construction(
        &mut self,
        alloc: Global,
        class: &Class,
    ) -> Result<FunctionCode, AllocError>
        ensures construction { IfOk result (λ code. IsFrameCode self.old.layout
            (frame_of_construction (class_of class.now)) code) }
        ensures layout { IfOk result (λ code. self.new.layout ≡ self.old.layout) }
    {
        match &class.constructor {
            Some(constructor) => self.frame(
                alloc,
                constructor.line,
                constructor.parameters.len(),
                &class.fields,
                &constructor.body,
                true,
            ),
            None => self.frame(alloc, class.line, 0, &class.fields, &[], true),
        }
    }

    /// The code of the initializers of a module.
    pub(crate) fn initializers(
        &mut self,
        alloc: Global,
        variables: &[Variables],
    ) -> Result<FunctionCode, AllocError>
        ensures code { IfOk result (λ code. (m : ModuleData) → m.globals ≡ map variables_of variables.now
            → IsInitCode self.old.layout m code) }
    {
        self.clear(alloc);
        self.module_globals(variables)?;
        self.finish(alloc, 1, 0, Instruction::ReturnNothing)
    }
}
