//! The code of fields that a construction initializes, and of the globals of a module.
//!
//! Each value is a full expression of its own, which ends once the value is stored. What has none stays as it is.

ghost use Rattle.std.specs.Prelude.{◌≡◌, ◌+◌, IfOk, map};
ghost use Rattle.ash_typed.specs.BodyViews.{value_of};
ghost use Rattle.ash_typed.specs.Modules.{variables_of};
ghost use Rattle.ash_compile.specs.EmittedParts.{EmitsField, EmitsFields, EmitsGlobal, EmitsGlobals, EmitsDeclarations};

use crate::builder::CodeBuilder;
use ash_code::instruction::Instruction;
use ash_typed::{Initialization, Variables};
use std::alloc::AllocError;

/// The place so many behind one.
pub(crate) fn behind(place: usize, count: usize) -> Result<usize, AllocError>
    ensures place { IfOk result (λ behind. behind ≡ place + count) }
{
    place.checked_add(count).ok_or(AllocError)
}

impl CodeBuilder {
    /// A field of the object that is constructed, if it has a value. There are so many locals.
    fn field(
        &mut self,
        place: usize,
        field: &Initialization,
        locals: usize,
    ) -> Result<(), AllocError>
        ensures emits { IfOk result (λ u. EmitsField self.old self.new place (value_of field.now) locals) }
    {
        match &field.value {
            None => Ok(()),
            Some(value) => {
                self.expression(value, locals)?;
                self.put(
                    locals,
                    Instruction::WriteOwnField {
                        place,
                        from: locals,
                    },
                )?;
                self.put(locals, Instruction::EndExpression)
            }
        }
    }

    /// The fields of the object that is constructed, in order.
    pub(crate) fn fields(
        &mut self,
        fields: &[Initialization],
        locals: usize,
    ) -> Result<(), AllocError>
        ensures emits { IfOk result (λ u. EmitsFields self.old self.new 0 (map value_of fields.now) locals) }
    {
        let mut place: usize = 0;
        for field in fields {
            self.field(place, field, locals)?;
            place = behind(place, 1)?;
        }
        Ok(())
    }

    /// A global, if it has a value.
    fn global(&mut self, place: usize, global: &Initialization) -> Result<(), AllocError>
        ensures emits { IfOk result (λ u. EmitsGlobal self.old self.new place (value_of global.now)) }
    {
        match &global.value {
            None => Ok(()),
            Some(value) => {
                self.expression(value, 0)?;
                self.put(0, Instruction::WriteGlobal { place, from: 0 })?;
                self.put(0, Instruction::EndExpression)
            }
        }
    }

    /// Globals from a place on, in order.
    fn globals(&mut self, first: usize, globals: &[Initialization]) -> Result<(), AllocError>
        ensures emits { IfOk result (λ u. EmitsGlobals self.old self.new first (map value_of globals.now)) }
    {
        let mut place = first;
        for global in globals {
            self.global(place, global)?;
            place = behind(place, 1)?;
        }
        Ok(())
    }

    /// The globals of a module, in order, with a tick for each declaration.
    pub(crate) fn module_globals(&mut self, variables: &[Variables]) -> Result<(), AllocError>
        ensures emits { IfOk result (λ u. EmitsDeclarations self.old self.new 0 (map variables_of variables.now)) }
    {
        let mut place: usize = 0;
        for declared in variables {
            self.tick(declared.line, 0)?;
            self.globals(place, &declared.initializations)?;
            place = behind(place, declared.initializations.len())?;
        }
        Ok(())
    }
}
