//! The code of a module.

ghost use Rattle.std.specs.Prelude.{◌≡◌, ◌++◌, IfOk, List, map};
ghost use Rattle.std.specs.List.{AllZip, flat_map};
ghost use Rattle.ash_typed.specs.Modules.{Class as ClassData, class_of, function_of, module_of};
ghost use Rattle.ash_soundness.specs.WellFormed.{Context, IsContext};
ghost use Rattle.ash_code.specs.CompiledCode.{IsCodeOf};
ghost use Rattle.ash_compile.specs.declared.layout.Layout.{Layout as LayoutData};
ghost use Rattle.ash_compile.specs.EmittedFrames.{FrameSource, frame_of_function, frame_of_method};
ghost use Rattle.ash_compile.specs.EmittedFrames.{frame_of_construction, frames_of, methods_of, IsFrameCode};
ghost use Rattle.ash_compile.specs.EmittedFrames.{IsCompiled};

use crate::builder::CodeBuilder;
use crate::classes::class_codes;
use crate::layout::Layout;
use ash_code::code::{Code, CodeParts, FunctionCode};
use ash_host::NoMemory;
use ash_typed::{Class, Function, Module};
use std::alloc::{AllocError, Global};

impl CodeBuilder {
    /// Adds the code of functions.
    fn add_functions(
        &mut self,
        alloc: Global,
        codes: &mut Vec<FunctionCode>,
        functions: &[Function],
    ) -> Result<(), AllocError>
        ensures added { IfOk result (λ u. (xs : List FrameSource)
            → AllZip (IsFrameCode self.old.layout) xs codes.old.items
            → AllZip (IsFrameCode self.old.layout) (xs ++ map frame_of_function (map function_of functions.now))
            codes.new.items) }
        ensures layout { IfOk result (λ u. self.new.layout ≡ self.old.layout) }
    {
        for function in functions {
            let code = self.function(alloc, function)?;
            codes.push(code)?;
        }
        Ok(())
    }

    /// Adds the code of the constructions of classes.
    fn add_constructions(
        &mut self,
        alloc: Global,
        codes: &mut Vec<FunctionCode>,
        classes: &[Class],
    ) -> Result<(), AllocError>
        ensures added { IfOk result (λ u. (xs : List FrameSource)
            → AllZip (IsFrameCode self.old.layout) xs codes.old.items
            → AllZip (IsFrameCode self.old.layout) (xs ++ map frame_of_construction (map class_of classes.now))
            codes.new.items) }
        ensures layout { IfOk result (λ u. self.new.layout ≡ self.old.layout) }
    {
        for class in classes {
            let code = self.construction(alloc, class)?;
            codes.push(code)?;
        }
        Ok(())
    }

    /// Adds the code of the methods of a class.
    fn add_methods(
        &mut self,
        alloc: Global,
        codes: &mut Vec<FunctionCode>,
        methods: &[Function],
    ) -> Result<(), AllocError>
        ensures added { IfOk result (λ u. (class : ClassData) (xs : List FrameSource)
            → AllZip (IsFrameCode self.old.layout) xs codes.old.items
            → AllZip (IsFrameCode self.old.layout) (xs ++ map (frame_of_method class) (map function_of methods.now))
            codes.new.items) }
        ensures layout { IfOk result (λ u. self.new.layout ≡ self.old.layout) }
    {
        for method in methods {
            let code = self.function(alloc, method)?;
            codes.push(code)?;
        }
        Ok(())
    }

    /// Adds the code of the methods of classes, class by class.
    fn add_all_methods(
        &mut self,
        alloc: Global,
        codes: &mut Vec<FunctionCode>,
        classes: &[Class],
    ) -> Result<(), AllocError>
        ensures added { IfOk result (λ u. (xs : List FrameSource)
            → AllZip (IsFrameCode self.old.layout) xs codes.old.items
            → AllZip (IsFrameCode self.old.layout) (xs ++ flat_map methods_of (map class_of classes.now))
            codes.new.items) }
        ensures layout { IfOk result (λ u. self.new.layout ≡ self.old.layout) }
    {
        for class in classes {
            self.add_methods(alloc, codes, &class.methods)?;
        }
        Ok(())
    }

    /// The code of the functions, the constructions and the methods of a module.
    fn functions(&mut self, alloc: Global, tree: &Module) -> Result<Vec<FunctionCode>, AllocError>
        ensures functions { IfOk result (λ codes. AllZip (IsFrameCode self.old.layout)
            (frames_of (module_of tree.now)) codes.items) }
        ensures layout { IfOk result (λ codes. self.new.layout ≡ self.old.layout) }
    {
        let mut codes = Vec::new(alloc);
        self.add_functions(alloc, &mut codes, &tree.functions)?;
        self.add_constructions(alloc, &mut codes, &tree.classes)?;
        self.add_all_methods(alloc, &mut codes, &tree.classes)?;
        Ok(codes)
    }
}

/// The code of a module that has this slot in the table of objects.
fn compile_parts(alloc: Global, tree: &Module, slot: u8) -> Result<CodeParts, AllocError>
    ensures slot { IfOk result (λ parts. parts.module ≡ slot) }
    ensures compiled { IfOk result (λ parts. (layout : LayoutData) × IsCompiled layout (module_of tree.now) parts) }
{
    let layout = Layout::new(alloc, slot, tree)?;
    let classes = class_codes(alloc, &layout, &tree.classes)?;
    let mut code = CodeBuilder::new(alloc, layout);
    let functions = code.functions(alloc, tree)?;
    let init = code.initializers(alloc, &tree.globals)?;
    Ok(CodeParts {
        module: slot,
        functions,
        init,
        classes,
    })
}

/// Compiles a module that has this slot in the table of objects. Whatever runs on its code comes to the end that the
/// tree says: each function called from outside, with any arguments and any budget, and the initializers.
///
/// # Errors
///
/// If there is no memory. A place, a line, a slot or the constant of a label that is too great counts as that, and
/// nothing else does: code is valid, whatever the module is.
pub fn compile(alloc: Global, tree: &Module, slot: u8) -> Result<Code, NoMemory>
    ensures slot { IfOk result (λ code. code.module ≡ slot) }
    ensures compiled { IfOk result (λ code. (c : Context) → IsContext c
        → (c.program).tree ≡ module_of tree.now → IsCodeOf code c) }
{
    let parts = compile_parts(alloc, tree, slot)?;
    let code = Code::new(alloc, parts)?;
    Ok(code)
}
