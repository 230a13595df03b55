//! The code of the modules of a live state.

ghost use Rattle.std.specs.Prelude.{◌≡◌, ◌≤◌, length, IfOk};
ghost use Rattle.ash_typed.specs.Modules.{module_of};
ghost use Rattle.ash_plain_steps.specs.StateViews.{modules_seen};
ghost use Rattle.ash_table_states.specs.TableStates.{places_from};
ghost use Rattle.ash_engine.specs.TableStates.{slots_of, IsCodeOfTree, AreCompiled};

use crate::live::Compiled;
use ash_compile::module::compile;
use ash_context::context::Context;
use ash_host::NoMemory;
use ash_plain_steps::state::LoadedModule;
use ash_typed::Module;
use std::alloc::Global;

/// The code of a module that has this slot in the table, with memory for its runs.
pub(crate) fn compiled_for(alloc: Global, tree: &Module, slot: u8) -> Result<Compiled, NoMemory>
    ensures slot { IfOk result (λ c. c.code.module ≡ slot) }
    ensures compiled { IfOk result (λ c. IsCodeOfTree (module_of tree.now) c) }
{
    let code = compile(alloc, tree, slot)?;
    let context = Context::new(alloc, &code)?;
    Ok(Compiled { code, context })
}

/// The code of modules. The slot of each is its index.
pub(crate) fn compile_all(
    alloc: Global,
    modules: &[LoadedModule],
) -> Result<Vec<Compiled>, NoMemory>
    requires few { length modules.now ≤ 16 }
    ensures compiled { IfOk result (λ all. AreCompiled modules.now all.items) }
    ensures slots { IfOk result (λ all. slots_of all.items
        ≡ places_from 0 (modules_seen modules.now)) }
{
    let mut all = Vec::with_capacity(alloc, modules.len())?;
    for (place, module) in modules.iter().enumerate() {
        let compiled = compiled_for(alloc, &module.tree, place as u8)?;
        all.push(compiled)?;
    }
    Ok(all)
}
