//! The modules of a state, by ascending name.

ghost use Rattle.std.specs.Prelude.{◌≡◌, ◌++◌, IfOk, OnOk};
ghost use Rattle.std.specs.List.{position};
ghost use Rattle.std.specs.Ordering.{is_lt};
ghost use Rattle.ash_host.specs.Objects.{handles};
ghost use Rattle.ash_requests.specs.States.{compare_names, has_name, with_module, globals_of};
ghost use Rattle.ash_plain_steps.specs.StateViews.{loaded_seen, modules_seen};
ghost use Rattle.ash_plain_steps.specs.Consistency.{IsModuleInserted};

use crate::state::LoadedModule;
use ash_host::Word;
use std::alloc::{AllocError, Global};

/// The most modules that a state has.
pub const MAX_MODULES: usize = 16;

/// The place of the module of this name.
pub(crate) fn place_of(modules: &[LoadedModule], name: &str) -> Option<usize>
    ensures value { result ≡ position (λ m. has_name name.now (loaded_seen m)) modules.now }
{
    modules.iter().position(|m| m.name.as_str() == name)
}

/// The place of the first module whose name comes after this one.
pub fn place_after(modules: &[LoadedModule], name: &str) -> Option<usize>
    ensures value { result ≡ position (λ m. is_lt (compare_names name.now (loaded_seen m).name))
        modules.now }
{
    modules.iter().position(|m| name < m.name.as_str())
}

/// Inserts a module at the place of its name. An `Err` means that memory was refused.
pub(crate) fn insert(
    modules: &mut Vec<LoadedModule>,
    loaded: LoadedModule,
) -> Result<(), AllocError>
    ensures by_name { OnOk result (modules_seen modules.new.items
        ≡ with_module (loaded_seen loaded) (modules_seen modules.old.items)) }
    ensures at_a_place { OnOk result (IsModuleInserted loaded modules.old.items modules.new.items) }
{
    let place = place_after(modules, loaded.name.as_str()).unwrap_or(modules.len());
    modules.insert(place, loaded)?;
    Ok(())
}

/// Appends the objects that words are handles to.
pub fn push_handles(words: &[Word], numbers: &mut Vec<u64>) -> Result<(), AllocError>
    ensures value { OnOk result (numbers.new.items ≡ numbers.old.items ++ handles words.now) }
{
    for word in words {
        if let Word::Object(number) = word {
            numbers.push(*number)?;
        }
    }
    Ok(())
}

/// The objects that the globals of modules are handles to. An `Err` means that memory was refused.
pub(crate) fn handles_of(alloc: Global, modules: &[LoadedModule]) -> Result<Vec<u64>, AllocError>
    ensures value { IfOk result (λ numbers. numbers.items
        ≡ handles (globals_of (modules_seen modules.now))) }
{
    let mut numbers = Vec::new(alloc);
    for m in modules {
        push_handles(&m.globals, &mut numbers)?;
    }
    Ok(numbers)
}
