//! How a run ended, with the names of functions.

ghost use Rattle.std.specs.Prelude.{◌≡◌, ◌++◌, IfOk, List, codes, flat_map, map, slice_get, string_bytes};
ghost use Rattle.std.specs.Option.{option_map_or};
ghost use Rattle.ash_typed.specs.Modules.{Class as ClassData, class_of, module_of};
ghost use Rattle.ash_meaning.specs.Classes.{Entry, entry_of_construction, entry_of_method};
ghost use Rattle.ash_requests.specs.OutcomeViews.{end_seen};
ghost use Rattle.ash_engine.specs.TableRuns.{end_named};
ghost use Rattle.ash_engine.specs.TableTasks.{entry_name};

use ash_context::outcome::Outcome as RunOutcome;
use ash_plain_steps::shown::dotted;
use ash_requests::Outcome;
use ash_typed::{Class, Module};
use std::alloc::{AllocError, Global};

/// The name of the initializers of a module.
const INIT: &str = "(init)";

/// The name of the method at a place among those of all classes. What is behind the last is the initializers.
fn method_name(alloc: Global, classes: &[Class], place: usize) -> Result<String, AllocError>
    ensures name { IfOk result (λ name. string_bytes name
        ≡ option_map_or (λ (e : Entry). e.name)
        (slice_get (flat_map (λ (c : ClassData). map (entry_of_method c) c.methods) (map class_of classes.now)) place)
        (codes "(init)")) }
{
    let mut rest = place;
    for class in classes {
        if rest < class.methods.len() {
            return dotted(
                alloc,
                class.name.as_str(),
                class.methods[rest].name.as_str(),
            );
        }
        rest -= class.methods.len();
    }
    String::from_str(alloc, INIT)
}

/// The name of what is entered behind the free functions: constructions by class, then methods.
fn member_name(alloc: Global, classes: &[Class], place: usize) -> Result<String, AllocError>
    ensures name { IfOk result (λ name. string_bytes name
        ≡ option_map_or (λ (e : Entry). e.name)
        (slice_get (map entry_of_construction (map class_of classes.now)
        ++ flat_map (λ (c : ClassData). map (entry_of_method c) c.methods) (map class_of classes.now)) place)
        (codes "(init)")) }
{
    if place < classes.len() {
        let name = classes[place].name.as_str();
        return dotted(alloc, name, name);
    }
    method_name(alloc, classes, place - classes.len())
}

/// The name of what is entered by the code of a module, by its place among the functions of the code.
fn name_of(alloc: Global, tree: &Module, function: usize) -> Result<String, AllocError>
    ensures name { IfOk result (λ name. string_bytes name
        ≡ entry_name (module_of tree.now) function) }
{
    if function < tree.functions.len() {
        return String::from_str(alloc, tree.functions[function].name.as_str());
    }
    member_name(alloc, &tree.classes, function - tree.functions.len())
}

/// How a run of the code of a module ended, as it is replied.
pub(crate) fn outcome_of(
    alloc: Global,
    tree: &Module,
    outcome: RunOutcome,
) -> Result<Outcome, AllocError>
    ensures end { IfOk result (λ named. end_seen named
        ≡ end_named (entry_name (module_of tree.now)) outcome) }
{
    match outcome {
        RunOutcome::Finished(value) => Ok(Outcome::Finished(value)),
        RunOutcome::Exception {
            code,
            function,
            line,
        } => Ok(Outcome::Exception {
            code,
            function: name_of(alloc, tree, function)?,
            line: line as usize,
        }),
        RunOutcome::Aborted { function, line } => Ok(Outcome::Aborted {
            function: name_of(alloc, tree, function)?,
            line: line as usize,
        }),
    }
}
