//! What a call names in a module.

ghost use Rattle.ash_typed.specs.Modules.{module_of};
ghost use Rattle.ash_requests.specs.States.{LoadedModule};
ghost use Rattle.ash_requests.specs.Tasks.{Invoke, call_in};
ghost use Rattle.ash_plain_steps.specs.TaskViews.{FindsFor};

use crate::arguments::{arguments_of, is_callable};
use crate::functions::place_of_function;
use ash_host::Word;
use ash_requests::sources::SourceReader;
use ash_requests::{Arg, Refusal};
use ash_typed::Module;
use std::alloc::Global;

/// The function that a call names, by its place, and the words of its arguments. Refused with, in this order,
/// `NoFunction`, `NotCallable` and `BadArguments`.
#[tactic(auto, using(crate::proofs::Asked::no_function, crate::proofs::Asked::nothing_there, crate::proofs::Asked::not_callable, crate::proofs::Asked::bad_arguments, crate::proofs::Asked::invoked))]
pub(crate) fn call_in<S: SourceReader>(
    alloc: Global,
    tree: &Module,
    name: &str,
    arguments: &[Arg],
) -> Result<(usize, Vec<Word>), Refusal<S::Fault>>
    ensures outcome { (m : LoadedModule) → FindsFor S.fault_seen S.TakesMemory
        (λ found. Invoke m (module_of tree.now) found.0 found.1.items) result
        (call_in m (module_of tree.now) name.now arguments.now) }
{
    let Some(place) = place_of_function(&tree.functions, name) else {
        return Err(Refusal::NoFunction);
    };
    let Some(function) = tree.functions.get(place) else {
        return Err(Refusal::NoFunction);
    };
    if !is_callable(function) {
        return Err(Refusal::NotCallable);
    }
    match arguments_of(alloc, &function.parameters, arguments)? {
        Some(words) => Ok((place, words)),
        None => Err(Refusal::BadArguments),
    }
}
