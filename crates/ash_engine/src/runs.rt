//! Runs of functions that are called from outside.

ghost use Rattle.std.specs.Prelude.{◌≡◌, ◌<◌, ◌≤◌, ◌+◌, ◌++◌, ℕ, List, [], All, IsTrue, set, length, map, slice_get};
ghost use Rattle.std.specs.Prelude.{Some, Ok, Err, IfOk, IfErr, OnErr, OnOk};
ghost use Rattle.std.specs.List.{remove};
ghost use Rattle.ash_host.specs.Objects.{handles};
ghost use Rattle.ash_typed.specs.Modules.{module_of};
ghost use Rattle.ash_meaning.specs.Ends.{End};
ghost use Rattle.ash_requests.specs.OutcomeViews.{end_seen};
ghost use Rattle.ash_requests.specs.RequestViews.{reply_seen};
ghost use Rattle.ash_requests.specs.Requests.{NoMemory as NoMemoryRefusal, Refused};
ghost use Rattle.ash_requests.specs.States.{globals_of};
ghost use Rattle.ash_requests.specs.Tasks.{max_seq};
ghost use Rattle.ash_run_steps.specs.RunStates.{HoldsRoots, is_alive_in};
ghost use Rattle.ash_context.specs.declared.outcome.Outcome as outcomes;
ghost use Rattle.ash_context.specs.declared.outcome.RunFault.TheVariants as faults;
ghost use Rattle.ash_plain_steps.specs.StateViews.{modules_seen};
ghost use Rattle.ash_plain_steps.specs.declared.state.LoadedModule.{LoadedModule as LoadedData};
ghost use Rattle.ash_plain_steps.specs.declared.task.Task.TheVariants as tasks;
ghost use Rattle.ash_sources.specs.SourceFaults.{fault_of};
ghost use Rattle.ash_engine.specs.declared.changes.ModuleChange.{ModuleChange as ChangeData};
ghost use Rattle.ash_engine.specs.declared.live.Compiled.{Compiled as CompiledData};
ghost use Rattle.ash_engine.specs.TableRuns.{end_named, SaysOfCall, IsLent, IsGivenBack, IsAnswered};
ghost use Rattle.ash_engine.specs.NamedChanges.{IsChangeOf};
ghost use Rattle.ash_engine.specs.TableSteps.{IsStepOf};
ghost use Rattle.ash_engine.specs.TableTasks.{codes_of, entry_name, IsAsked};

use crate::changes::{ModuleChange, change_of_globals, take_changes};
use crate::live::{Compiled, Live, Rest};
use crate::names::outcome_of;
use crate::steps::LiveStep;
use ash_context::context::Left;
use ash_context::outcome::RunFault;
use ash_host::{Event, HostObject, Word};
use ash_plain_steps::modules::push_handles;
use ash_plain_steps::state::LoadedModule;
use ash_plain_steps::task::Invocation;
use ash_requests::{Answer, Outcome, Refusal, Reply, StepError};
use ash_run_steps::beginning::Parts;
use std::alloc::{AllocError, Global};
use std::mem;

/// The step that refuses a request for want of memory, and changes nothing.
pub(crate) fn without_memory<B>(live: Live<B>) -> LiveStep<B>
    ensures refused { reply_seen fault_of result.reply ≡ Refused NoMemoryRefusal }
    ensures unchanged { result.live ≡ live }
{
    LiveStep {
        reply: Reply::Refused(Refusal::NoMemory),
        live,
    }
}

/// The step that answers how a run ended, with its events.
///
/// The live state has what the request changed, and the marks of its table are cleared.
pub(crate) fn answered<B: HostObject>(
    live: Live<B>,
    outcome: Outcome,
    events: Vec<Event>,
    modules: ModuleChange,
) -> Result<LiveStep<B>, StepError>
    requires numbered { live.loaded.seq < max_seq }
    ensures answered { IfOk result (λ one. IsAnswered live (end_seen outcome) events.items modules one) }
    ensures memory { IfErr result (λ error. error ≡ StepError.NoMemory) }
{
    let mut live = live;
    let Ok(changes) = take_changes(live.loaded.alloc, &mut live.table, &events, modules) else {
        return Err(StepError::NoMemory);
    };
    live.changes = changes;
    live.loaded.seq += 1;
    let seq = live.loaded.seq;
    Ok(LiveStep {
        reply: Reply::Answer(Answer {
            outcome,
            seq,
            events,
        }),
        live,
    })
}

/// Appends the objects that the globals of modules are handles to.
fn push_all_handles(modules: &[LoadedModule], numbers: &mut Vec<u64>) -> Result<(), AllocError>
    ensures value { OnOk result (numbers.new.items
        ≡ numbers.old.items ++ handles (globals_of (modules_seen modules.now))) }
{
    for m in modules {
        push_handles(&m.globals, numbers)?;
    }
    Ok(())
}

/// The objects that the globals of modules are handles to. An `Err` means that memory was refused.
pub(crate) fn handles_of(alloc: Global, modules: &[LoadedModule]) -> Result<Vec<u64>, AllocError>
    ensures value { IfOk result (λ numbers. numbers.items
        ≡ handles (globals_of (modules_seen modules.now))) }
{
    let mut numbers = Vec::new(alloc);
    push_all_handles(modules, &mut numbers)?;
    Ok(numbers)
}

/// The objects that the globals of all modules but the one at a place are handles to.
fn handles_beside(
    alloc: Global,
    modules: &[LoadedModule],
    place: usize,
) -> Result<Vec<u64>, AllocError>
    requires within { place < length modules.now }
    ensures value { IfOk result (λ numbers. numbers.items
        ≡ handles (globals_of (modules_seen (remove modules.now place)))) }
{
    let mut numbers = Vec::new(alloc);
    push_all_handles(&modules[..place], &mut numbers)?;
    push_all_handles(&modules[place + 1..], &mut numbers)?;
    Ok(numbers)
}

/// What is held before a run of the module at a place: the objects that the globals of all other modules are handles
/// to, and what its own globals hold, so that those that hold other words after it are known.
fn held_before(
    alloc: Global,
    modules: &[LoadedModule],
    place: usize,
) -> Result<(Vec<u64>, Vec<Word>), AllocError>
    requires within { place < length modules.now }
    ensures value { IfOk result (λ held. held.0.items
        ≡ handles (globals_of (modules_seen (remove modules.now place)))) }
    ensures globals { (m : LoadedData) → slice_get modules.now place ≡ Some m
        → IfOk result (λ held. held.1.items ≡ m.globals.items) }
{
    let outside = handles_beside(alloc, modules, place)?;
    let globals = Vec::from_slice(alloc, &modules[place].globals)?;
    Ok((outside, globals))
}

/// Gives the module at a place other globals, and returns what it had.
fn replace_globals(modules: &mut Vec<LoadedModule>, place: usize, globals: Vec<Word>) -> Vec<Word>
    requires within { place < length modules.old.items }
    ensures value { (m : LoadedData) → slice_get modules.old.items place ≡ Some m
        → (result ≡ m.globals)
        × (modules.new.items ≡ set modules.old.items place (record m { globals = globals })) }
{
    mem::replace(&mut modules[place].globals, globals)
}

/// What a run of the module at a place takes, and what rests.
fn lend<B: HostObject>(live: Live<B>, place: usize, outside: Vec<u64>) -> (Rest, Parts<B>)
    requires within { place < length live.loaded.modules.items }
    ensures lent { (m : LoadedData) → slice_get live.loaded.modules.items place ≡ Some m
        → IsLent live place m outside.items result.0 result.1 }
{
    let Live {
        mut loaded,
        compiled,
        table,
        changes,
    } = live;
    let alloc = loaded.alloc;
    let globals = replace_globals(&mut loaded.modules, place, Vec::new(alloc));
    let parts = Parts {
        table,
        globals,
        outside,
        events: Vec::new(alloc),
    };
    let rest = Rest {
        loaded,
        compiled,
        changes,
    };
    (rest, parts)
}

/// Runs a function of the code of the module at a place.
fn run_at<B: HostObject>(
    compiled: &mut Vec<Compiled>,
    place: usize,
    parts: Parts<B>,
    function: usize,
    args: &[Word],
    budget: u64,
) -> Left<B>
    requires within { place < length compiled.old.items }
    requires held { HoldsRoots parts.table (parts.outside.items ++ handles parts.globals.items) }
    requires alive { All (λ word. IsTrue (is_alive_in word parts.table)) args.now }
    ensures says { (c : CompiledData) → slice_get compiled.old.items place ≡ Some c
        → SaysOfCall B.HostObject c.code parts function args.now budget result }
    ensures codes { codes_of compiled.new.items ≡ codes_of compiled.old.items }
    ensures unchanged { result.outcome ≡ Err faults.NotBegun → result.parts ≡ parts }
    ensures held { HoldsRoots result.parts.table
        (result.parts.outside.items ++ handles result.parts.globals.items) }
{
    let one = &mut compiled[place];
    one.context.run(&one.code, parts, function, args, budget)
}

/// The live state after a run of the module at a place, whose globals are what the run left.
fn give_back<B: HostObject>(rest: Rest, place: usize, parts: Parts<B>) -> (Live<B>, Vec<Event>)
    requires within { place < length rest.loaded.modules.items }
    ensures given { (m : LoadedData) → slice_get rest.loaded.modules.items place ≡ Some m
        → IsGivenBack rest place m parts result.0 }
    ensures events { result.1 ≡ parts.events }
{
    let Rest {
        mut loaded,
        compiled,
        changes,
    } = rest;
    let Parts {
        table,
        globals,
        events,
        ..
    } = parts;
    replace_globals(&mut loaded.modules, place, globals);
    let live = Live {
        loaded,
        compiled,
        table,
        changes,
    };
    (live, events)
}

/// What is left of a call of a function of the module at a place.
fn finish_call<B: HostObject>(
    rest: Rest,
    place: usize,
    before: &[Word],
    left: Left<B>,
) -> Result<LiveStep<B>, StepError>
    requires numbered { rest.loaded.seq < max_seq }
    requires within { place < length rest.loaded.modules.items }
    requires few { length before.now ≤ 256 }
    ensures answered { (m : LoadedData) (outcome : outcomes.Outcome)
        → slice_get rest.loaded.modules.items place ≡ Some m
        → left.outcome ≡ Ok outcome
        → IfOk result (λ one. (live : Live B) × (change : ChangeData)
        × IsGivenBack rest place m left.parts live
        × IsChangeOf place before.now left.parts.globals.items change
        × IsAnswered live (end_named (entry_name (module_of m.tree)) outcome) left.parts.events.items
        change one) }
    ensures refused { (m : LoadedData) → slice_get rest.loaded.modules.items place ≡ Some m
        → left.outcome ≡ Err faults.NotBegun
        → IfOk result (λ one. (reply_seen fault_of one.reply ≡ Refused NoMemoryRefusal)
        × IsGivenBack rest place m left.parts one.live) }
    // The state is lost only if the run had begun.
    ensures begun { OnErr result (left.outcome ≡ Err faults.NotBegun → ⊥) }
    ensures lost { left.outcome ≡ Err faults.NoMemory → IfOk result (λ one. ⊥) }
    ensures never { left.outcome ≡ Err faults.Unsound → IfOk result (λ one. ⊥) }
    ensures memory { IfErr result (λ error. error ≡ StepError.NoMemory) }
{
    let Left { parts, outcome } = left;
    match outcome {
        Ok(outcome) => {
            let outcome = outcome_of(rest.loaded.alloc, &rest.loaded.modules[place].tree, outcome)?;
            let alloc = rest.loaded.alloc;
            let change = change_of_globals(alloc, place, before, &parts.globals)?;
            let (live, events) = give_back(rest, place, parts);
            answered(live, outcome, events, change)
        }
        Err(RunFault::NotBegun) => {
            let (live, _) = give_back(rest, place, parts);
            Ok(without_memory(live))
        }
        Err(RunFault::NoMemory) => Err(StepError::NoMemory),
        // The code of a module that is loaded is never unsound.
        Err(RunFault::Unsound) => Err(StepError::NoMemory),
    }
}

/// Runs a function of a module.
pub(crate) fn invoke<B: HostObject>(
    budget: u64,
    call: Invocation,
    live: Live<B>,
) -> Result<LiveStep<B>, StepError>
    requires asked { IsAsked B.HostObject live (tasks.Invoke call) }
    ensures stepped { (asked : IsAsked B.HostObject live (tasks.Invoke call))
        → IsStepOf B.HostObject asked.registered budget asked.request live result }
{
    let Ok((outside, before)) = held_before(live.loaded.alloc, &live.loaded.modules, call.module)
    else {
        return Ok(without_memory(live));
    };
    let (mut rest, parts) = lend(live, call.module, outside);
    let left = run_at(
        &mut rest.compiled,
        call.module,
        parts,
        call.function,
        &call.args,
        budget,
    );
    finish_call(rest, call.module, &before, left)
}
