//! Modules that are loaded: their code, and the run of their initializers.

ghost use Rattle.std.specs.Prelude.{◌≡◌, ◌<◌, ◌≤◌, ◌++◌, ℕ, List, [], Contains, Option, Some, Ok, Err, map, length};
ghost use Rattle.std.specs.Prelude.{slice_get};
ghost use Rattle.std.specs.Prelude.{IfErr, IfOk, IfSome, IsOk, OnErr, OnOk, ◌≢◌, true, false, nat_eq};
ghost use Rattle.std.specs.List.{insert, list_any};
ghost use Rattle.ash_host.specs.Objects.{handles, object_at};
ghost use Rattle.ash_meaning.specs.Ends.{Finished};
ghost use Rattle.ash_meaning.specs.OperatorMeaning.{zero_of};
ghost use Rattle.ash_objects.specs.Table.{holds_of};
ghost use Rattle.ash_typed.specs.BodyViews.{value_of};
ghost use Rattle.ash_typed.specs.Modules.{module_of, variables_of};
ghost use Rattle.ash_typed.specs.Signatures.{type_declared, types_of_globals};
ghost use Rattle.ash_run_steps.specs.RunStates.{HoldsRoots, times};
ghost use Rattle.ash_context.specs.declared.outcome.Outcome as outcomes;
ghost use Rattle.ash_context.specs.declared.outcome.Outcome.TheVariants as variants;
ghost use Rattle.ash_context.specs.declared.outcome.RunFault.TheVariants as faults;
ghost use Rattle.ash_requests.specs.OutcomeViews.{end_seen};
ghost use Rattle.ash_requests.specs.RequestViews.{reply_seen};
ghost use Rattle.ash_requests.specs.Requests.{NoMemory as NoMemoryRefusal, Refused};
ghost use Rattle.ash_requests.specs.States.{with_module};
ghost use Rattle.ash_requests.specs.Tasks.{max_seq};
ghost use Rattle.ash_sources.specs.SourceFaults.{fault_of};
ghost use Rattle.ash_plain_steps.specs.StateViews.{loaded_seen, modules_seen};
ghost use Rattle.ash_plain_steps.specs.declared.task.Task.TheVariants as tasks;
ghost use Rattle.ash_engine.specs.declared.changes.ModuleChange.TheVariants as changes;
ghost use Rattle.ash_engine.specs.TableRuns.{end_named, HasRoom, SaysOfLoad, IsAnswered, IsPrepared, IsKept};
ghost use Rattle.ash_engine.specs.TableRuns.{IsAbandoned, IsKeptAtOnce};
ghost use Rattle.ash_engine.specs.TableStates.{slots_of};
ghost use Rattle.ash_engine.specs.TableSteps.{IsStepOf};
ghost use Rattle.ash_engine.specs.TableTasks.{entry_name, IsAsked};

use crate::changes::ModuleChange;
use crate::compiling::compiled_for;
use crate::discarding::release;
use crate::live::{Compiled, Live, Rest};
use crate::names::outcome_of;
use crate::resting::answered_at_rest;
use crate::runs::{answered, handles_of, without_memory};
use crate::steps::LiveStep;
use ash_context::context::Left;
use ash_context::outcome::{Outcome as RunOutcome, RunFault};
use ash_host::{Event, HostObject, NoMemory, Word};
use ash_plain_data::operators::zero_of;
use ash_plain_steps::modules::place_after;
use ash_plain_steps::state::LoadedModule;
use ash_plain_steps::task::NewModule;
use ash_requests::{Outcome, StepError};
use ash_run_steps::beginning::Parts;
use ash_typed::{Initialization, Variables};
use std::alloc::{AllocError, Global};
use std::mem;

/// What a load needs besides the live state.
#[derive(Drop)]
pub(crate) struct Prepared {
    /// The module, whose globals are zero, `false` or null.
    pub(crate) new_module: LoadedModule,
    pub(crate) compiled: Compiled,
    /// The objects that the globals of other modules are handles to.
    pub(crate) outside: Vec<u64>,
}

/// Whether a slot is that of a module.
fn is_used(compiled: &[Compiled], slot: u8) -> bool
    ensures used { result ≡ list_any (λ other. nat_eq other.code.module slot) compiled.now }
{
    compiled
        .iter()
        .any(|other| other.code.parts().module == slot)
}

/// A slot of no module. There are more slots than modules.
fn free_slot(compiled: &[Compiled]) -> Option<u8>
    ensures free { IfSome result (λ slot. Contains (slots_of compiled.now) slot → ⊥) }
{
    for slot in 0..u8::MAX {
        if !is_used(compiled, slot) {
            return Some(slot);
        }
    }
    None
}

/// Appends what these globals are before they are initialized.
fn push_zeros(words: &mut Vec<Word>, globals: &[Initialization]) -> Result<(), AllocError>
    ensures zeros { OnOk result (words.new.items
        ≡ words.old.items ++ map zero_of (map type_declared (map value_of globals.now))) }
{
    for global in globals {
        words.push(zero_of(global.of))?;
    }
    Ok(())
}

/// What the globals of a module are before its initializers run.
fn zeros(alloc: Global, declarations: &[Variables]) -> Result<Vec<Word>, AllocError>
    ensures zeros { IfOk result (λ words. words.items
        ≡ map zero_of (types_of_globals (map variables_of declarations.now))) }
{
    let mut words = Vec::new(alloc);
    for declaration in declarations {
        push_zeros(&mut words, &declaration.initializations)?;
    }
    Ok(words)
}

/// All that a load needs, so that memory runs out before anything changes, if it does.
fn prepare<B: HostObject>(new: NewModule<'_>, live: &Live<B>) -> Result<Prepared, NoMemory>
    ensures prepared { IfOk result (IsPrepared new.entry live.now) }
{
    let alloc = live.loaded.alloc;
    let slot = free_slot(&live.compiled).ok_or(NoMemory)?;
    let compiled = compiled_for(alloc, &new.tree, slot)?;
    let globals = zeros(alloc, &new.tree.globals)?;
    let outside = handles_of(alloc, &live.loaded.modules)?;
    let new_module = LoadedModule {
        name: String::from_str(alloc, new.name)?,
        source: Vec::from_slice(alloc, new.source)?,
        tree: new.tree,
        globals,
    };
    Ok(Prepared {
        new_module,
        compiled,
        outside,
    })
}

/// Runs the initializers of code.
fn run_initializers<B: HostObject>(compiled: &mut Compiled, parts: Parts<B>, budget: u64) -> Left<B>
    requires held { HoldsRoots parts.table (parts.outside.items ++ handles parts.globals.items) }
    ensures says { SaysOfLoad B.HostObject compiled.old.code parts budget result }
    ensures code { compiled.new.code ≡ compiled.old.code }
    ensures unchanged { result.outcome ≡ Err faults.NotBegun → result.parts ≡ parts }
    ensures held { HoldsRoots result.parts.table
        (result.parts.outside.items ++ handles result.parts.globals.items) }
{
    let place = compiled.code.parts().functions.len();
    compiled
        .context
        .run(&compiled.code, parts, place, &[], budget)
}

/// Makes room for one module more, and for its code.
fn make_room(modules: &mut Vec<LoadedModule>, codes: &mut Vec<Compiled>) -> Result<(), AllocError>
    ensures modules { modules.new.items ≡ modules.old.items }
    ensures codes { codes.new.items ≡ codes.old.items }
    ensures room { OnOk result (HasRoom modules.new × HasRoom codes.new) }
{
    modules.reserve(1)?;
    codes.reserve(1)
}

/// Inserts a module at the place of its name, and its code at the same place, and returns the place. It takes no memory
/// if there is room.
fn insert_module(
    modules: &mut Vec<LoadedModule>,
    codes: &mut Vec<Compiled>,
    new_module: LoadedModule,
    compiled: Compiled,
) -> Result<usize, AllocError>
    requires many { length codes.old.items ≡ length modules.old.items }
    ensures by_name { OnOk result (modules_seen modules.new.items
        ≡ with_module (loaded_seen new_module) (modules_seen modules.old.items)) }
    ensures at_a_place { IfOk result (λ place. (modules.new.items ≡ insert modules.old.items place new_module)
        × (codes.new.items ≡ insert codes.old.items place compiled)) }
    ensures within { IfOk result (λ place. place ≤ length modules.old.items) }
    ensures fits { HasRoom modules.old → HasRoom codes.old → IsOk result }
{
    let place = place_after(modules, new_module.name.as_str()).unwrap_or(modules.len());
    modules.insert(place, new_module)?;
    codes.insert(place, compiled)?;
    Ok(place)
}

/// The live state with a module whose initializers came to their end, the events of these, and the place of the module.
/// It takes no memory if there is room.
fn keep<B: HostObject>(
    rest: Rest,
    new_module: LoadedModule,
    compiled: Compiled,
    parts: Parts<B>,
) -> Result<(Live<B>, Vec<Event>, usize), AllocError>
    requires many { length rest.compiled.items ≡ length rest.loaded.modules.items }
    ensures kept { IfOk result (λ left. IsKept rest new_module compiled parts left.0) }
    ensures there { IfOk result (λ left. slice_get left.0.loaded.modules.items left.2
        ≡ Some (record new_module { globals = parts.globals })) }
    ensures events { IfOk result (λ left. left.1 ≡ parts.events) }
    ensures fits { HasRoom rest.loaded.modules → HasRoom rest.compiled → IsOk result }
{
    let Rest {
        mut loaded,
        compiled: mut codes,
        changes,
    } = rest;
    let Parts {
        table,
        globals,
        events,
        ..
    } = parts;
    let mut new_module = new_module;
    new_module.globals = globals;
    let place = insert_module(&mut loaded.modules, &mut codes, new_module, compiled)?;
    let live = Live {
        loaded,
        compiled: codes,
        table,
        changes,
    };
    Ok((live, events, place))
}

/// The step that refuses a load for want of memory, and changes nothing.
fn unkept<B: HostObject>(rest: Rest, parts: Parts<B>) -> LiveStep<B>
    ensures refused { reply_seen fault_of result.reply ≡ Refused NoMemoryRefusal }
    ensures unchanged { result.live ≡ record {
      loaded = rest.loaded;
      compiled = rest.compiled;
      table = parts.table;
      changes = rest.changes;
    } }
{
    let Rest {
        loaded,
        compiled,
        changes,
    } = rest;
    without_memory(Live {
        loaded,
        compiled,
        table: parts.table,
        changes,
    })
}

/// The live state without a module whose initializers did not come to their end, and the events of these.
fn abandon<B: HostObject>(rest: Rest, parts: Parts<B>) -> Result<(Live<B>, Vec<Event>), NoMemory>
    requires held { (number : ℕ) → times number (handles parts.globals.items) ≤ holds_of number parts.table }
    ensures abandoned { IfOk result (λ left. IsAbandoned rest parts left.0 left.1.items) }
{
    let Rest {
        loaded,
        compiled,
        changes,
    } = rest;
    let Parts {
        mut table,
        globals,
        mut events,
        ..
    } = parts;
    release(&mut table, &globals, &mut events)?;
    table.facts();
    let live = Live {
        loaded,
        compiled,
        table,
        changes,
    };
    Ok((live, events))
}

/// What is left of a load whose initializers did not come to their end.
fn finish_abandoned<B: HostObject>(
    rest: Rest,
    new_module: LoadedModule,
    outcome: RunOutcome,
    parts: Parts<B>,
) -> Result<LiveStep<B>, StepError>
    requires numbered { rest.loaded.seq < max_seq }
    requires held { (number : ℕ) → times number (handles parts.globals.items) ≤ holds_of number parts.table }
    ensures abandoned { IfOk result (λ one. (live : Live B) × (events : List Event)
        × IsAbandoned rest parts live events
        × IsAnswered live (end_named (entry_name (module_of new_module.tree)) outcome) events changes.Unchanged one) }
    ensures memory { IfErr result (λ error. error ≡ StepError.NoMemory) }
{
    let outcome = outcome_of(rest.loaded.alloc, &new_module.tree, outcome)?;
    match abandon(rest, parts) {
        Ok((live, events)) => answered(live, outcome, events, ModuleChange::Unchanged),
        Err(_) => Err(StepError::NoMemory),
    }
}

/// What is left of a load of a module without globals. Its room is made first. If memory is refused, the request is
/// refused, and nothing changes.
fn keep_at_once<B: HostObject>(
    rest: Rest,
    new_module: LoadedModule,
    compiled: Compiled,
    parts: Parts<B>,
) -> LiveStep<B>
    requires numbered { rest.loaded.seq < max_seq }
    requires many { length rest.compiled.items ≡ length rest.loaded.modules.items }
    requires unmarked { (number : ℕ) → IfSome (object_at number parts.table.objects)
        (λ object. object.touched ≡ false) }
    requires none { parts.events.items ≡ [] }
    ensures kept { IsKeptAtOnce rest new_module compiled parts result }
{
    let mut rest = rest;
    if make_room(&mut rest.loaded.modules, &mut rest.compiled).is_err() {
        return unkept(rest, parts);
    }
    let Ok((live, events, place)) = keep(rest, new_module, compiled, parts) else {
        unreachable!()
    };
    let outcome = Outcome::Finished(None);
    answered_at_rest(live, outcome, events, ModuleChange::Loaded(place))
}

/// What is left of a load whose initializers ended so.
fn finish_ended<B: HostObject>(
    rest: Rest,
    new_module: LoadedModule,
    compiled: Compiled,
    outcome: RunOutcome,
    parts: Parts<B>,
) -> Result<LiveStep<B>, StepError>
    requires numbered { rest.loaded.seq < max_seq }
    requires many { length rest.compiled.items ≡ length rest.loaded.modules.items }
    requires held { (number : ℕ) → times number (handles parts.globals.items) ≤ holds_of number parts.table }
    ensures kept { (value : Option Word) → outcome ≡ variants.Finished value
        → IfOk result (λ one. (live : Live B) × IsKept rest new_module compiled parts live
        × (place : ℕ) × (slice_get live.loaded.modules.items place ≡ Some (record new_module { globals = parts.globals }))
        × IsAnswered live (Finished value) parts.events.items (changes.Loaded place) one) }
    ensures abandoned { ((value : Option Word) → outcome ≡ variants.Finished value → ⊥)
        → IfOk result (λ one. (live : Live B) × (events : List Event)
        × IsAbandoned rest parts live events
        × IsAnswered live (end_named (entry_name (module_of new_module.tree)) outcome) events changes.Unchanged one) }
    ensures memory { IfErr result (λ error. error ≡ StepError.NoMemory) }
{
    match outcome {
        RunOutcome::Finished(value) => {
            let (live, events, place) = keep(rest, new_module, compiled, parts)?;
            let outcome = Outcome::Finished(value);
            answered(live, outcome, events, ModuleChange::Loaded(place))
        }
        RunOutcome::Exception {
            code,
            function,
            line,
        } => {
            let outcome = RunOutcome::Exception {
                code,
                function,
                line,
            };
            finish_abandoned(rest, new_module, outcome, parts)
        }
        RunOutcome::Aborted { function, line } => {
            let outcome = RunOutcome::Aborted { function, line };
            finish_abandoned(rest, new_module, outcome, parts)
        }
    }
}

/// What is left of a load.
fn finish_load<B: HostObject>(
    rest: Rest,
    new_module: LoadedModule,
    compiled: Compiled,
    left: Left<B>,
) -> Result<LiveStep<B>, StepError>
    requires numbered { rest.loaded.seq < max_seq }
    requires many { length rest.compiled.items ≡ length rest.loaded.modules.items }
    requires held { (number : ℕ) → times number (handles left.parts.globals.items)
        ≤ holds_of number left.parts.table }
    ensures kept { (value : Option Word) → left.outcome ≡ Ok (variants.Finished value)
        → IfOk result (λ one. (live : Live B) × IsKept rest new_module compiled left.parts live
        × (place : ℕ) × (slice_get live.loaded.modules.items place ≡ Some (record new_module { globals = left.parts.globals }))
        × IsAnswered live (Finished value) left.parts.events.items (changes.Loaded place) one) }
    ensures abandoned { (outcome : outcomes.Outcome) → left.outcome ≡ Ok outcome
        → ((value : Option Word) → outcome ≡ variants.Finished value → ⊥)
        → IfOk result (λ one. (live : Live B) × (events : List Event)
        × IsAbandoned rest left.parts live events
        × IsAnswered live (end_named (entry_name (module_of new_module.tree)) outcome) events changes.Unchanged one) }
    ensures refused { left.outcome ≡ Err faults.NotBegun
        → IfOk result (λ one. (reply_seen fault_of one.reply ≡ Refused NoMemoryRefusal)
        × (one.live ≡ record {
          loaded = rest.loaded;
          compiled = rest.compiled;
          table = left.parts.table;
          changes = rest.changes;
        })) }
    // The state is lost only if the run had begun.
    ensures begun { OnErr result (left.outcome ≡ Err faults.NotBegun → ⊥) }
    ensures lost { left.outcome ≡ Err faults.NoMemory → IfOk result (λ one. ⊥) }
    ensures never { left.outcome ≡ Err faults.Unsound → IfOk result (λ one. ⊥) }
    ensures memory { IfErr result (λ error. error ≡ StepError.NoMemory) }
{
    let Left { parts, outcome } = left;
    match outcome {
        Ok(outcome) => finish_ended(rest, new_module, compiled, outcome, parts),
        Err(RunFault::NotBegun) => Ok(unkept(rest, parts)),
        Err(RunFault::NoMemory) => Err(StepError::NoMemory),
        // The code of a module is never unsound.
        Err(RunFault::Unsound) => Err(StepError::NoMemory),
    }
}

/// Whether these are no declarations of globals.
fn is_bare(declarations: &[Variables]) -> bool
    ensures none { result ≡ true → declarations.now ≡ [] }
    ensures some { result ≡ false → declarations.now ≢ [] }
{
    declarations.is_empty()
}

/// Loads a module: runs its initializers, and keeps it if they come to their end.
pub(crate) fn initialize<B: HostObject>(
    budget: u64,
    new: NewModule<'_>,
    live: Live<B>,
) -> Result<LiveStep<B>, StepError>
    requires asked { IsAsked B.HostObject live (tasks.Initialize new) }
    ensures stepped { (asked : IsAsked B.HostObject live (tasks.Initialize new.entry))
        → IsStepOf B.HostObject asked.registered budget asked.request live result }
{
    let Ok(prepared) = prepare(new, &live) else {
        return Ok(without_memory(live));
    };
    let Prepared {
        mut new_module,
        mut compiled,
        outside,
    } = prepared;
    let Live {
        loaded,
        compiled: codes,
        table,
        changes,
    } = live;
    let alloc = loaded.alloc;
    let parts = Parts {
        table,
        globals: mem::replace(&mut new_module.globals, Vec::new(alloc)),
        outside,
        events: Vec::new(alloc),
    };
    let rest = Rest {
        loaded,
        compiled: codes,
        changes,
    };
    if is_bare(&new_module.tree.globals) {
        return Ok(keep_at_once(rest, new_module, compiled, parts));
    }
    let left = run_initializers(&mut compiled, parts, budget);
    finish_load(rest, new_module, compiled, left)
}
