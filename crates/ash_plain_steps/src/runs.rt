//! What the tasks do that change the state: runs, and release points.

ghost use Rattle.std.specs.Prelude.{◌≡◌, ◌<◌, ℕ, [], set, Option, Some, slice_get, length, IfOk};
ghost use Rattle.ash_typed.specs.Modules.{module_of};
ghost use Rattle.ash_meaning.specs.Ends.{Outcome as OutcomeData, Finished};
ghost use Rattle.ash_plain_world.specs.ActivityViews.{world_seen};
ghost use Rattle.ash_requests.specs.OutcomeViews.{end_seen};
ghost use Rattle.ash_plain_scripts.specs.EndViews.{outcome_seen, EndsAs};
ghost use Rattle.ash_requests.specs.States.{State, Embedding, world_of};
ghost use Rattle.ash_requests.specs.Tasks.{max_seq, Initialize, Invoke, Remove};
ghost use Rattle.ash_requests.specs.Steps.{answered, after_load_with, after_load, without_globals};
ghost use Rattle.ash_requests.specs.Steps.{perform};
ghost use Rattle.ash_plain_steps.specs.StateViews.{loaded_seen, modules_seen, state_seen};
ghost use Rattle.ash_plain_steps.specs.StateViews.{hosts_seen};
ghost use Rattle.ash_plain_steps.specs.StepViews.{step_seen};
ghost use Rattle.ash_plain_steps.specs.Consistency.{ModulesAscend, AreConsistent, IsReadFromSource};
ghost use Rattle.ash_plain_steps.specs.StepViews.{ComesTo, IsLoadable, IsThere, IsAfterCall};

use crate::modules::{handles_of, insert};
use crate::state::{Hosts, LoadedModule, PlainState};
use crate::step::Step;
use crate::task::{Invocation, NewModule};
use ash_host::Word;
use ash_plain_data::classes::Program;
use ash_plain_data::run_error::{RunError, RunResult};
use ash_plain_scripts::ends::{RunEnd, call_function, load_module};
use ash_plain_world::activity::World;
use ash_requests::sources::SourceReader;
use ash_requests::{Answer, Outcome, Reply, StepError};
use std::alloc::{AllocError, Global};
use std::mem;

/// What no run takes of a state: the modules, and how many requests have been answered.
#[derive(Drop)]
struct Rest {
    alloc: Global,
    modules: Vec<LoadedModule>,
    seq: u64,
}

/// What a run finds, which the state and the hosts are moved into, but for the modules. What the globals of these hold
/// is held outside.
fn begin(state: PlainState, hosts: Hosts, globals: Vec<Word>) -> Result<(Rest, World), AllocError>
    ensures world { IfOk result (λ r. world_seen r.1 ≡ world_of globals.items
        (modules_seen state.modules.items) (state_seen state) (hosts_seen hosts)) }
    ensures modules { IfOk result (λ r. r.0.modules ≡ state.modules) }
    ensures seq { IfOk result (λ r. r.0.seq ≡ state.seq) }
{
    let PlainState {
        alloc,
        modules,
        objects,
        services,
        last,
        seq,
    } = state;
    let Hosts { pool, answers } = hosts;
    let outside = handles_of(alloc, &modules)?;
    let world = World {
        globals,
        outside,
        objects,
        last,
        services,
        pool,
        answers,
        events: Vec::new(alloc),
    };
    let rest = Rest {
        alloc,
        modules,
        seq,
    };
    Ok((rest, world))
}

/// The step of a request that is answered so, with this world.
fn answered<S: SourceReader>(rest: Rest, outcome: Outcome, world: World) -> Step<S::Fault>
    requires numbered { rest.seq < max_seq }
    ensures stepped { (old : State) → old.seq ≡ rest.seq → step_seen S.fault_seen result
        ≡ answered (end_seen outcome) (modules_seen rest.modules.items) (world_seen world) old }
    ensures modules { result.state.modules ≡ rest.modules }
{
    let Rest {
        alloc,
        modules,
        seq,
    } = rest;
    let World {
        objects,
        last,
        services,
        pool,
        answers,
        events,
        ..
    } = world;
    let seq = seq + 1;
    Step {
        reply: Reply::Answer(Answer {
            outcome,
            seq,
            events,
        }),
        state: PlainState {
            alloc,
            modules,
            objects,
            services,
            last,
            seq,
        },
        hosts: Hosts { pool, answers },
    }
}

/// How a run ended, or why it has no end.
fn end_of(run: RunResult<RunEnd>) -> Result<RunEnd, StepError>
    ensures outcome { (o : Option OutcomeData) → EndsAs run o → ComesTo outcome_seen result o }
{
    match run {
        Ok(end) => Ok(end),
        Err(RunError::NoMemory) => Err(StepError::NoMemory),
        Err(RunError::NoStep) => Err(StepError::NoStep),
        // These are ends of a run, which its outcome has.
        Err(RunError::Raising(_)) => Err(StepError::NoStep),
        Err(RunError::OutOfTicks) => Err(StepError::NoStep),
    }
}

/// The state keeps a module whose initializers came to their end.
fn keep<S: SourceReader>(
    rest: Rest,
    new: NewModule<'_>,
    value: Option<Word>,
    world: World,
) -> Result<Step<S::Fault>, AllocError>
    requires numbered { rest.seq < max_seq }
    ensures stepped { (old : State) → old.seq ≡ rest.seq
        → old.modules ≡ modules_seen rest.modules.items
        → IfOk result (λ s. step_seen S.fault_seen s
        ≡ after_load_with new.entry.name.now new.entry.source.now old (Finished value)
        (world_seen world)) }
    ensures consistent { (embedding : Embedding S.FaultSeen) (old : PlainState)
        → old.modules ≡ rest.modules → AreConsistent embedding old.modules.items
        → IsLoadable embedding old new.entry
        → IfOk result (λ s. AreConsistent embedding s.state.modules.items) }
{
    let mut rest = rest;
    let mut world = world;
    let loaded = LoadedModule {
        name: String::from_str(rest.alloc, new.name)?,
        source: Vec::from_slice(rest.alloc, new.source)?,
        tree: new.tree,
        globals: mem::replace(&mut world.globals, Vec::new(rest.alloc)),
    };
    insert(&mut rest.modules, loaded)?;
    Ok(answered::<S>(rest, Outcome::Finished(value), world))
}

/// The state goes on without a module whose initializers did not come to their end.
fn abandon<S: SourceReader>(
    rest: Rest,
    outcome: Outcome,
    world: World,
) -> Result<Step<S::Fault>, AllocError>
    requires numbered { rest.seq < max_seq }
    ensures stepped { (old : State) → old.seq ≡ rest.seq
        → IfOk result (λ s. step_seen S.fault_seen s
        ≡ answered (end_seen outcome) (modules_seen rest.modules.items)
        (without_globals (world_seen world)) old) }
    ensures modules { IfOk result (λ s. s.state.modules ≡ rest.modules) }
{
    let mut world = world;
    world.globals = Vec::new(rest.alloc);
    world.give_up_frames(rest.alloc)?;
    Ok(answered::<S>(rest, outcome, world))
}

/// What is left of a load.
fn finish_load<S: SourceReader>(
    rest: Rest,
    new: NewModule<'_>,
    end: RunEnd,
) -> Result<Step<S::Fault>, AllocError>
    requires numbered { rest.seq < max_seq }
    ensures stepped { (old : State) → old.seq ≡ rest.seq
        → old.modules ≡ modules_seen rest.modules.items
        → IfOk result (λ s. step_seen S.fault_seen s
        ≡ after_load new.entry.name.now new.entry.source.now old (outcome_seen end)) }
    ensures consistent { (embedding : Embedding S.FaultSeen) (old : PlainState)
        → old.modules ≡ rest.modules → AreConsistent embedding old.modules.items
        → IsLoadable embedding old new.entry
        → IfOk result (λ s. AreConsistent embedding s.state.modules.items) }
{
    let RunEnd { outcome, world } = end;
    match outcome {
        Outcome::Finished(value) => keep::<S>(rest, new, value, world),
        Outcome::Exception {
            code,
            function,
            line,
        } => {
            let outcome = Outcome::Exception {
                code,
                function,
                line,
            };
            abandon::<S>(rest, outcome, world)
        }
        Outcome::Aborted { function, line } => {
            abandon::<S>(rest, Outcome::Aborted { function, line }, world)
        }
    }
}

/// Runs the initializers of a module that is to be loaded.
pub(crate) fn initialize<S: SourceReader>(
    budget: u64,
    new: NewModule<'_>,
    state: PlainState,
    hosts: Hosts,
) -> Result<Step<S::Fault>, StepError>
    requires numbered { state.seq < max_seq }
    ensures stepped { ComesTo (step_seen S.fault_seen) result (perform budget
        (Initialize new.entry.name.now new.entry.source.now (module_of new.entry.tree))
        (state_seen state) (hosts_seen hosts)) }
    ensures consistent { (embedding : Embedding S.FaultSeen)
        → AreConsistent embedding state.modules.items → IsLoadable embedding state new.entry
        → IfOk result (λ s. AreConsistent embedding s.state.modules.items) }
{
    let globals = Vec::new(state.alloc);
    let (rest, world) = begin(state, hosts, globals)?;
    let program = Program {
        alloc: rest.alloc,
        name: new.name,
        tree: &new.tree,
    };
    let end = end_of(load_module(&program, budget, world))?;
    Ok(finish_load::<S>(rest, new, end)?)
}

/// Gives the module at a place other globals, and returns what it had.
fn replace_globals(modules: &mut Vec<LoadedModule>, place: usize, globals: Vec<Word>) -> Vec<Word>
    requires within { place < length modules.old.items }
    ensures value { (m : LoadedModule) → slice_get modules.old.items place ≡ Some m
        → (result ≡ m.globals)
        × (modules.new.items ≡ set modules.old.items place (record m { globals = globals })) }
{
    mem::replace(&mut modules[place].globals, globals)
}

/// What is left of a call.
fn finish_call<S: SourceReader>(rest: Rest, place: usize, end: RunEnd) -> Step<S::Fault>
    requires numbered { rest.seq < max_seq }
    requires within { place < length rest.modules.items }
    ensures value { (m : LoadedModule) (old : State)
        → slice_get rest.modules.items place ≡ Some m → old.seq ≡ rest.seq
        → IsAfterCall S.fault_seen rest.modules.items place m end old result }
{
    let mut rest = rest;
    let RunEnd { outcome, mut world } = end;
    let globals = mem::replace(&mut world.globals, Vec::new(rest.alloc));
    replace_globals(&mut rest.modules, place, globals);
    answered::<S>(rest, outcome, world)
}

/// Runs a function of a module.
pub(crate) fn invoke<S: SourceReader>(
    budget: u64,
    call: Invocation,
    state: PlainState,
    hosts: Hosts,
) -> Result<Step<S::Fault>, StepError>
    requires there { IsThere state call.module }
    ensures stepped { (m : LoadedModule) → slice_get state.modules.items call.module ≡ Some m
        → ModulesAscend (modules_seen state.modules.items)
        → ComesTo (step_seen S.fault_seen) result (perform budget
        (Invoke (loaded_seen m) (module_of m.tree) call.function call.args.items)
        (state_seen state) (hosts_seen hosts)) }
    ensures consistent { (embedding : Embedding S.FaultSeen)
        → AreConsistent embedding state.modules.items
        → IfOk result (λ s. AreConsistent embedding s.state.modules.items) }
{
    let mut state = state;
    let none = Vec::new(state.alloc);
    let globals = replace_globals(&mut state.modules, call.module, none);
    let (rest, world) = begin(state, hosts, globals)?;
    let m = &rest.modules[call.module];
    let program = Program {
        alloc: rest.alloc,
        name: m.name.as_str(),
        tree: &m.tree,
    };
    let end = end_of(call_function(&program, call.function, call.args, budget, world))?;
    Ok(finish_call::<S>(rest, call.module, end))
}

/// Removes the module at a place: a release point without it.
pub(crate) fn discard<S: SourceReader>(
    place: usize,
    state: PlainState,
    hosts: Hosts,
) -> Result<Step<S::Fault>, StepError>
    requires there { IsThere state place }
    ensures stepped { (budget : ℕ) (m : LoadedModule)
        → slice_get state.modules.items place ≡ Some m
        → ModulesAscend (modules_seen state.modules.items)
        → ComesTo (step_seen S.fault_seen) result (perform budget (Remove (loaded_seen m).name)
        (state_seen state) (hosts_seen hosts)) }
    ensures consistent { (embedding : Embedding S.FaultSeen)
        → AreConsistent embedding state.modules.items
        → IfOk result (λ s. AreConsistent embedding s.state.modules.items) }
{
    let mut state = state;
    state.modules.remove(place);
    let alloc = state.alloc;
    let (rest, world) = begin(state, hosts, Vec::new(alloc))?;
    let mut world = world;
    world.give_up_frames(alloc)?;
    Ok(answered::<S>(rest, Outcome::Finished(None), world))
}
