//! What each request asks for, or the first cause for which it is refused.

ghost use Rattle.std.specs.Prelude.{IfOk};
ghost use Rattle.ash_requests.specs.Requests.{Load, Call, Discard, Get, Object};
ghost use Rattle.ash_requests.specs.States.{Embedding};
ghost use Rattle.ash_requests.specs.Tasks.{task_of};
ghost use Rattle.ash_plain_steps.specs.StateViews.{state_seen};
ghost use Rattle.ash_requests.specs.RequestViews.{request_seen};
ghost use Rattle.ash_plain_steps.specs.Consistency.{AreConsistent};
ghost use Rattle.ash_plain_steps.specs.TaskViews.{GivesTask};
ghost use Rattle.ash_plain_steps.specs.StepViews.{IsPerformable};

use crate::calls::call_in;
use crate::functions::word_named;
use crate::modules::{MAX_MODULES, place_of};
use crate::name::is_module_name;
use crate::shown::{count_of, described};
use crate::state::PlainState;
use crate::task::{Invocation, NewModule, Task};
use ash_requests::sources::SourceReader;
use ash_requests::{Arg, Refusal, Request, Shown};

/// The most requests that are answered.
const MAX_SEQ: u64 = u64::MAX;

/// Refused with, in this order, `SequenceSpent`, `BadName`, `ModuleTaken`, `TooManyModules` and `BadSource`.
#[tactic(auto, using(crate::proofs::Given::load_spent, crate::proofs::Given::load_misnamed, crate::proofs::Given::load_taken, crate::proofs::Given::load_many, crate::proofs::Given::load_absent))]
fn loading<'a, S: SourceReader>(
    sources: &S,
    name: &'a str,
    source: &'a [u8],
    state: &PlainState,
) -> Result<Task<'a>, Refusal<S::Fault>>
    ensures task { GivesTask S.fault_seen S.TakesMemory state.now.modules.items result
        (task_of (S.embedding sources.now) (Load name.now source.now) (state_seen state.now)) }
    ensures performable { IfOk result (IsPerformable (S.embedding sources.now) state.now) }
{
    if state.seq >= MAX_SEQ {
        return Err(Refusal::SequenceSpent);
    }
    if !is_module_name(name.as_bytes()) {
        return Err(Refusal::BadName);
    }
    if place_of(&state.modules, name).is_some() {
        return Err(Refusal::ModuleTaken);
    }
    if state.modules.len() >= MAX_MODULES {
        return Err(Refusal::TooManyModules);
    }
    match sources.read(state.alloc, source)? {
        Ok(tree) => Ok(Task::Initialize(NewModule { name, source, tree })),
        Err(fault) => Err(Refusal::BadSource(fault)),
    }
}

/// Refused with, in this order, `SequenceSpent`, `NoModule`, `NoFunction`, `NotCallable` and `BadArguments`.
#[tactic(auto, using(crate::proofs::Asked::spent, crate::proofs::Given::call_nowhere))]
fn calling<S: SourceReader>(
    module: &str,
    function: &str,
    arguments: &[Arg],
    state: &PlainState,
) -> Result<Task<'static>, Refusal<S::Fault>>
    ensures performable { (embedding : Embedding S.FaultSeen)
        → IfOk result (IsPerformable embedding state.now) }
    ensures task { (embedding : Embedding S.FaultSeen)
        → AreConsistent embedding state.now.modules.items
        → GivesTask S.fault_seen S.TakesMemory state.now.modules.items result
        (task_of embedding (Call module.now function.now arguments.now) (state_seen state.now)) }
{
    if state.seq >= MAX_SEQ {
        return Err(Refusal::SequenceSpent);
    }
    let Some(module) = place_of(&state.modules, module) else {
        return Err(Refusal::NoModule);
    };
    let Some(loaded) = state.modules.get(module) else {
        return Err(Refusal::NoModule);
    };
    let (function, args) = call_in::<S>(state.alloc, &loaded.tree, function, arguments)?;
    Ok(Task::Invoke(Invocation {
        module,
        function,
        args,
    }))
}

/// Refused with, in this order, `SequenceSpent` and `NoModule`.
#[tactic(auto, using(crate::proofs::Asked::spent, crate::proofs::Given::discard_nowhere, crate::proofs::Given::removal_given))]
fn discarding<S: SourceReader>(
    name: &str,
    state: &PlainState,
) -> Result<Task<'static>, Refusal<S::Fault>>
    ensures performable { (embedding : Embedding S.FaultSeen)
        → IfOk result (IsPerformable embedding state.now) }
    ensures task { (embedding : Embedding S.FaultSeen)
        → GivesTask S.fault_seen S.TakesMemory state.now.modules.items result
        (task_of embedding (Discard name.now) (state_seen state.now)) }
{
    if state.seq >= MAX_SEQ {
        return Err(Refusal::SequenceSpent);
    }
    match place_of(&state.modules, name) {
        Some(place) => Ok(Task::Remove(place)),
        None => Err(Refusal::NoModule),
    }
}

/// Refused with, in this order, `NoModule` and `NoGlobal`. It takes no memory.
#[tactic(auto, using(crate::proofs::Given::read_nowhere, crate::proofs::Given::no_global_there, crate::proofs::Given::global_there))]
fn reading<S: SourceReader>(
    module: &str,
    name: &str,
    state: &PlainState,
) -> Result<Task<'static>, Refusal<S::Fault>>
    ensures performable { (embedding : Embedding S.FaultSeen)
        → IfOk result (IsPerformable embedding state.now) }
    ensures task { (embedding : Embedding S.FaultSeen)
        → AreConsistent embedding state.now.modules.items
        → GivesTask S.fault_seen S.TakesMemory state.now.modules.items result
        (task_of embedding (Get module.now name.now) (state_seen state.now)) }
{
    let Some(place) = place_of(&state.modules, module) else {
        return Err(Refusal::NoModule);
    };
    let Some(loaded) = state.modules.get(place) else {
        return Err(Refusal::NoModule);
    };
    match word_named(&loaded.tree.globals, &loaded.globals, name) {
        Some(word) => Ok(Task::Read(word)),
        None => Err(Refusal::NoGlobal),
    }
}

/// Refused with `NoObject`. Whether there is an object of the number, and a class of it,
/// is tested before memory is taken.
#[tactic(auto, using(crate::proofs::ShownObjects::shown_nowhere, crate::proofs::ShownObjects::shown_by_no_class, crate::proofs::ShownObjects::shown_takes))]
fn showing<S: SourceReader>(
    sources: &S,
    number: u64,
    state: &PlainState,
) -> Result<Task<'static>, Refusal<S::Fault>>
    ensures performable { IfOk result (IsPerformable (S.embedding sources.now) state.now) }
    ensures task { AreConsistent (S.embedding sources.now) state.now.modules.items
        → GivesTask S.fault_seen S.TakesMemory state.now.modules.items result
        (task_of (S.embedding sources.now) (Object number) (state_seen state.now)) }
{
    let Some(object) = state.objects.get(number) else {
        return Err(Refusal::NoObject);
    };
    let Some((type_name, contents)) = described(sources, state, object)? else {
        return Err(Refusal::NoObject);
    };
    let count = count_of(state, number)?;
    Ok(Task::Show(Shown {
        number,
        type_name,
        count,
        contents,
    }))
}

/// The task of a request, or the first cause for which it is refused. `NoMemory` says that memory was refused.
pub fn task_of<'a, S: SourceReader>(
    sources: &S,
    request: &Request<'a>,
    state: &PlainState,
) -> Result<Task<'a>, Refusal<S::Fault>>
    ensures performable { IfOk result (IsPerformable (S.embedding sources.now) state.now) }
    ensures task { AreConsistent (S.embedding sources.now) state.now.modules.items
        → GivesTask S.fault_seen S.TakesMemory state.now.modules.items result
        (task_of (S.embedding sources.now) (request_seen request.now) (state_seen state.now)) }
{
    match *request {
        Request::Load { module, source } => loading(sources, module, source, state),
        Request::Call {
            module,
            function,
            arguments,
        } => calling::<S>(module, function, arguments, state),
        Request::Discard { module } => discarding::<S>(module, state),
        Request::Global { module, name } => reading::<S>(module, name, state),
        Request::Object { number } => showing(sources, number, state),
        Request::Seq => Ok(Task::Count),
        Request::Snapshot => Ok(Task::Rewrite),
    }
}
