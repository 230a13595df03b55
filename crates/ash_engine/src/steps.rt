//! The step of one request.

ghost use Rattle.std.specs.Prelude.{◌≡◌};
ghost use Rattle.ash_registry.specs.RegistryViews.{registered};
ghost use Rattle.ash_requests.specs.RequestViews.{request_seen};
ghost use Rattle.ash_plain_steps.specs.TaskViews.{GivesTask};
ghost use Rattle.ash_sources.specs.SourceFaults.{fault_of, MayTakeMemory};
ghost use Rattle.ash_states.specs.StateSteps.{task_of};
ghost use Rattle.ash_engine.specs.TableStates.{durable_seen, IsLive};
ghost use Rattle.ash_engine.specs.TableSteps.{IsStepOf};
ghost use Rattle.ash_engine.specs.TableTasks.{IsAsked};

use crate::discarding::discard;
use crate::live::Live;
use crate::loading::initialize;
use crate::runs::invoke;
use crate::showing::showing;
use ash_host::HostObject;
use ash_plain_steps::refusals::task_of;
use ash_plain_steps::task::Task;
use ash_registry::Registry;
use ash_requests::{Reply, Request, StepError};
use ash_states::restoring::sources_for;
use ash_states::state::{HostRefusal, HostReply};

/// What a request comes to: the reply, and the live state after it.
#[derive(Drop)]
pub struct LiveStep<B> {
    pub(crate) reply: HostReply,
    pub(crate) live: Live<B>,
}

/// A reply that leaves the live state as it is.
fn replied<B>(reply: HostReply, live: Live<B>) -> LiveStep<B>
    ensures value { result ≡ record { reply = reply; live = live } }
{
    LiveStep { reply, live }
}

/// The task of a request, or the first cause for which it is refused.
fn task_for<'a, B: HostObject>(
    registry: &Registry,
    request: &Request<'a>,
    live: &Live<B>,
) -> Result<Task<'a>, HostRefusal>
    requires live { IsLive B.HostObject (registered registry.now) live.now }
    ensures task { GivesTask fault_of MayTakeMemory live.now.loaded.modules.items result
        (task_of (request_seen request.now) (durable_seen B.HostObject (registered registry.now) live.now)) }
{
    match *request {
        Request::Object { number } => showing(registry, number, live),
        _ => task_of(&sources_for(registry), request, &live.loaded),
    }
}

/// What a task does.
fn perform<B: HostObject>(
    budget: u64,
    task: Task<'_>,
    live: Live<B>,
) -> Result<LiveStep<B>, StepError>
    requires asked { IsAsked B.HostObject live task }
    ensures stepped { (asked : IsAsked B.HostObject live task.entry)
        → IsStepOf B.HostObject asked.registered budget asked.request live result }
{
    match task {
        Task::Initialize(new) => initialize(budget, new, live),
        Task::Invoke(call) => invoke(budget, call, live),
        Task::Remove(place) => Ok(discard(place, live)),
        Task::Read(word) => Ok(replied(Reply::Value(word), live)),
        Task::Show(shown) => Ok(replied(Reply::Shown(shown), live)),
        Task::Count => {
            let seq = live.loaded.seq;
            Ok(replied(Reply::Seq(seq), live))
        }
        Task::Rewrite => Ok(replied(Reply::Done, live)),
    }
}

/// The step of one request, with so many ticks, from a live state.
pub(crate) fn step_of<B: HostObject>(
    registry: &Registry,
    request: &Request<'_>,
    budget: u64,
    live: Live<B>,
) -> Result<LiveStep<B>, StepError>
    requires live { IsLive B.HostObject (registered registry.now) live }
    ensures stepped { IsStepOf B.HostObject (registered registry.now) budget
        (request_seen request.now) live result }
{
    match task_for(registry, request, &live) {
        Ok(task) => perform(budget, task, live),
        Err(refusal) => Ok(replied(Reply::Refused(refusal), live)),
    }
}
