//! The step of one request.

ghost use Rattle.std.specs.Prelude.{◌≡◌, Some, IfOk};
ghost use Rattle.ash_requests.specs.States.{Embedding};
ghost use Rattle.ash_requests.specs.Tasks.{Task as TaskData};
ghost use Rattle.ash_requests.specs.Steps.{perform, Steps};
ghost use Rattle.ash_plain_steps.specs.StateViews.{modules_seen, state_seen, hosts_seen};
ghost use Rattle.ash_requests.specs.RequestViews.{request_seen};
ghost use Rattle.ash_plain_steps.specs.StepViews.{step_seen};
ghost use Rattle.ash_plain_steps.specs.Consistency.{AreConsistent};
ghost use Rattle.ash_plain_steps.specs.TaskViews.{task_seen};
ghost use Rattle.ash_plain_steps.specs.StepViews.{ComesTo, IsPerformable, ChangesState};
ghost use Rattle.ash_plain_steps.specs.StepViews.{LosesMemory, IsStep};

use crate::refusals::task_of;
use crate::runs::{discard, initialize, invoke};
use crate::state::{Hosts, PlainState};
use crate::step::Step;
use crate::task::Task;
use ash_requests::sources::SourceReader;
use ash_requests::{Reply, Request, StepError};

/// A reply that leaves everything as it is.
fn replied<F: Drop>(reply: Reply<F>, state: PlainState, hosts: Hosts) -> Step<F>
    ensures value { result ≡ record { reply = reply; state = state; hosts = hosts } }
{
    Step {
        reply,
        state,
        hosts,
    }
}

/// What a task does.
fn perform<S: SourceReader>(
    sources: &S,
    budget: u64,
    task: Task<'_>,
    state: PlainState,
    hosts: Hosts,
) -> Result<Step<S::Fault>, StepError>
    requires consistent { AreConsistent (S.embedding sources.now) state.modules.items }
    requires performable { IsPerformable (S.embedding sources.now) state task }
    ensures stepped { (one : TaskData) → task_seen state.modules.items task.entry ≡ Some one
        → ComesTo (step_seen S.fault_seen) result
        (perform budget one (state_seen state) (hosts_seen hosts)) }
    ensures consistent { IfOk result (λ s.
        AreConsistent (S.embedding sources.now) s.state.modules.items) }
    ensures memory { LosesMemory result (ChangesState task.entry) }
{
    match task {
        Task::Initialize(new) => initialize::<S>(budget, new, state, hosts),
        Task::Invoke(call) => invoke::<S>(budget, call, state, hosts),
        Task::Remove(place) => discard::<S>(place, state, hosts),
        Task::Read(word) => Ok(replied(Reply::Value(word), state, hosts)),
        Task::Show(shown) => Ok(replied(Reply::Shown(shown), state, hosts)),
        Task::Count => {
            let seq = state.seq;
            Ok(replied(Reply::Seq(seq), state, hosts))
        }
        Task::Rewrite => Ok(replied(Reply::Done, state, hosts)),
    }
}

/// The step of one request, with so many ticks: the reply, the state after it, and what of the hosts is left. The state
/// goes into it, and is in no other place again where there is no step. Where memory was refused before the state
/// changed, the reply is the refusal `NoMemory`, and all is as it was.
///
/// # Errors
///
/// `NoStep` where the definitions have no step: hosts gave no answer to a call of the run. `NoMemory` where memory was
/// refused while the state changed, which can come only of a load, a call or a removal that is not refused.
pub fn plain_step<S: SourceReader>(
    sources: &S,
    budget: u64,
    request: &Request<'_>,
    state: PlainState,
    hosts: Hosts,
) -> Result<Step<S::Fault>, StepError>
    requires consistent { AreConsistent (S.embedding sources.now) state.modules.items }
    ensures stepped { IsStep S.fault_seen S.TakesMemory (S.embedding sources.now) budget
        (request_seen request.now) (state_seen state) (hosts_seen hosts) result }
    ensures defined { IfOk result (λ s. Steps (S.embedding sources.now) budget
        (request_seen request.now) (state_seen state) (hosts_seen hosts)
        (step_seen S.fault_seen s)) }
    ensures consistent { IfOk result (λ s.
        AreConsistent (S.embedding sources.now) s.state.modules.items) }
{
    match task_of(sources, request, &state) {
        Ok(task) => perform(sources, budget, task, state, hosts),
        Err(refusal) => Ok(replied(Reply::Refused(refusal), state, hosts)),
    }
}
