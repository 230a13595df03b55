//! Rows, and how they are run.

ghost use Rattle.std.specs.Prelude.{◌≡◌, [], IfOk};
ghost use Rattle.ash_sources.specs.Sources.{registered_for, embedding_of};
ghost use Rattle.ash_plain_steps.specs.Consistency.{AreConsistent};

use crate::calls::answers;
use crate::registered::{pool, registry, zero};
use crate::replies::{events_text, reply_text};
use crate::requests::{arguments_of, request_of};
use crate::states::state_text;
use ash_plain_steps::state::{Hosts, PlainState};
use ash_plain_steps::step::Step;
use ash_plain_steps::steps::plain_step;
use ash_requests::{Reply, Request, StepError};
use ash_script_rows::rows::Row;
use ash_sources::fault::SourceFault;
use ash_sources::sources::Sources;
use std::alloc::{AllocError, Global};
use std::process::Abort;
use std::test::Fail;

/// Compares a text with the one that is wanted of a row.
fn check_text(rt: &impl Abort, found: &str, wanted: &str, what: (&str, &str)) {
    if found != wanted {
        let (row, part) = what;
        panic!(rt; "{row}, {part}: found {found}, wanted {wanted}");
    }
}

/// The step of one request.
fn step_of(
    sources: &Sources<'_>,
    budget: u64,
    request: &Request<'_>,
    before: Step<SourceFault>,
) -> Result<Step<SourceFault>, StepError>
    requires consistent { AreConsistent (embedding_of (registered_for sources.now))
        before.state.modules.items }
    ensures consistent { IfOk result (λ s. AreConsistent (embedding_of (registered_for sources.now))
        s.state.modules.items) }
{
    plain_step(sources, budget, request, before.state, before.hosts)
}

/// What a line comes to after what came before. Steps are in boxes, since they are long where they are written out.
fn stepped(
    alloc: Global,
    sources: &Sources<'_>,
    budget: u64,
    line: &str,
    before: Box<Step<SourceFault>>,
) -> Result<Box<Step<SourceFault>>, Fail>
    requires consistent { AreConsistent (embedding_of (registered_for sources.now))
        before.value.state.modules.items }
    ensures consistent { IfOk result (λ s. AreConsistent (embedding_of (registered_for sources.now))
        s.value.state.modules.items) }
{
    let arguments = arguments_of(alloc, line)?;
    let request = request_of(line, &arguments);
    let step = step_of(sources, budget, &request, Box::into_inner(before))?;
    Ok(Box::new(alloc, step)?)
}

/// Compares a reply and its events.
fn check_reply(
    rt: &impl Abort,
    alloc: Global,
    what: &str,
    found: &Reply<SourceFault>,
    wanted: (&str, &str),
) -> Result<(), Fail> {
    let (reply, events) = wanted;
    let text = reply_text(alloc, found)?;
    check_text(rt, text.as_str(), reply, (what, "the reply"));
    let text = events_text(alloc, found)?;
    check_text(rt, text.as_str(), events, (what, reply));
    Ok(())
}

/// The state before any request, but for the last number that was given to an object.
fn first_state(alloc: Global, last: u64) -> Result<PlainState, AllocError>
    ensures no_modules { IfOk result (λ state. state.modules.items ≡ []) }
{
    let mut state = PlainState::new(alloc, vec![in alloc; zero(alloc)?]?);
    state.last = last;
    Ok(state)
}

/// What the hosts of a row bring to its requests.
fn hosts_of(alloc: Global, row: &Row<'_>) -> Result<Hosts, Fail> {
    Ok(Hosts {
        pool: pool(alloc, row.host.counters)?,
        answers: answers(alloc, row.steps)?,
    })
}

/// What there is before the first request of a row, as a step that had nothing to do.
fn begun(alloc: Global, row: &Row<'_>) -> Result<Box<Step<SourceFault>>, Fail>
    ensures no_modules { IfOk result (λ s. s.value.state.modules.items ≡ []) }
{
    let hosts = hosts_of(alloc, row)?;
    let state = first_state(alloc, row.host.last)?;
    let reply = Reply::Done;
    let step = Step {
        reply,
        state,
        hosts,
    };
    Ok(Box::new(alloc, step)?)
}

/// Runs the requests of a row, one after another, and compares the reply and the events of each. The last step is what
/// they lead to.
fn check_exchanges(
    rt: &impl Abort,
    alloc: Global,
    sources: &Sources<'_>,
    row: &Row<'_>,
) -> Result<Box<Step<SourceFault>>, Fail> {
    let mut step = begun(alloc, row)?;
    for (line, reply, events) in row.exchanges {
        step = stepped(alloc, sources, row.host.budget, line, step)?;
        check_reply(rt, alloc, row.what, &step.reply, (*reply, *events))?;
    }
    Ok(step)
}

/// Runs the requests of a row, and compares what each is replied, and the state that is left.
pub fn check_row(rt: &impl Abort, alloc: Global, row: &Row<'_>) -> Result<(), Fail> {
    let registry = registry(alloc)?;
    let sources = Sources {
        registry: &registry,
    };
    let step = check_exchanges(rt, alloc, &sources, row)?;
    let found = state_text(alloc, &step.state, &step.hosts)?;
    check_text(rt, found.as_str(), row.left, (row.what, "the state"));
    Ok(())
}

/// Runs rows, each from the beginning.
pub fn check_rows(rt: &impl Abort, alloc: Global, rows: &[Row<'_>]) -> Result<(), Fail> {
    for row in rows {
        check_row(rt, alloc, row)?;
    }
    Ok(())
}
