//! Memory that is refused once: `tests/program crashes` has each allocation of each of these tests fail in turn, and
//! they pass whichever it is. A request that was refused memory is asked again, and is answered then; or the store must
//! be opened again, and is in the state before the request or in the one after it.

use crate::checks::{check, check_text};
use crate::plans::{OBJECTS, Plan, SERVICE};
use crate::visits::{answer_to, begun, new_boxes, registered};
use ash_disk::MemoryDisk;
use ash_durable::{Host, OpenRefused};
use ash_host::{HostObject, NoMemory};
use ash_store_fixtures::hosts::{Boxes, closed};
use ash_store_fixtures::lives::Start;
use std::alloc::Global;
use std::process::Abort;
use std::test::Fail;

/// How many requests a plan has.
fn requests_in(plan: &Plan) -> usize {
    plan.lines.len().saturating_add(plan.again.len())
}

/// The request of a place in a plan, and what it is answered.
fn request_at(plan: &Plan, place: usize) -> (&'static str, &'static str) {
    let (lines, answers, place) = match place < plan.lines.len() {
        true => (plan.lines, plan.answers, place),
        false => (
            plan.again,
            plan.answers_again,
            place.saturating_sub(plan.lines.len()),
        ),
    };
    let line = lines.get(place).copied().unwrap_or_default();
    (line, answers.lines().nth(place).unwrap_or_default())
}

/// What is found before the request of a place. The making comes before all, and an opening before those of `again`.
fn found_before(plan: &Plan, place: usize) -> &'static str {
    let parts = match place < plan.lines.len() {
        true => place.saturating_add(1),
        false => place.saturating_add(2),
    };
    plan.reached_after(parts).found
}

/// The answer to a line, without its end.
fn trimmed(answer: &str) -> &str {
    answer.trim_end()
}

/// How far a plan is: how its store is begun next, the place of the next request, and the disks.
#[derive(Drop)]
struct Progress {
    start: Start,
    place: usize,
    disks: (MemoryDisk, MemoryDisk),
}

/// Asks a host for a request, and once more if memory was refused. Whether it was answered: else the host must be
/// opened again.
fn is_answered<B: HostObject>(
    rt: &impl Abort,
    alloc: Global,
    host: &mut Host<MemoryDisk, B>,
    plan: &Plan,
    place: usize,
) -> Result<bool, NoMemory> {
    let (line, wanted) = request_at(plan, place);
    let answer = answer_to(alloc, host, line)?;
    if trimmed(&answer) == wanted {
        return Ok(true);
    }
    let is_refusal = matches!(
        trimmed(&answer),
        "refused 509 NoMemory" | "refused 507 DeviceFailed"
    );
    if !is_refusal {
        check_text(rt, trimmed(&answer), wanted, line);
    }
    let again = answer_to(alloc, host, line)?;
    if trimmed(&again) == wanted {
        return Ok(true);
    }
    check_text(rt, trimmed(&again), "refused 508 Reopen", line);
    Ok(false)
}

/// Asks a host for the requests from a place on, up to one after which it must be opened again. Gives the place of
/// that one, or how many requests there are.
fn ask_from<B: HostObject>(
    rt: &impl Abort,
    alloc: Global,
    host: &mut Host<MemoryDisk, B>,
    plan: &Plan,
    from: usize,
) -> Result<usize, NoMemory> {
    for place in from..requests_in(plan) {
        if !is_answered(rt, alloc, host, plan, place)? {
            return Ok(place);
        }
    }
    Ok(requests_in(plan))
}

/// What those probes are answered that change nothing.
fn seen<B: HostObject>(
    alloc: Global,
    host: &mut Host<MemoryDisk, B>,
    plan: &Plan,
) -> Result<String, NoMemory> {
    let mut answers = String::new(alloc);
    for probe in plan.probes {
        if probe.starts_with("load") {
            return Ok(answers);
        }
        answers.push_str(&answer_to(alloc, host, probe)?)?;
    }
    Ok(answers)
}

/// Where a plan goes on by the state that is found: at the request of a place, or after it.
fn place_found<B: HostObject>(
    rt: &impl Abort,
    alloc: Global,
    host: &mut Host<MemoryDisk, B>,
    plan: &Plan,
    place: usize,
) -> Result<usize, NoMemory> {
    let found = seen(alloc, host, plan)?;
    if found_before(plan, place).starts_with(found.as_str()) {
        return Ok(place);
    }
    let next = place.saturating_add(1);
    let is_next = found_before(plan, next).starts_with(found.as_str());
    if !is_next {
        check_text(rt, &found, found_before(plan, place), plan.what);
    }
    Ok(next)
}

/// Makes or opens a store with these boxes, and asks for the requests that are left. If memory is refused to the making
/// or the opening, no request is asked for.
fn go_on<B: HostObject>(
    rt: &impl Abort,
    alloc: Global,
    plan: &Plan,
    progress: Progress,
    boxes: Boxes<B>,
) -> Result<Progress, NoMemory> {
    let Progress {
        start,
        place,
        disks,
    } = progress;
    match begun(alloc, disks, registered(alloc)?, boxes, start) {
        Ok(mut host) => {
            let from = place_found(rt, alloc, &mut host, plan, place)?;
            let place = ask_from(rt, alloc, &mut host, plan, from)?;
            Ok(Progress {
                start: Start::Open,
                place,
                disks: closed(host),
            })
        }
        Err(OpenRefused { fault: _, a, b }) => Ok(Progress {
            start,
            place,
            disks: (a, b),
        }),
    }
}

/// How often a store is begun at most: it is made, and opened again after a making, an opening or a request that was
/// refused memory.
const MAX_BEGINNINGS: usize = 4;

/// Plays a plan to its end. A store that must be opened again is opened with new boxes.
fn play(rt: &impl Abort, alloc: Global, plan: &Plan) -> Result<(), NoMemory> {
    let mut progress = Progress {
        start: Start::Make,
        place: 0,
        disks: (MemoryDisk::new(alloc), MemoryDisk::new(alloc)),
    };
    for _ in 0..MAX_BEGINNINGS {
        progress = go_on(rt, alloc, plan, progress, new_boxes(alloc)?)?;
        if progress.place == requests_in(plan) {
            return Ok(());
        }
    }
    // A store that was not made whole is made anew, on other disks.
    check(rt, &progress.start, &Start::Make, plan.what);
    Err(NoMemory)
}

/// The same, and once more if the test itself was refused memory.
fn play_at_last(rt: &impl Abort, alloc: Global, plan: &Plan) -> Result<(), NoMemory> {
    match play(rt, alloc, plan) {
        Ok(()) => Ok(()),
        Err(NoMemory) => play(rt, alloc, plan),
    }
}

#[test]
fn a_service_that_is_refused_memory(rt: HostRuntime) -> Result<(), Fail> {
    Ok(play_at_last(&rt, rt.alloc(), &SERVICE)?)
}

#[test]
fn objects_that_are_refused_memory(rt: HostRuntime) -> Result<(), Fail> {
    Ok(play_at_last(&rt, rt.alloc(), &OBJECTS)?)
}
