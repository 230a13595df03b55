//! Stops at each call of either disk, and crashes at each moment.

use crate::checks::{check, check_text};
use crate::plans::{OBJECTS, Plan, SERVICE};
use crate::visits::{Visited, visit};
use ash_disk::{FuseDisk, MemoryDisk, Survives};
use ash_durable::{OpenFault, StoreFault};
use ash_store_fixtures::hosts::{crashed, disk, fuse, image_after, inner};
use ash_store_fixtures::lives::Start;
use std::alloc::Global;
use std::process::Abort;
use std::test::Fail;

type Fused = FuseDisk<MemoryDisk>;

/// Where a plan was stopped: how many parts were acknowledged, and the disks.
#[derive(Drop)]
struct Stopped {
    done: usize,
    first: MemoryDisk,
    second: MemoryDisk,
}

/// Serves a plan over disks that fail after so many calls, up to the first part that is not acknowledged.
fn stopped_after(
    rt: &impl Abort,
    alloc: Global,
    plan: &Plan,
    calls: (u64, u64),
) -> Result<Stopped, Fail> {
    let disks = (fuse(alloc, calls.0), fuse(alloc, calls.1));
    let made = visit(alloc, disks, Start::Make, plan.lines)?;
    check(rt, &made.is_device(), &true, plan.what);
    let mut done = done_of(&made);
    let mut disks = made.disks;
    if done > plan.lines.len() {
        check_text(rt, &made.answers, plan.answers, plan.what);
        let opened = visit(alloc, disks, Start::Open, plan.again)?;
        check(rt, &opened.is_device(), &true, plan.what);
        if opened.done == plan.again.len() {
            check_text(rt, &opened.answers, plan.answers_again, plan.what);
        }
        done = done.saturating_add(done_of(&opened));
        disks = opened.disks;
    }
    Ok(Stopped {
        done,
        first: inner(disks.0),
        second: inner(disks.1),
    })
}

/// How many parts of a visit were acknowledged: the making or the opening, and lines.
fn done_of(visited: &Visited<Fused>) -> usize {
    match visited.fault {
        Some(_) => 0,
        None => visited.done.saturating_add(1),
    }
}

/// What survives a crash of a number on the first disk and on the second: the extremes, and what seeds give.
fn crash_of(number: u64) -> (Survives, Survives) {
    match number {
        0 => (Survives::Nothing, Survives::Nothing),
        1 => (Survives::Nothing, Survives::Everything),
        2 => (Survives::Everything, Survives::Nothing),
        3 => (Survives::Everything, Survives::Everything),
        seed => (
            Survives::Part(seed),
            Survives::Part(seed.wrapping_mul(7919)),
        ),
    }
}

/// The answer to the last of some probes, a line.
fn last_line(answers: &str) -> &str {
    answers.lines().last().unwrap_or_default()
}

/// Compares what is found after what the probes changed and a second crash, which leaves what was synced: the number of
/// the last answer.
fn check_again(
    rt: &impl Abort,
    alloc: Global,
    plan: &Plan,
    found: Visited<MemoryDisk>,
) -> Result<(), Fail> {
    let disks = (
        crashed(alloc, &found.disks.0, Survives::Nothing)?,
        crashed(alloc, &found.disks.1, Survives::Nothing)?,
    );
    let again = visit(alloc, disks, Start::Open, &["seq"])?;
    let wanted = format!(in alloc; "{}\n", last_line(&found.answers))?;
    check_text(rt, &again.answers, &wanted, plan.what);
    Ok(())
}

/// Compares what the images of both disks hold with what was acknowledged, or the part in progress more. Before a store
/// is made there may be none.
fn check_images(
    rt: &impl Abort,
    alloc: Global,
    plan: &Plan,
    done: usize,
    images: (&[u8], &[u8]),
) -> Result<(), Fail> {
    let disks = (disk(alloc, images.0)?, disk(alloc, images.1)?);
    let found = visit(alloc, disks, Start::Open, plan.probes)?;
    if done == 0 && found.fault == Some(StoreFault::Open(OpenFault::NoGeneration)) {
        return Ok(());
    }
    let more = plan.reached_after(done.saturating_add(1).min(plan.parts()));
    if found.answers.as_str() != more.found {
        check_text(
            rt,
            &found.answers,
            plan.reached_after(done).found,
            plan.what,
        );
    }
    check_again(rt, alloc, plan, found)
}

/// How many crashes there are at a moment.
const CRASHES: u64 = 8;

/// A moment of a plan: how many parts were acknowledged, and how many calls each disk has had.
#[derive(Clone, Copy)]
struct Moment {
    done: usize,
    first: usize,
    second: usize,
}

/// Looks at what the crash of a number leaves at a moment.
fn check_crash(
    rt: &impl Abort,
    alloc: Global,
    plan: &Plan,
    stopped: &Stopped,
    moment: Moment,
    number: u64,
) -> Result<(), Fail> {
    let crash = crash_of(number);
    let first = image_after(&stopped.first, moment.first, crash.0)?;
    let second = image_after(&stopped.second, moment.second, crash.1)?;
    check_images(rt, alloc, plan, moment.done, (&first, &second))
}

/// Looks at what crashes leave at a moment.
fn check_moment(
    rt: &impl Abort,
    alloc: Global,
    plan: &Plan,
    stopped: &Stopped,
    moment: Moment,
) -> Result<(), Fail> {
    for number in 0..CRASHES {
        check_crash(rt, alloc, plan, stopped, moment, number)?;
    }
    Ok(())
}

/// Looks at what crashes leave from a moment on, up to so many calls of the second disk.
fn check_moments_of_second(
    rt: &impl Abort,
    alloc: Global,
    plan: &Plan,
    stopped: &Stopped,
    from: Moment,
    to: usize,
) -> Result<(), Fail> {
    for second in from.second..=to {
        check_moment(rt, alloc, plan, stopped, Moment { second, ..from })?;
    }
    Ok(())
}

/// Looks at what crashes leave from what was reached after so many parts on, up to so many calls of each disk.
fn check_moments(
    rt: &impl Abort,
    alloc: Global,
    plan: &Plan,
    stopped: &Stopped,
    done: usize,
    to: (usize, usize),
) -> Result<(), Fail> {
    let reached = plan.reached_after(done);
    let second = reached.second;
    for first in reached.first..=to.0 {
        let from = Moment {
            done,
            first,
            second,
        };
        check_moments_of_second(rt, alloc, plan, stopped, from, to.1)?;
    }
    Ok(())
}

/// Stops a plan at each call of one disk, and looks at what crashes leave, until it runs to its end. Gives how many
/// stops there were.
fn count_stops(rt: &impl Abort, alloc: Global, plan: &Plan, is_second: bool) -> Result<u64, Fail> {
    for calls in 0..200 {
        let fuses = match is_second {
            true => (u64::MAX, calls),
            false => (calls, u64::MAX),
        };
        let stopped = stopped_after(rt, alloc, plan, fuses)?;
        let to = (stopped.first.calls(), stopped.second.calls());
        check_moments(rt, alloc, plan, &stopped, stopped.done, to)?;
        if stopped.done == plan.parts() {
            return Ok(calls);
        }
    }
    Err(Fail::from("no fuse is long enough"))
}

/// Stops a plan at each call of either disk. There are so many stops of each.
fn check_stops(
    rt: &impl Abort,
    alloc: Global,
    plan: &Plan,
    wanted: (u64, u64),
) -> Result<(), Fail> {
    let first = count_stops(rt, alloc, plan, false)?;
    let second = count_stops(rt, alloc, plan, true)?;
    check(rt, &(first, second), &wanted, plan.what);
    Ok(())
}

/// Looks at each moment of each part of a plan that runs to its end.
fn check_each_moment(rt: &impl Abort, alloc: Global, plan: &Plan) -> Result<(), Fail> {
    let ended = stopped_after(rt, alloc, plan, (u64::MAX, u64::MAX))?;
    check(rt, &ended.done, &plan.parts(), plan.what);
    let last = plan.reached_after(plan.parts());
    let calls = (ended.first.calls(), ended.second.calls());
    check(rt, &calls, &(last.first, last.second), plan.what);
    for done in 0..plan.parts() {
        let next = plan.reached_after(done.saturating_add(1));
        check_moments(rt, alloc, plan, &ended, done, (next.first, next.second))?;
    }
    Ok(())
}

// The first disk has a store's making of 9 calls, and two requests; then its opening, which looks at an older
// generation. The second has 5 of the making, the snapshot, two requests, the opening, which reads the image and two
// records, and a request for each line after it.
#[test]
fn stops_with_a_service(rt: HostRuntime) -> Result<(), Fail> {
    let second = 5 + 4 + 2 * 4 + (1 + 2 + 3 * 2) + 2 * 4;
    check_stops(&rt, rt.alloc(), &SERVICE, (9 + 2 * 4 + 1 + 2, second))
}

#[test]
fn stops_with_objects(rt: HostRuntime) -> Result<(), Fail> {
    let second = 5 + 4 + 2 * 4 + (1 + 2 + 3 * 2) + 3 * 4;
    check_stops(&rt, rt.alloc(), &OBJECTS, (9 + 2 * 4 + 1 + 2, second))
}

#[test]
fn each_moment_with_a_service(rt: HostRuntime) -> Result<(), Fail> {
    check_each_moment(&rt, rt.alloc(), &SERVICE)
}

#[test]
fn each_moment_with_objects(rt: HostRuntime) -> Result<(), Fail> {
    check_each_moment(&rt, rt.alloc(), &OBJECTS)
}
