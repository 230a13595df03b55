//! Stops at every call of either disk, and what crashes leave of both, at each moment of the request in progress.

use crate::checks::check;
use crate::hosts::{BoxedHost, Disks, closed_disks, found_host, state_after_crash, when_done};
use crate::stores::fuses::{Failing, fused_disks, fuses};
use crate::stores::plans::{Plan, Reached, Step, Stopped, handle_plan};
use ash_disk::Survives;
use ash_durable::{OpenFault, StoreFault};
use ash_states::state::HostReply;
use ash_store_fixtures::hosts::{SOURCE, State, add, image_after, load, state};
use ash_store_fixtures::lives::{File, disks_of};
use std::alloc::Global;
use std::process::Abort;
use std::test::Fail;

// The first example's requests, two snapshots with a request after each, and a request after it was opened again.
//
// To make the store is a write and a sync of the first gate of each disk, and two writes and two syncs of the
// generation. A request is two writes and two syncs on the current disk, and a snapshot on the other, where the gate of
// an older generation takes a write and a sync more. An opening syncs both disks.
static FROM_NOTHING: Plan = Plan {
    is_new: true,
    source: SOURCE,
    steps: STEPS,
    steps_again: &[Step::Call(-9)],
    reached: REACHED_FROM_NOTHING,
};

const STEPS: &[Step] = &[
    Step::Load,
    Step::Call(5),
    Step::Snapshot,
    Step::Call(1),
    Step::Snapshot,
    Step::Call(1),
];

const REACHED_FROM_NOTHING: &[Reached] = &[
    ((0, None), 0, 0),
    ((0, None), 6, 2),
    ((1, Some(2)), 10, 2),
    ((2, Some(7)), 14, 2),
    ((2, Some(7)), 14, 6),
    ((3, Some(8)), 14, 10),
    ((3, Some(8)), 20, 10),
    ((4, Some(9)), 24, 10),
    ((4, Some(9)), 25, 11),
    ((5, Some(0)), 29, 11),
];

// Each call makes an object, whose field goes on from that of the one before it, and puts it into an array.
const OBJECTS: &[u8] = b"class C { int v = 2; } C@ last = C(); array<C@> all; int n = 2; \
    int f(int k) { C@ c = C(); c.v = last.v + k; @last = c; all.insertLast(c); n = last.v; return n; }";

// The same requests, of a module with objects.
static WITH_OBJECTS: Plan = Plan {
    is_new: true,
    source: OBJECTS,
    steps: STEPS,
    steps_again: &[Step::Call(-9)],
    reached: REACHED_FROM_NOTHING,
};

// A store of version 1. To open it is a sync of each disk, and an installation on the second one. Then come a
// request, the opening again, and a request.
static FROM_VERSION_ONE: Plan = Plan {
    is_new: false,
    source: SOURCE,
    steps: &[Step::Call(1)],
    steps_again: &[Step::Call(1)],
    reached: &[
        ((2, Some(7)), 0, 0),
        ((2, Some(7)), 1, 1 + 4),
        ((3, Some(8)), 1, 5 + 4),
        ((3, Some(8)), 2, 10),
        ((4, Some(9)), 2, 14),
    ],
};

/// What is on two disks before a plan.
type Files = (File, File);

const NO_FILES: Files = (File::Bytes(&[]), File::Bytes(&[]));

const VERSION_ONE: Files = (
    File::Older(1, (0, None), &[(1, Some(2)), (2, Some(7))]),
    File::Bytes(&[0]),
);

/// The state after one request more, which is a call where there is a module, and a load where there is none.
fn state_after(found: State) -> State {
    match found {
        (seq, Some(number)) => (seq.wrapping_add(1), Some(number.wrapping_add(1))),
        (seq, None) => (seq.wrapping_add(1), Some(2)),
    }
}

/// Handles that request.
fn go_on(host: &mut BoxedHost, source: &[u8]) -> HostReply {
    match state(host) {
        (_, Some(_)) => add(host, 1),
        (_, None) => load(host, source),
    }
}

/// The state of a host, and its disks after one request more.
fn gone_on(alloc: Global, mut host: BoxedHost, source: &[u8]) -> Result<(State, Disks), Fail> {
    let before = state(&mut host);
    let reply = go_on(&mut host, source);
    let host = when_done(alloc, host, reply)?;
    Ok((before, closed_disks(alloc, host)?))
}

/// The state of a host, and the one that is found after one request more and a crash.
fn states_from(
    alloc: Global,
    host: BoxedHost,
    source: &[u8],
) -> Result<Result<(State, State), StoreFault>, Fail> {
    let (before, disks) = gone_on(alloc, host, source)?;
    match state_after_crash(alloc, &disks, Survives::Nothing)? {
        Ok(after) => Ok(Ok((before, after))),
        Err(fault) => Ok(Err(fault)),
    }
}

/// Opens what a crash left, handles one request more, and opens what a second crash leaves: the state that was found
/// first, and the last.
fn states_of(
    alloc: Global,
    source: &[u8],
    first: &[u8],
    second: &[u8],
) -> Result<Result<(State, State), StoreFault>, Fail> {
    match found_host(alloc, first, second)? {
        Ok(host) => states_from(alloc, host, source),
        Err(fault) => Ok(Err(fault)),
    }
}

/// Whether the images of both disks hold what was acknowledged, or the part in progress more, and go on from there.
/// Before a store is made there may be none.
pub(crate) fn is_held(
    alloc: Global,
    plan: &Plan,
    done: usize,
    first: &[u8],
    second: &[u8],
) -> Result<bool, Fail> {
    match states_of(alloc, plan.source, first, second)? {
        Ok((before, after)) => Ok(plan.is_state(done, before) && after == state_after(before)),
        Err(fault) => {
            let is_nothing = fault == StoreFault::Open(OpenFault::NoGeneration);
            Ok(plan.is_new && done == 0 && is_nothing)
        }
    }
}

/// What survives a crash on the first disk and on the second.
pub(crate) type Crash = (Survives, Survives);

/// The crash of a number: the extremes, and those that seeds give.
pub(crate) fn crash_of(number: u64) -> Crash {
    match number {
        0 => (Survives::Nothing, Survives::Nothing),
        1 => (Survives::Nothing, Survives::Everything),
        2 => (Survives::Everything, Survives::Nothing),
        3 => (Survives::Everything, Survives::Everything),
        seed => (
            Survives::Part(seed),
            Survives::Part(seed.wrapping_mul(7919)),
        ),
    }
}

/// A moment: how many parts of a plan are done, and how many calls each disk has had.
type Moment = (usize, usize, usize);

/// Whether the images of a crash at a moment hold what they are to hold.
fn is_held_after(
    alloc: Global,
    plan: &Plan,
    stopped: &Stopped,
    moment: Moment,
    crash: Crash,
) -> Result<bool, Fail> {
    let (done, first, second) = moment;
    let first = image_after(&stopped.first, first, crash.0)?;
    let second = image_after(&stopped.second, second, crash.1)?;
    is_held(alloc, plan, done, &first, &second)
}

/// How many crashes there are at a moment.
const CRASHES: u64 = 20;

/// The first crash at a moment whose images don't hold what they are to hold.
fn loss_at(
    alloc: Global,
    plan: &Plan,
    stopped: &Stopped,
    moment: Moment,
) -> Result<Option<Crash>, Fail> {
    for number in 0..CRASHES {
        let crash = crash_of(number);
        if !is_held_after(alloc, plan, stopped, moment, crash)? {
            return Ok(Some(crash));
        }
    }
    Ok(None)
}

/// Looks at what crashes leave at a moment.
fn check_moment(
    rt: &impl Abort,
    alloc: Global,
    plan: &Plan,
    stopped: &Stopped,
    moment: Moment,
) -> Result<(), Fail> {
    let loss = loss_at(alloc, plan, stopped, moment)?;
    check(
        rt,
        &(moment, loss),
        &(moment, None),
        "parts, calls of both disks, and a loss",
    );
    Ok(())
}

/// Looks at what crashes leave at each moment since the last part that was acknowledged.
fn check_moments(
    rt: &impl Abort,
    alloc: Global,
    plan: &Plan,
    stopped: &Stopped,
) -> Result<(), Fail> {
    let (_, from_first, from_second) = plan.reached_after(stopped.done);
    for first in from_first..=stopped.first.calls() {
        for second in from_second..=stopped.second.calls() {
            check_moment(rt, alloc, plan, stopped, (stopped.done, first, second))?;
        }
    }
    Ok(())
}

/// Stops a plan over disks with these files, which fail after so many calls.
fn stopped_after(
    alloc: Global,
    plan: &Plan,
    files: Files,
    calls: (u64, u64),
) -> Result<Stopped, Fail> {
    let disks = disks_of(alloc, files.0, files.1)?;
    handle_plan(alloc, plan, fused_disks(alloc, disks, calls)?)
}

/// Stops a plan over disks with these files at each call of one disk, and looks at what crashes leave. Gives how many
/// stops there were until it ran to its end.
fn count_stops(
    rt: &impl Abort,
    alloc: Global,
    plan: &Plan,
    files: Files,
    failing: Failing,
) -> Result<u64, Fail> {
    for calls in 0..200 {
        let stopped = stopped_after(alloc, plan, files, fuses(failing, calls, u64::MAX))?;
        check_moments(rt, alloc, plan, &stopped)?;
        if stopped.done == plan.parts() {
            return Ok(calls);
        }
    }
    Err(Fail::from("no fuse is long enough"))
}

// The store is made by 9 calls: a length, a length and the first bytes, 2 for the first gate, 4 for the generation. Two
// requests, the second snapshot over an older generation, and a request. The opening syncs, looks twice, and reads the
// lengths and the bytes of the image and a record. And a request.
const STOPS_OF_FIRST: u64 = 9 + 2 * 4 + 6 + 4 + (1 + 2 + 2 * 2) + 4;

// To make the store, 1 + 2 and 2 for the first gate; the first snapshot and a request; and the opening looks at it.
const STOPS_OF_SECOND: u64 = 5 + 4 + 4 + 1 + 2;

#[test]
fn the_first_disk_fails(rt: HostRuntime) -> Result<(), Fail> {
    let stops = count_stops(&rt, rt.alloc(), &FROM_NOTHING, NO_FILES, Failing::First)?;
    check(&rt, &stops, &STOPS_OF_FIRST, "stops");
    Ok(())
}

#[test]
fn the_second_disk_fails(rt: HostRuntime) -> Result<(), Fail> {
    let stops = count_stops(&rt, rt.alloc(), &FROM_NOTHING, NO_FILES, Failing::Second)?;
    check(&rt, &stops, &STOPS_OF_SECOND, "stops");
    Ok(())
}

/// Compares how many stops there are of the plan with objects.
fn check_stops_with_objects(
    rt: &impl Abort,
    alloc: Global,
    failing: Failing,
    wanted: u64,
    what: &str,
) -> Result<(), Fail> {
    let stops = count_stops(rt, alloc, &WITH_OBJECTS, NO_FILES, failing)?;
    check(rt, &stops, &wanted, what);
    Ok(())
}

#[test]
fn a_disk_fails_with_objects(rt: HostRuntime) -> Result<(), Fail> {
    let (alloc, what) = (rt.alloc(), "stops of the first disk, with objects");
    check_stops_with_objects(&rt, alloc, Failing::First, STOPS_OF_FIRST, what)?;
    let what = "stops of the second disk, with objects";
    check_stops_with_objects(&rt, alloc, Failing::Second, STOPS_OF_SECOND, what)
}

/// Looks at each moment of the part after so many, on disks that have outlived it: what was written later is in no
/// image.
fn check_part(
    rt: &impl Abort,
    alloc: Global,
    plan: &Plan,
    ended: &Stopped,
    done: usize,
) -> Result<(), Fail> {
    let (_, from_first, from_second) = plan.reached_after(done);
    let (_, to_first, to_second) = plan.reached_after(done.wrapping_add(1));
    for first in from_first..=to_first {
        for second in from_second..=to_second {
            check_moment(rt, alloc, plan, ended, (done, first, second))?;
        }
    }
    Ok(())
}

/// Compares how many parts are done of a plan that ran to its end, and how many calls the disks have had.
fn check_ended(rt: &impl Abort, plan: &Plan, ended: &Stopped) {
    check(rt, &ended.done, &plan.parts(), "parts");
    let (_, first, second) = plan.reached_after(plan.parts());
    let calls = (ended.first.calls(), ended.second.calls());
    check(rt, &calls, &(first, second), "calls of both disks");
}

/// Looks at each moment of each part of a plan over disks with these files.
fn check_each_moment(
    rt: &impl Abort,
    alloc: Global,
    plan: &Plan,
    files: Files,
) -> Result<(), Fail> {
    let ended = stopped_after(alloc, plan, files, (u64::MAX, u64::MAX))?;
    check_ended(rt, plan, &ended);
    for done in 0..plan.parts() {
        check_part(rt, alloc, plan, &ended, done)?;
    }
    Ok(())
}

#[test]
fn each_moment_of_a_life(rt: HostRuntime) -> Result<(), Fail> {
    check_each_moment(&rt, rt.alloc(), &FROM_NOTHING, NO_FILES)
}

#[test]
fn each_moment_of_a_life_with_objects(rt: HostRuntime) -> Result<(), Fail> {
    check_each_moment(&rt, rt.alloc(), &WITH_OBJECTS, NO_FILES)
}

#[test]
fn each_moment_of_a_store_of_version_one(rt: HostRuntime) -> Result<(), Fail> {
    check_each_moment(&rt, rt.alloc(), &FROM_VERSION_ONE, VERSION_ONE)
}

/// Compares how many stops there are of the plan from version 1.
fn check_stops_of_version_one(
    rt: &impl Abort,
    alloc: Global,
    failing: Failing,
    wanted: u64,
    what: &str,
) -> Result<(), Fail> {
    let stops = count_stops(rt, alloc, &FROM_VERSION_ONE, VERSION_ONE, failing)?;
    check(rt, &stops, &wanted, what);
    Ok(())
}

#[test]
fn a_disk_of_a_store_of_version_one_fails(rt: HostRuntime) -> Result<(), Fail> {
    // An opening syncs, looks twice, and reads the lengths and the bytes of the image and two records. Opened again the
    // first file is the older generation, and only looked at.
    let (stops, what) = (1 + 2 + 3 * 2 + 1 + 2, "stops of the first disk");
    check_stops_of_version_one(&rt, rt.alloc(), Failing::First, stops, what)?;
    // An opening looks at it, and installs; a record is added; then it is current, and read; and a record more.
    let (stops, what) = (
        1 + 2 + 4 + 4 + (1 + 2 + 2 * 2) + 4,
        "stops of the second disk",
    );
    check_stops_of_version_one(&rt, rt.alloc(), Failing::Second, stops, what)
}
