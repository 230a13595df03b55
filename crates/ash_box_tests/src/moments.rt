//! Crashes at each moment of a making and of an opening. Whatever is left, the services have their states at the next
//! opening, and at the one after a request and a second crash.

use crate::checks::{check, check_text};
use crate::files::{File, disks_of};
use crate::visits::{Registered, Visit, visited};
use crate::watched::{Named, new_log, reports_of};
use ash_disk::{FuseDisk, MemoryDisk, Survives};
use ash_store_fixtures::hosts::{crashed, disk, image_after};
use ash_store_fixtures::lives::{HostStep, Start};
use std::alloc::{AllocError, Global};
use std::process::Abort;
use std::test::Fail;

/// What is done to the disks of a store: their files, how it begins, and the services that a host has; how many
/// requests were answered, and what the services of the next host report that they take.
struct Scene {
    what: &'static str,
    files: (File, File),
    start: Start,
    services: &'static [Named],
    seq: u64,
    taken: &'static str,
}

const CLOSED_FILES: (File, File) = (File::Bytes(&[1]), File::Bytes(&[7]));

static MADE: Scene = Scene {
    what: "a making",
    files: CLOSED_FILES,
    start: Start::Make,
    services: &[
        Named::Taking(1, 2, 5),
        Named::Taking(2, 3, -2),
        Named::Taking(3, 2, 9),
    ],
    seq: 0,
    taken: "taken 5:5 6:-2 |",
};

static OPENED: Scene = Scene {
    what: "an opening",
    files: (File::Loaded(1, (5, -2), (7, -3), 2), File::Bytes(&[7])),
    start: Start::Open,
    services: &[
        Named::Taking(1, 2, 0),
        Named::Taking(2, 3, 0),
        Named::Taking(3, 2, 9),
    ],
    seq: 1,
    taken: "taken 5:7 6:-3 |",
};

static MOVED: Scene = Scene {
    what: "an opening of version 1",
    files: (File::Older(1, (5, -2), (7, -3), 2), File::Bytes(&[7])),
    start: Start::Open,
    services: &[
        Named::Taking(1, 2, 0),
        Named::Taking(2, 3, 0),
        Named::Taking(3, 2, 9),
    ],
    seq: 1,
    taken: "taken 5:7 6:-3 |",
};

const TWO: Registered = Registered::Services(&[2, 3]);

/// What is asked of the next host: how many requests were answered, and one more.
const NEXT: Visit = Visit {
    start: Start::Open,
    registered: TWO,
    pool: &[],
    services: &[
        Named::Taking(5, 2, 0),
        Named::Taking(6, 3, 1),
        Named::Taking(7, 2, 2),
    ],
    steps: &[HostStep::Seq, HostStep::LoadAs("k", b"")],
};

/// What happens to a scene up to a crash: whether there is a host, and the disks.
#[derive(Drop)]
struct Stopped {
    is_begun: bool,
    first: MemoryDisk,
    second: MemoryDisk,
}

/// A scene whose disks fail after so many calls of the first and of the second. Only a disk may keep it from a host.
fn stop_after(
    rt: &impl Abort,
    alloc: Global,
    scene: &Scene,
    calls: (u64, u64),
) -> Result<Stopped, Fail> {
    let visit = Visit {
        start: scene.start,
        registered: TWO,
        pool: &[],
        services: scene.services,
        steps: &[],
    };
    let (first, second) = disks_of(alloc, scene.files)?;
    let disks = (
        FuseDisk::new(first, calls.0),
        FuseDisk::new(second, calls.1),
    );
    let (fault, (first, second)) = visited(alloc, disks, &visit, &new_log(alloc)?)?;
    let is_begun = fault.as_str().is_empty();
    let is_device = matches!(
        fault.as_str(),
        "Create(DeviceFailed)" | "Open(DeviceFailed)"
    );
    check(rt, &(is_begun || is_device), &true, scene.what);
    Ok(Stopped {
        is_begun,
        first: first.into_inner(),
        second: second.into_inner(),
    })
}

/// What the next host answers on these disks, and whether its services took what they are to take.
fn next_host(
    alloc: Global,
    scene: &Scene,
    disks: (MemoryDisk, MemoryDisk),
) -> Result<(String, bool, (MemoryDisk, MemoryDisk)), Fail> {
    let log = new_log(alloc)?;
    let (answers, disks) = visited(alloc, disks, &NEXT, &log)?;
    let reports = reports_of(alloc, &log)?;
    Ok((answers, reports.as_str().starts_with(scene.taken), disks))
}

/// Compares what the next host answers, and what the one after it answers, which comes after a second crash that leaves
/// what was synced.
fn check_next(
    rt: &impl Abort,
    alloc: Global,
    scene: &Scene,
    disks: (MemoryDisk, MemoryDisk),
) -> Result<(), Fail> {
    let (answers, has_taken, (first, second)) = next_host(alloc, scene, disks)?;
    let next = scene.seq.wrapping_add(1);
    let wanted = format!(in alloc; "{}\nok seq {next}\n", scene.seq)?;
    check_text(rt, answers.as_str(), wanted.as_str(), scene.what);
    check(rt, &has_taken, &true, scene.what);
    let disks = (
        crashed(alloc, &first, Survives::Nothing)?,
        crashed(alloc, &second, Survives::Nothing)?,
    );
    let (answers, has_taken, _) = next_host(alloc, scene, disks)?;
    let wanted = format!(in alloc; "{next}\nrefused 402 ModuleTaken\n")?;
    check_text(rt, answers.as_str(), wanted.as_str(), scene.what);
    check(rt, &has_taken, &true, scene.what);
    Ok(())
}

/// Whether no store is on two files.
fn is_nothing(first: &[u8], second: &[u8]) -> bool {
    let is_open = |file: &[u8]| file.len() > 1 && file.first() == Some(&1);
    !is_open(first) && !is_open(second)
}

/// What survives of the first disk and of the second in the crash of a number: nothing, all, or what a seed says.
fn crash_of(number: u64) -> (Survives, Survives) {
    match number {
        0 => (Survives::Nothing, Survives::Nothing),
        1 => (Survives::Nothing, Survives::Everything),
        2 => (Survives::Everything, Survives::Nothing),
        3 => (Survives::Everything, Survives::Everything),
        seed => (
            Survives::Part(seed),
            Survives::Part(seed.wrapping_mul(7919)),
        ),
    }
}

/// How many crashes there are at a moment.
const CRASHES: u64 = 12;

/// Compares what a crash of a number leaves after so many calls of each disk. While a store is made there may be none.
fn check_crash(
    rt: &impl Abort,
    alloc: Global,
    scene: &Scene,
    stopped: &Stopped,
    moment: (usize, usize, u64),
) -> Result<(), Fail> {
    let (first, second, number) = moment;
    let crash = crash_of(number);
    let first = image_after(&stopped.first, first, crash.0)?;
    let second = image_after(&stopped.second, second, crash.1)?;
    if scene.start == Start::Make && !stopped.is_begun && is_nothing(&first, &second) {
        return Ok(());
    }
    let disks = (disk(alloc, &first)?, disk(alloc, &second)?);
    check_next(rt, alloc, scene, disks)
}

/// Compares what crashes leave after so many calls of each disk.
fn check_moment(
    rt: &impl Abort,
    alloc: Global,
    scene: &Scene,
    stopped: &Stopped,
    moment: (usize, usize),
) -> Result<(), Fail> {
    for number in 0..CRASHES {
        check_crash(rt, alloc, scene, stopped, (moment.0, moment.1, number))?;
    }
    Ok(())
}

/// Compares what crashes leave in the last part of what a disk has had, when it was stopped: after its last call, and
/// amid it.
fn check_stopped(
    rt: &impl Abort,
    alloc: Global,
    scene: &Scene,
    stopped: &Stopped,
) -> Result<(), Fail> {
    let (first, second) = (stopped.first.calls(), stopped.second.calls());
    check_moment(rt, alloc, scene, stopped, (first, second))?;
    if !stopped.is_begun {
        check_moment(rt, alloc, scene, stopped, (first.saturating_sub(1), second))?;
        check_moment(rt, alloc, scene, stopped, (first, second.saturating_sub(1)))?;
    }
    Ok(())
}

/// Stops a scene after each call of the first disk, or of the second, and compares what crashes leave, until nothing
/// stops it. Gives how many stops there were.
fn count_stops(
    rt: &impl Abort,
    alloc: Global,
    scene: &Scene,
    is_second: bool,
) -> Result<u64, Fail> {
    for calls in 0..100 {
        let fuses = if is_second {
            (u64::MAX, calls)
        } else {
            (calls, u64::MAX)
        };
        let stopped = stop_after(rt, alloc, scene, fuses)?;
        check_stopped(rt, alloc, scene, &stopped)?;
        if stopped.is_begun {
            return Ok(calls);
        }
    }
    Err(Fail::from("no fuse is long enough"))
}

/// Compares how many stops there are of each disk.
fn check_scene(
    rt: &impl Abort,
    alloc: Global,
    scene: &Scene,
    wanted: (u64, u64),
) -> Result<(), Fail> {
    let first = count_stops(rt, alloc, scene, false)?;
    let second = count_stops(rt, alloc, scene, true)?;
    check(rt, &(first, second), &wanted, scene.what);
    Ok(())
}

// The length and the first bytes of each disk are read, twice; its gate is written over and synced; and on the first
// disk the generation is written and synced, and then its gate.
#[test]
fn crashes_while_a_store_is_made(rt: HostRuntime) -> Result<(), Fail> {
    check_scene(&rt, rt.alloc(), &MADE, (2 * 2 + 2 + 4, 2 * 2 + 2))
}

// The first disk is synced, its length and its first bytes are read, the lengths of the image and of the record and
// both, and the gate after it is written over and synced. The second is synced and looked at, and its gate is written
// over and synced.
#[test]
fn crashes_while_a_store_is_opened(rt: HostRuntime) -> Result<(), Fail> {
    check_scene(&rt, rt.alloc(), &OPENED, (1 + 2 + 2 * 2 + 2, 1 + 2 + 2))
}

// The same, and a generation is written to the second disk and synced, and then its gate.
#[test]
fn crashes_while_a_store_is_moved(rt: HostRuntime) -> Result<(), Fail> {
    check_scene(&rt, rt.alloc(), &MOVED, (1 + 2 + 2 * 2 + 2, 1 + 2 + 2 + 4))
}
