//! Stops at every call of either disk, and what crashes leave of them.

use super::{PlacedRecord, Step, append, count_passed, has_contents, open_bytes};
use crate::compare::check_number;
use crate::disks::image;
use ash_disk::{Disk, FuseDisk, MemoryDisk, Survives};
use ash_journal::{AppendError, Journal, OpenFault, OpenedJournal};
use std::alloc::{AllocError, Global};
use std::process::Abort;
use std::test::Fail;

// The calls of a journal once it is created with the image `zero`.
static STEPS: [Step; 5] = [
    Step::Append(b"first"),
    Step::Append(b""),
    Step::Append(b"the third"),
    Step::Install(b"next"),
    Step::Append(b"first"),
];

// And those once it is closed and opened again.
static STEPS_AGAIN: [Step; 2] = [Step::Settle, Step::Append(b"")];

/// What a journal holds: its image and its records.
type Contents = (&'static [u8], &'static [PlacedRecord]);

// What a journal holds after it is created, and after each generation and record that is added.
static STATES: [Contents; 7] = [
    (b"zero", &[]),
    (b"zero", &[(25, b"first")]),
    (b"zero", &[(25, b"first"), (35, b"")]),
    (b"zero", &[(25, b"first"), (35, b""), (40, b"the third")]),
    (b"next", &[]),
    (b"next", &[(25, b"first")]),
    (b"next", &[(25, b"first"), (35, b"")]),
];

// Where a run stopped: how many states were acknowledged, and the disks.
#[derive(Drop)]
struct StoppedRun {
    acknowledged: usize,
    first: MemoryDisk,
    second: MemoryDisk,
}

// The end of a run: the disks are opened again, and a record is added.
fn last_steps<D: Disk>(alloc: Global, first: D, second: D) -> (usize, D, D) {
    match Journal::open(alloc, first, second) {
        Ok(found) => {
            let mut journal = found.journal;
            let is_done = count_passed(&mut journal, &STEPS_AGAIN) == STEPS_AGAIN.len();
            let (first, second) = journal.close();
            (usize::from(is_done), first, second)
        }
        Err(refused) => (0, refused.first, refused.second),
    }
}

// A run over two disks: how many states were acknowledged, and the disks.
fn run<D: Disk>(alloc: Global, first: D, second: D) -> (usize, D, D) {
    match Journal::create(alloc, first, second, b"zero") {
        Err(refused) => (0, refused.first, refused.second),
        Ok(mut journal) => {
            let done = count_passed(&mut journal, &STEPS).wrapping_add(1);
            let (first, second) = journal.close();
            if done <= STEPS.len() {
                return (done, first, second);
            }
            let (more, first, second) = last_steps(alloc, first, second);
            (done.wrapping_add(more), first, second)
        }
    }
}

// A run over two disks that fail after so many calls.
fn stop_run(alloc: Global, first_calls: u64, second_calls: u64) -> StoppedRun {
    let first = FuseDisk::new(MemoryDisk::new(alloc), first_calls);
    let second = FuseDisk::new(MemoryDisk::new(alloc), second_calls);
    let (acknowledged, first, second) = run(alloc, first, second);
    StoppedRun {
        acknowledged,
        first: first.into_inner(),
        second: second.into_inner(),
    }
}

// Whether what was found is the state of a number, from 1 on.
fn is_state(found: &OpenedJournal<MemoryDisk>, number: usize) -> bool {
    match STATES.get(number.wrapping_sub(1)) {
        Some((image, records)) => has_contents(found, image, records),
        None => false,
    }
}

// What an image holds is what was acknowledged, or the step in progress more; before the first step it may be none. And
// so it stays once that is settled, with one record more.
fn holds(alloc: Global, done: usize, first: &[u8], second: &[u8]) -> Result<bool, AllocError> {
    let mut found = match open_bytes(alloc, first, second) {
        Ok(found) => found,
        Err(OpenFault::NoMemory) => return Err(AllocError),
        Err(fault) => return Ok(done == 0 && fault == OpenFault::NoGeneration),
    };
    if !is_state(&found, done) && !is_state(&found, done.wrapping_add(1)) {
        return Ok(false);
    }
    let count = found.records.len();
    if found.journal.settle().is_err() {
        return Ok(false);
    }
    match append(&mut found.journal, b"more") {
        Ok(()) => {}
        Err(AppendError::NoMemory) => return Err(AllocError),
        Err(AppendError::DeviceFailed) => return Ok(false),
    }
    let (first, second) = found.journal.close();
    match open_bytes(alloc, first.bytes(), second.bytes()) {
        Ok(again) => Ok(again.records.len() == count.wrapping_add(1)),
        Err(_) => Ok(false),
    }
}

// How much survives a crash, of the first disk and of the second.
type Crash = (Survives, Survives);

// Whether what a crash leaves of the disks holds.
fn outlives(alloc: Global, stopped: &StoppedRun, crash: Crash) -> Result<bool, AllocError> {
    let first = image(&stopped.first, usize::MAX, crash.0)?;
    let second = image(&stopped.second, usize::MAX, crash.1)?;
    holds(alloc, stopped.acknowledged, &first, &second)
}

// The first crash that loses something, of the extremes, and of a thousand that seeds give.
fn first_loss(alloc: Global, stopped: &StoppedRun) -> Result<Option<Crash>, AllocError> {
    let (nothing, everything) = (Survives::Nothing, Survives::Everything);
    for crash in [
        (nothing, nothing),
        (nothing, everything),
        (everything, nothing),
        (everything, everything),
    ] {
        if !outlives(alloc, stopped, crash)? {
            return Ok(Some(crash));
        }
    }
    for seed in 0..1000_u64 {
        let second = Survives::Part(seed.wrapping_mul(7919));
        let crash = (Survives::Part(seed), second);
        if !outlives(alloc, stopped, crash)? {
            return Ok(Some(crash));
        }
    }
    Ok(None)
}

// Stops a run, and looks at what crashes leave.
fn check_stop(
    rt: &impl Abort,
    alloc: Global,
    first_calls: u64,
    second_calls: u64,
) -> Result<usize, Fail> {
    let stopped = stop_run(alloc, first_calls, second_calls);
    let loss = first_loss(alloc, &stopped)?;
    assert_eq!(rt;
        loss,
        None,
        "stopped after {first_calls} and {second_calls} calls"
    );
    Ok(stopped.acknowledged)
}

// Which of two disks fails.
#[derive(Clone, Copy)]
enum StoppedDisk {
    First,
    Second,
}

// After how many calls of one disk a run is stopped at most, where the other does not fail.
fn count_stops(rt: &impl Abort, alloc: Global, failing: StoppedDisk) -> Result<u64, Fail> {
    let mut stops = 0_u64;
    for calls in 0..200 {
        let (first, second) = match failing {
            StoppedDisk::First => (calls, u64::MAX),
            StoppedDisk::Second => (u64::MAX, calls),
        };
        if check_stop(rt, alloc, first, second)? == 7 {
            break;
        }
        stops = calls.wrapping_add(1);
    }
    Ok(stops)
}

#[test]
fn the_first_disk_fails(rt: HostRuntime) -> Result<(), Fail> {
    let stops = count_stops(&rt, rt.alloc(), StoppedDisk::First)?;
    // A look is 2 calls, a gate 2, a commit 4, and opening 3 where the file is not current.
    check_number(
        &rt,
        stops,
        2 + 2 + 4 + 3 * 4 + 3,
        "the first disk",
        "the stops",
    );
    Ok(())
}

#[test]
fn the_second_disk_fails(rt: HostRuntime) -> Result<(), Fail> {
    let stops = count_stops(&rt, rt.alloc(), StoppedDisk::Second)?;
    // A look is 2 calls, a gate 2, a commit 4, opening 3, and the image and the record to read 2 each.
    let wanted = 2 + 2 + 4 + 4 + 3 + 2 * 2 + 4;
    check_number(&rt, stops, wanted, "the second disk", "the stops");
    Ok(())
}
