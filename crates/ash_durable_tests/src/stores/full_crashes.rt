//! Stops of a store whose next request installs a generation, at every call of either disk, and what crashes leave.

use crate::checks::check;
use crate::stores::crashes::is_held;
use crate::stores::fuses::{Failing, FusedDisks, fused_disks, fuses};
use crate::stores::plans::{Plan, Step, Stopped, handle_plan};
use ash_disk::Survives;
use ash_store_fixtures::full::{AT_THE_LIMIT, full_file};
use ash_store_fixtures::hosts::{SOURCE, disk, image_after};
use std::alloc::{AllocError, Global};
use std::process::Abort;
use std::test::Fail;

// A store whose next request installs a generation on the second disk, and what is asked of it after that.
static FROM_A_FULL_FILE: Plan = Plan {
    is_new: false,
    source: SOURCE,
    steps: &[Step::Call(5), Step::Call(1)],
    steps_again: &[Step::Call(1)],
    reached: &[
        ((17, Some(2)), 0, 0),
        ((17, Some(2)), 1, 1),
        ((18, Some(7)), 1, 9),
        ((19, Some(8)), 1, 13),
        ((19, Some(8)), 2, 14),
        ((20, Some(9)), 2, 18),
    ],
};

/// A disk with the records that fill a generation, and one that is shut, which fail after so many calls.
fn full_disks(alloc: Global, file: &[u8], calls: (u64, u64)) -> Result<FusedDisks, AllocError> {
    let disks = (disk(alloc, file)?, disk(alloc, &[0])?);
    fused_disks(alloc, disks, calls)
}

/// What survives of the second disk.
static SURVIVES: [Survives; 4] = [
    Survives::Nothing,
    Survives::Everything,
    Survives::Part(1),
    Survives::Part(2),
];

/// The first crash whose image of the second disk, beside the first as it reads, doesn't hold what it is to hold. An
/// image that is as the one before it is not opened again.
fn loss_on_second(alloc: Global, stopped: &Stopped) -> Result<Option<Survives>, Fail> {
    let mut last = Vec::new(alloc);
    for survives in &SURVIVES {
        let second = image_after(&stopped.second, stopped.second.calls(), *survives)?;
        if second.as_slice() == last.as_slice() {
            continue;
        }
        let first = stopped.first.bytes();
        if !is_held(alloc, &FROM_A_FULL_FILE, stopped.done, first, &second)? {
            return Ok(Some(*survives));
        }
        last = second;
    }
    Ok(None)
}

/// Looks at what crashes leave of a store whose first disk nothing is written to. Before it is opened, nothing is
/// written to either.
fn check_full_stop(
    rt: &impl Abort,
    alloc: Global,
    file: &[u8],
    stopped: &Stopped,
) -> Result<(), Fail> {
    let is_same = stopped.first.bytes() == file;
    check(rt, &is_same, &true, "the first disk");
    if stopped.done == 0 {
        let second = stopped.second.bytes();
        check(rt, &second, &[0].as_slice(), "the second disk");
        return Ok(());
    }
    let found = (stopped.done, loss_on_second(alloc, stopped)?);
    check(rt, &found, &(stopped.done, None), "parts, and a loss");
    Ok(())
}

/// Stops the plan that installs a generation by size at each call of one disk.
fn count_full_stops(rt: &impl Abort, alloc: Global, failing: Failing) -> Result<u64, Fail> {
    let file = full_file(alloc, 1, AT_THE_LIMIT)?;
    let plan = &FROM_A_FULL_FILE;
    for calls in 0..200 {
        let disks = full_disks(alloc, &file, fuses(failing, calls, u64::MAX))?;
        let stopped = handle_plan(alloc, plan, disks)?;
        check_full_stop(rt, alloc, &file, &stopped)?;
        if stopped.done == plan.parts() {
            return Ok(calls);
        }
    }
    Err(Fail::from("no fuse is long enough"))
}

#[test]
fn the_first_disk_fails_by_an_installation(rt: HostRuntime) -> Result<(), Fail> {
    let stops = count_full_stops(&rt, rt.alloc(), Failing::First)?;
    // An opening syncs, looks twice, and reads the lengths and the bytes of the image and 17 records. Opened again it
    // is the older generation, and only looked at.
    check(&rt, &stops, &(1 + 2 + 18 * 2 + 1 + 2), "stops");
    Ok(())
}

#[test]
fn the_second_disk_fails_by_an_installation(rt: HostRuntime) -> Result<(), Fail> {
    let stops = count_full_stops(&rt, rt.alloc(), Failing::Second)?;
    // An opening looks at it; a generation and two records are added; then it is current, and read; and a record more.
    check(
        &rt,
        &stops,
        &(1 + 2 + 4 + 2 * 4 + (1 + 2 + 3 * 2) + 4),
        "stops",
    );
    Ok(())
}
