//! The opening of a store of version 1, which moves it, with a stop at each call of either disk: the exact bytes of
//! both files then. Whatever a crash leaves, the next opening leaves the first file as it was, and the state in version
//! 2 in the second.

use crate::checks::{check, check_bytes};
use crate::hosts::{Disks, disks_after_opening};
use crate::stores::crashes::{Crash, crash_of};
use crate::stores::damage::changed;
use crate::stores::fuses::{
    Failing, FusedDisks, FusedRefused, close_host, fused_disks, fuses, inner_disks, open_host,
};
use crate::stores::versions::LOADED_IN_TWO;
use ash_disk::Survives;
use ash_durable::{OpenFault, StoreFault};
use ash_store_fixtures::hosts::{disk, image_after};
use std::alloc::{AllocError, Global};
use std::process::Abort;
use std::test::Fail;

/// A store of version 1.
struct Older {
    /// The first file. The second is one byte, 0.
    first: &'static [u8],
    /// The second file once the store was moved.
    moved: &'static [u8],
    /// How many calls of the first disk an opening makes: it is synced and looked at twice, and the length and the
    /// bytes of the image and of each record are read.
    reads: u64,
}

/// A store without modules.
static EMPTY_STORE: Older = Older {
    first: VERSION_ONE,
    moved: VERSION_TWO,
    reads: 1 + 2 + 2,
};

const VERSION_ONE: &[u8] = &[
    0x01, 0x41, 0x53, 0x48, 0x4f, 0x53, 0x54, 0x30, 0x31, 0x01, 0x00, 0x00, 0x00, 0x00, 0x00, 0x00,
    0x00, 0x1d, 0x00, 0x00, 0x00, 0x01, 0x00, 0x00, 0x00, 0x00, 0x00, 0x00, 0x00, 0x00, 0x00, 0x00,
    0x00, 0x00, 0x00, 0x00, 0x00, 0x00, 0x00, 0x00, 0x00, 0x00, 0x00, 0x00, 0x00, 0x00, 0x00, 0x00,
    0x00, 0x00, 0x00,
];

/// The same but for the generation, at 9, and the version, at 21.
const VERSION_TWO: &[u8] = &[
    0x01, 0x41, 0x53, 0x48, 0x4f, 0x53, 0x54, 0x30, 0x31, 0x02, 0x00, 0x00, 0x00, 0x00, 0x00, 0x00,
    0x00, 0x1d, 0x00, 0x00, 0x00, 0x02, 0x00, 0x00, 0x00, 0x00, 0x00, 0x00, 0x00, 0x00, 0x00, 0x00,
    0x00, 0x00, 0x00, 0x00, 0x00, 0x00, 0x00, 0x00, 0x00, 0x00, 0x00, 0x00, 0x00, 0x00, 0x00, 0x00,
    0x00, 0x00, 0x00,
];

/// A store with the record of a load of the module `m` from no source.
static LOADED_STORE: Older = Older {
    first: LOADED_IN_ONE,
    moved: LOADED_IN_TWO,
    reads: 1 + 2 + 2 * 2,
};

/// The gate before the record is open, and its 41 bytes follow: it says what changed, as each record of version 2 does.
const LOADED_IN_ONE: &[u8] = &[
    0x01, 0x41, 0x53, 0x48, 0x4f, 0x53, 0x54, 0x30, 0x31, 0x01, 0x00, 0x00, 0x00, 0x00, 0x00, 0x00,
    0x00, 0x1d, 0x00, 0x00, 0x00, 0x01, 0x00, 0x00, 0x00, 0x00, 0x00, 0x00, 0x00, 0x00, 0x00, 0x00,
    0x00, 0x00, 0x00, 0x00, 0x00, 0x00, 0x00, 0x00, 0x00, 0x00, 0x00, 0x00, 0x00, 0x00, 0x00, 0x00,
    0x00, 0x00, 0x01, 0x24, 0x00, 0x00, 0x00, 0x02, 0x01, 0x00, 0x00, 0x00, 0x00, 0x00, 0x00, 0x00,
    0x00, 0x00, 0x00, 0x00, 0x00, 0x00, 0x00, 0x00, 0x00, 0x00, 0x01, 0x01, 0x6d, 0x00, 0x00, 0x00,
    0x00, 0x00, 0x00, 0x00, 0x00, 0x00, 0x00, 0x00, 0x00, 0x00, 0x00, 0x00,
];

/// The disks that are handed back where there is no host. Only a failure of a disk may keep it from that.
fn disks_of_refused(alloc: Global, refused: FusedRefused) -> Result<Disks, Fail> {
    let (fault, disks) = refused;
    match fault {
        StoreFault::Open(OpenFault::DeviceFailed) => Ok(inner_disks(alloc, disks)?),
        _ => Err(Fail::from(fault)),
    }
}

/// The disks of the store, which fail after so many calls.
fn disks_on_fuses(
    alloc: Global,
    store: &Older,
    calls: (u64, u64),
) -> Result<FusedDisks, AllocError> {
    let disks = (disk(alloc, store.first)?, disk(alloc, &[0])?);
    fused_disks(alloc, disks, calls)
}

/// An opening on disks that fail after so many calls: whether there is a host, and the disks.
fn opened_on_fuses(alloc: Global, store: &Older, calls: (u64, u64)) -> Result<(bool, Disks), Fail> {
    let disks = disks_on_fuses(alloc, store, calls)?;
    match open_host(alloc, disks)? {
        Ok(host) => Ok((true, inner_disks(alloc, close_host(alloc, host)?)?)),
        Err(refused) => Ok((false, disks_of_refused(alloc, refused)?)),
    }
}

/// The disks after an opening of what a crash left after so many calls of each.
fn opened_after(
    alloc: Global,
    disks: &Disks,
    moment: (usize, usize),
    crash: Crash,
) -> Result<Disks, Fail> {
    let first = image_after(&disks.first, moment.0, crash.0)?;
    let second = image_after(&disks.second, moment.1, crash.1)?;
    disks_after_opening(alloc, &first, &second)
}

/// Compares the files after a crash at a moment and the next opening.
fn check_crash(
    rt: &impl Abort,
    alloc: Global,
    store: &Older,
    disks: &Disks,
    moment: (usize, usize),
    crash: Crash,
) -> Result<(), Fail> {
    let disks = opened_after(alloc, disks, moment, crash)?;
    check_bytes(rt, disks.first.bytes(), store.first, "the first file");
    check_bytes(rt, disks.second.bytes(), store.moved, "the second file");
    Ok(())
}

/// The same of each of 20 crashes.
fn check_moment(
    rt: &impl Abort,
    alloc: Global,
    store: &Older,
    disks: &Disks,
    moment: (usize, usize),
) -> Result<(), Fail> {
    for number in 0..20 {
        check_crash(rt, alloc, store, disks, moment, crash_of(number))?;
    }
    Ok(())
}

/// The same of each moment of the second disk beside one of the first.
fn check_beside(
    rt: &impl Abort,
    alloc: Global,
    store: &Older,
    disks: &Disks,
    first: usize,
) -> Result<(), Fail> {
    for second in 0..=disks.second.calls() {
        check_moment(rt, alloc, store, disks, (first, second))?;
    }
    Ok(())
}

/// The same of all moments of both.
fn check_moments(rt: &impl Abort, alloc: Global, store: &Older, disks: &Disks) -> Result<(), Fail> {
    for first in 0..=disks.first.calls() {
        check_beside(rt, alloc, store, disks, first)?;
    }
    Ok(())
}

/// What the second file is after so many calls of its disk: it is synced; the generation is written behind a gate that
/// is shut, and synced; then its gate is opened, and synced.
fn written_after(alloc: Global, store: &Older, calls: usize) -> Result<Vec<u8>, AllocError> {
    match calls {
        0 | 1 => Vec::from_slice(alloc, &[0]),
        2 | 3 => changed(alloc, store.moved, 0, 0),
        _ => Vec::from_slice(alloc, store.moved),
    }
}

/// Compares what a crash leaves of the second file after so many calls: all that was written, or what was synced.
fn check_written(
    rt: &impl Abort,
    alloc: Global,
    store: &Older,
    disks: &Disks,
    calls: usize,
) -> Result<(), Fail> {
    let all = image_after(&disks.second, calls, Survives::Everything)?;
    let written = written_after(alloc, store, calls)?;
    check_bytes(rt, &all, &written, "what was written");
    let least = image_after(&disks.second, calls, Survives::Nothing)?;
    let synced = written_after(alloc, store, calls.saturating_sub(1))?;
    check_bytes(rt, &least, &synced, "what was synced");
    Ok(())
}

/// Compares both files at a stop, and after each call before it.
fn check_files(rt: &impl Abort, alloc: Global, store: &Older, disks: &Disks) -> Result<(), Fail> {
    let second = written_after(alloc, store, disks.second.calls())?;
    check_bytes(
        rt,
        disks.first.bytes(),
        store.first,
        "the first file at a stop",
    );
    check_bytes(
        rt,
        disks.second.bytes(),
        &second,
        "the second file at a stop",
    );
    for calls in 0..=disks.second.calls() {
        check_written(rt, alloc, store, disks, calls)?;
    }
    Ok(())
}

/// Stops an opening at each call of one disk, and looks at the files and at what crashes leave. Gives how many stops
/// there were until it was done.
fn count_stops(
    rt: &impl Abort,
    alloc: Global,
    store: &Older,
    failing: Failing,
) -> Result<u64, Fail> {
    for calls in 0..100 {
        let (is_open, disks) = opened_on_fuses(alloc, store, fuses(failing, calls, u64::MAX))?;
        check_files(rt, alloc, store, &disks)?;
        check_moments(rt, alloc, store, &disks)?;
        if is_open {
            return Ok(calls);
        }
    }
    Err(Fail::from("no fuse is long enough"))
}

/// Compares how many stops of each disk there are.
fn check_stops(rt: &impl Abort, alloc: Global, store: &Older) -> Result<(), Fail> {
    let stops = count_stops(rt, alloc, store, Failing::First)?;
    check(rt, &stops, &store.reads, "stops of the first disk");
    // It is synced and looked at twice, and the generation is written and synced, and then its gate.
    let stops = count_stops(rt, alloc, store, Failing::Second)?;
    check(rt, &stops, &(1 + 2 + 4), "stops of the second disk");
    Ok(())
}

#[test]
fn an_empty_store_is_moved(rt: HostRuntime) -> Result<(), Fail> {
    check_stops(&rt, rt.alloc(), &EMPTY_STORE)
}

#[test]
fn a_store_with_a_record_is_moved(rt: HostRuntime) -> Result<(), Fail> {
    check_stops(&rt, rt.alloc(), &LOADED_STORE)
}
