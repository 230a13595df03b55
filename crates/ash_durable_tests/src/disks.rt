//! Requests and their replies, byte for byte, of a host whose disk fails, and of one that is opened again after a
//! crash.

use crate::checks::{check, check_text};
use crate::hosts::{
    BoxedHost, Disks, both_crashed, disks_after, opened_unregistered, replies, replies_of,
    replies_once, unregistered_after_crash, unregistered_host,
};
use crate::stores::fuses::{Failing, fused_host, fuses};
use ash_disk::Survives;
use ash_durable::{CreateFault, StoreFault};
use std::alloc::Global;
use std::process::Abort;
use std::test::Fail;

const FIRST: &[u8] =
    b"load m 45\nint n = 2; int f(int k) { n += k; return n; }\ncall m f 5\nget m n\nseq\n";

/// Whether a store is made on disks that fail after so many calls. Only a failure of a disk may keep it from that.
fn is_made(alloc: Global, fuses: (u64, u64)) -> Result<bool, Fail> {
    match fused_host(alloc, fuses)? {
        Ok(_) => Ok(true),
        Err(StoreFault::Create(CreateFault::DeviceFailed)) => Ok(false),
        Err(fault) => Err(Fail::from(fault)),
    }
}

/// How many calls of a disk the making of a store takes.
fn calls_of_create(alloc: Global, failing: Failing) -> Result<u64, Fail> {
    for calls in 0..100 {
        if is_made(alloc, fuses(failing, calls, u64::MAX))? {
            return Ok(calls);
        }
    }
    Err(Fail::new("no fuse is long enough"))
}

/// What is replied where a disk fails after so many calls beyond those that make the store, and from there on up to the
/// next row.
type Fused = (u64, &'static str);

/// The replies where a disk fails after so many calls.
fn wanted_of(rows: &[Fused], calls: u64) -> &'static str {
    let mut wanted = "";
    for (from, replies) in rows {
        if calls >= *from {
            wanted = *replies;
        }
    }
    wanted
}

/// What is replied to requests where the disks fail after so many calls.
fn replies_on_fuses(alloc: Global, fuses: (u64, u64), requests: &[u8]) -> Result<String, Fail> {
    let mut host = fused_host(alloc, fuses)??;
    replies_of(alloc, &mut host, 1000, requests)
}

/// Compares what is replied to requests where a disk fails after so many calls beyond those that make the store.
fn check_fused(
    rt: &impl Abort,
    alloc: Global,
    fuses: (u64, u64),
    requests: &[u8],
    wanted: &str,
) -> Result<(), Fail> {
    let found = replies_on_fuses(alloc, fuses, requests)?;
    let what = format!(in alloc; "after {} and {} calls", fuses.0, fuses.1)?;
    check_text(rt, &found, wanted, &what);
    Ok(())
}

/// Compares what is replied where each call of a disk beyond those that make the store fails in turn.
fn check_each(
    rt: &impl Abort,
    alloc: Global,
    failing: Failing,
    requests: &[u8],
    rows: &[Fused],
) -> Result<(), Fail> {
    let made = calls_of_create(alloc, failing)?;
    for calls in 0..12 {
        let fuses = fuses(failing, made.saturating_add(calls), u64::MAX);
        check_fused(rt, alloc, fuses, requests, wanted_of(rows, calls))?;
    }
    Ok(())
}

#[test]
fn the_calls_that_make_a_store(rt: HostRuntime) -> Result<(), Fail> {
    // Its length; its length and its first bytes; a write and a sync of its first gate; two of each for the generation.
    let first = calls_of_create(rt.alloc(), Failing::First)?;
    check(&rt, &first, &(1 + 2 + 2 + 4), "calls of the first disk");
    // The same without a generation.
    let second = calls_of_create(rt.alloc(), Failing::Second)?;
    check(&rt, &second, &(1 + 2 + 2), "calls of the second disk");
    Ok(())
}

// A request that is answered has written its record and synced, and then the gate before it: four calls.
static CALLS: [Fused; 3] = [
    (
        0,
        "refused 507 DeviceFailed\nrefused 508 Reopen\nrefused 508 Reopen\nok 0\n",
    ),
    (
        4,
        "ok seq 1\nrefused 507 DeviceFailed\nrefused 508 Reopen\nok 1\n",
    ),
    (8, "ok seq 1\nok 7 seq 2\nok 7\nok 2\n"),
];

#[test]
fn each_call_of_the_first_disk_fails_in_turn(rt: HostRuntime) -> Result<(), Fail> {
    check_each(&rt, rt.alloc(), Failing::First, FIRST, &CALLS)
}

const DISCARD: &[u8] = b"load m 0\n\ndiscard m\ndiscard m\nget m n\nseq\n";

/// The same for a discard.
static DISCARDS: [Fused; 3] = [
    (
        0,
        "refused 507 DeviceFailed\nrefused 508 Reopen\nrefused 508 Reopen\nrefused 508 Reopen\nok 0\n",
    ),
    (
        4,
        "ok seq 1\nrefused 507 DeviceFailed\nrefused 508 Reopen\nrefused 508 Reopen\nok 1\n",
    ),
    (
        8,
        "ok seq 1\nok seq 2\nrefused 401 NoModule\nrefused 401 NoModule\nok 2\n",
    ),
];

#[test]
fn a_discard_that_is_not_kept(rt: HostRuntime) -> Result<(), Fail> {
    check_each(&rt, rt.alloc(), Failing::First, DISCARD, &DISCARDS)
}

const SNAPSHOT: &[u8] = b"load m 0\n\nsnapshot\nsnapshot\ndiscard m\nget m n\nseq\n";

/// The same for a snapshot, which is written to the second disk; the one after it is written to the first, and the
/// discard to that.
static SNAPSHOTS: [Fused; 2] = [
    (
        0,
        "ok seq 1\nrefused 507 DeviceFailed\nrefused 508 Reopen\nrefused 508 Reopen\nrefused 508 Reopen\nok 1\n",
    ),
    (
        4,
        "ok seq 1\nok\nok\nok seq 2\nrefused 401 NoModule\nok 2\n",
    ),
];

#[test]
fn a_snapshot_that_is_not_kept(rt: HostRuntime) -> Result<(), Fail> {
    check_each(&rt, rt.alloc(), Failing::Second, SNAPSHOT, &SNAPSHOTS)
}

const SNAPSHOT_ALONE: &[u8] = b"snapshot\nsnapshot\ndiscard m\nseq\n";

/// The second snapshot shuts the gate of the older generation on the first disk, with a write and a sync, and then
/// writes the new one. No discard is stored, since there is no module.
static SECOND_SNAPSHOTS: [Fused; 2] = [
    (
        0,
        "ok\nrefused 507 DeviceFailed\nrefused 508 Reopen\nok 0\n",
    ),
    (6, "ok\nok\nrefused 401 NoModule\nok 0\n"),
];

#[test]
fn a_second_snapshot_that_is_not_kept(rt: HostRuntime) -> Result<(), Fail> {
    check_each(
        &rt,
        rt.alloc(),
        Failing::First,
        SNAPSHOT_ALONE,
        &SECOND_SNAPSHOTS,
    )
}

/// The disks after the first example.
fn first_example(alloc: Global) -> Result<Disks, Fail> {
    disks_after(alloc, unregistered_host(alloc)?, FIRST)
}

/// A host that is opened after a crash where the first disk has had so many calls.
fn host_after(
    alloc: Global,
    disks: &Disks,
    calls: usize,
    survives: Survives,
) -> Result<BoxedHost, Fail> {
    let disks = both_crashed(alloc, disks, calls, survives)?;
    opened_unregistered(alloc, disks)
}

/// What a host replies after a crash that nothing survives.
fn replies_again(alloc: Global, host: BoxedHost) -> Result<String, Fail> {
    let host = unregistered_after_crash(alloc, host)?;
    replies_once(alloc, host, b"get m n\nseq\n")
}

/// What is replied after a crash, and after a second one, where the first disk has had so many calls.
fn replies_after(
    alloc: Global,
    disks: &Disks,
    calls: usize,
    survives: Survives,
) -> Result<String, Fail> {
    let mut host = host_after(alloc, disks, calls, survives)?;
    let mut all = replies(alloc, &mut host, b"get m n\nseq\ncall m f 1\n")?;
    all.push_str(&replies_again(alloc, host)?)?;
    Ok(all)
}

const BEFORE_THE_CALL: &str = "ok 2\nok 1\nok 3 seq 2\nok 3\nok 2\n";

const AFTER_THE_CALL: &str = "ok 7\nok 2\nok 8 seq 3\nok 8\nok 3\n";

/// Compares what is replied after a crash, and after a second one, where the first disk has had so many calls, which
/// are too few for the gate.
fn check_before_the_gate(
    rt: &impl Abort,
    alloc: Global,
    disks: &Disks,
    calls: usize,
    survives: Survives,
) -> Result<(), Fail> {
    let found = replies_after(alloc, disks, calls, survives)?;
    check_text(rt, &found, BEFORE_THE_CALL, "before the gate is written");
    Ok(())
}

/// The same after each crash.
fn check_each_before_the_gate(
    rt: &impl Abort,
    alloc: Global,
    disks: &Disks,
    calls: usize,
) -> Result<(), Fail> {
    for seed in 0..50 {
        check_before_the_gate(rt, alloc, disks, calls, Survives::Part(seed))?;
    }
    check_before_the_gate(rt, alloc, disks, calls, Survives::Nothing)?;
    check_before_the_gate(rt, alloc, disks, calls, Survives::Everything)
}

// To make the store are 6 writes and syncs of the first disk, and the load 4. So the call's record is on the device
// after 12, its gate is written after 13 and on the device after 14.
#[test]
fn a_crash_after_the_record_is_synced(rt: HostRuntime) -> Result<(), Fail> {
    let disks = first_example(rt.alloc())?;
    check(&rt, &disks.first.calls(), &14, "calls of the first disk");
    for calls in 10..13 {
        check_each_before_the_gate(&rt, rt.alloc(), &disks, calls)?;
    }
    Ok(())
}

/// After how many calls of the first disk a crash comes, what survives it, what is replied then, and what that shows.
type AroundGate = (usize, Survives, &'static str, &'static str);

static AROUND_GATE: [AroundGate; 3] = [
    (13, Survives::Nothing, BEFORE_THE_CALL, "nothing survives"),
    (
        13,
        Survives::Everything,
        AFTER_THE_CALL,
        "everything survives",
    ),
    (14, Survives::Nothing, AFTER_THE_CALL, "the gate is synced"),
];

/// Compares what is replied after such a crash.
fn check_around_gate(
    rt: &impl Abort,
    alloc: Global,
    disks: &Disks,
    row: &AroundGate,
) -> Result<(), Fail> {
    let (calls, survives, wanted, what) = *row;
    let found = replies_after(alloc, disks, calls, survives)?;
    check_text(rt, &found, wanted, what);
    Ok(())
}

/// Compares what is replied where a part survives of the gate, which is whole then or not there.
fn check_torn_gate(rt: &impl Abort, alloc: Global, disks: &Disks, seed: u64) -> Result<(), Fail> {
    let found = replies_after(alloc, disks, 13, Survives::Part(seed))?;
    if found.as_str() != BEFORE_THE_CALL {
        check_text(rt, &found, AFTER_THE_CALL, "the gate is torn");
    }
    Ok(())
}

#[test]
fn a_crash_while_the_gate_is_written(rt: HostRuntime) -> Result<(), Fail> {
    let disks = first_example(rt.alloc())?;
    for row in &AROUND_GATE {
        check_around_gate(&rt, rt.alloc(), &disks, row)?;
    }
    for seed in 0..200 {
        check_torn_gate(&rt, rt.alloc(), &disks, seed)?;
    }
    Ok(())
}
