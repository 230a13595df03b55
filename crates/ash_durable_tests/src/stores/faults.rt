//! Stores that are there already or damaged, and disks that fail.

use crate::checks::{check, check_bytes, check_text};
use crate::hosts::{Disks, Refused, boxed_disks, refused_with_disks, state_after_crash, unboxed};
use crate::stores::fuses::{Failing, FusedHost, answers_on_fuses, fused_host, fuses};
use ash_disk::Survives;
use ash_durable::{CreateFault, Host, OpenFault, StoreFault};
use ash_registry::Registry;
use ash_requests::{Arg, Request};
use ash_store_fixtures::hosts::{
    Boxes, EMPTY, SOURCE, State, add, closed, created, disk, found, is_done, lines_for, load,
    no_boxes, opened, seq, used,
};
use ash_store_fixtures::lives::{File, HostStep, bytes_of};
use std::alloc::{AllocError, Global};
use std::process::Abort;
use std::test::Fail;

const ALREADY_THERE: StoreFault = StoreFault::Create(CreateFault::AlreadyThere);

static SENTENCES: [(StoreFault, &str); 5] = [
    (ALREADY_THERE, "a file is open already"),
    (
        StoreFault::Open(OpenFault::NoGeneration),
        "neither file is open: nothing was ever stored in them",
    ),
    (
        StoreFault::Open(OpenFault::Damaged(50)),
        "the file is damaged at byte 50",
    ),
    (
        StoreFault::OtherInterface,
        "the store was made with another registration",
    ),
    (
        StoreFault::GenerationSpent,
        "the store is of version 1, and no generation is left for one of version 2",
    ),
];

#[test]
fn faults_are_sentences(rt: HostRuntime) -> Result<(), Fail> {
    for (fault, wanted) in &SENTENCES {
        let text = format!(in rt.alloc(); "{fault}")?;
        check_text(&rt, text.as_str(), wanted, "the faults of a store");
    }
    Ok(())
}

/// The disks of a used store.
fn used_disks(alloc: Global) -> Result<Disks, Fail> {
    Ok(boxed_disks(alloc, closed(used(alloc)?))?)
}

/// What is refused of making a store over the disks of a used one.
fn made_again(alloc: Global) -> Result<Refused, Fail> {
    let (first, second) = unboxed(used_disks(alloc)?);
    let registry = Registry::new(alloc);
    let Boxes { pool, services } = no_boxes(alloc);
    match Host::create(alloc, first, second, registry, pool, services) {
        Ok(_) => Err("made over a store".into()),
        Err(refused) => Ok(refused_with_disks(alloc, refused)?),
    }
}

/// Why no store is made over two such disks, if none is.
fn not_made(alloc: Global, a: &[u8], b: &[u8]) -> Result<Option<StoreFault>, Fail> {
    let (a, b) = (disk(alloc, a)?, disk(alloc, b)?);
    Ok(created(alloc, a, b, Registry::new(alloc), no_boxes(alloc)).err())
}

/// Compares disks with those of a used store.
fn check_used(rt: &impl Abort, alloc: Global, disks: &Disks) -> Result<(), Fail> {
    check_bytes(rt, disks.second.bytes(), &[0], "the second disk");
    let before = used_disks(alloc)?;
    let before = before.first.bytes();
    check_bytes(rt, disks.first.bytes(), before, "the first disk");
    Ok(())
}

#[test]
fn a_store_that_is_there(rt: HostRuntime) -> Result<(), Fail> {
    let (fault, disks) = made_again(rt.alloc())?;
    check(&rt, &fault, &ALREADY_THERE, "over a used store");
    check_used(&rt, rt.alloc(), &disks)
}

/// Two files, and why no store is made over them.
type Over = (&'static str, &'static [u8], &'static [u8]);

static OVER: [Over; 2] = [
    ("made over an open file", &[], &[1, 0]),
    ("made over an open first file", &[1, 0], &[]),
];

fn check_not_made(rt: &impl Abort, alloc: Global, row: &Over) -> Result<(), Fail> {
    let (what, first, second) = *row;
    let made = not_made(alloc, first, second)?;
    check(rt, &made, &Some(ALREADY_THERE), what);
    Ok(())
}

/// Two files, and what opening them gives: a number, or why they are not opened.
type Two = (&'static str, File, File, Result<u64, StoreFault>);

const DAMAGED: Result<u64, StoreFault> = Err(StoreFault::Open(OpenFault::Damaged(0)));

// The file that is open is the current one, whichever it is.
static TWO: [Two; 4] = [
    ("both open", File::Empty, File::Bytes(&[1, 0]), DAMAGED),
    (
        "the first no file",
        File::Bytes(&[1, 0]),
        File::Empty,
        DAMAGED,
    ),
    ("one generation twice", File::Empty, File::Empty, DAMAGED),
    ("the second open", File::Bytes(&[]), File::Empty, Ok(0)),
];

fn check_found(rt: &impl Abort, alloc: Global, row: &Two) -> Result<(), Fail> {
    let (what, first, second, wanted) = *row;
    let (first, second) = (bytes_of(alloc, first)?, bytes_of(alloc, second)?);
    let found = found(alloc, first.as_slice(), second.as_slice())?;
    check(rt, &found, &wanted, what);
    Ok(())
}

#[test]
fn no_store_is_made_over_files_that_are_open(rt: HostRuntime) -> Result<(), Fail> {
    for row in &OVER {
        check_not_made(&rt, rt.alloc(), row)?;
    }
    Ok(())
}

#[test]
fn files_that_are_open(rt: HostRuntime) -> Result<(), Fail> {
    for row in &TWO {
        check_found(&rt, rt.alloc(), row)?;
    }
    Ok(())
}

// What is asked of a host whose first write fails, and what is answered.
static REFUSED: [HostStep; 7] = [
    HostStep::Load,
    HostStep::Load,
    HostStep::CallIn("m"),
    HostStep::Discard,
    HostStep::Global("n"),
    HostStep::Snapshot,
    HostStep::Seq,
];

const REFUSALS: &str = "refused 507 DeviceFailed\nrefused 508 Reopen\nrefused 508 Reopen\n\
    refused 508 Reopen\nrefused 508 Reopen\nrefused 508 Reopen\n0\n";

/// How many calls of the first disk succeed, and what is the gate of the record, if it is there.
type FirstWrite = (&'static str, u64, Option<u8>);

// A store is made by nine calls on the first disk: its length; its length once more and its first bytes; a write and a
// sync of its first gate; two writes and two syncs of the generation. Then the write fails of the first record. Or its
// sync, or the write of the gate before it, or the sync of that.
static FIRST_WRITES: [FirstWrite; 4] = [
    ("the write fails", 9, None),
    ("the sync fails", 10, Some(0)),
    ("the write of the gate fails", 11, Some(0)),
    ("the sync of the gate fails", 12, Some(1)),
];

/// Looks at the first disk where a first write fails.
fn check_first(rt: &impl Abort, bytes: &[u8], gate: Option<u8>, what: &str) {
    let image = bytes.get(..50).unwrap_or_default();
    check_bytes(rt, image, EMPTY.get(..50).unwrap_or_default(), what);
    match gate {
        Some(gate) => check(rt, &bytes.get(50).copied(), &Some(gate), what),
        None => check_bytes(rt, bytes, &EMPTY, what),
    }
}

/// Compares what is refused where the first disk fails after so many calls, and looks at the disks.
fn check_first_write(rt: &impl Abort, alloc: Global, row: &FirstWrite) -> Result<(), Fail> {
    let (what, calls, gate) = *row;
    let (found, disks) = answers_on_fuses(alloc, (calls, 100), &REFUSED)?;
    check_text(rt, found.as_str(), REFUSALS, what);
    check_first(rt, disks.first.bytes(), gate, what);
    check_bytes(rt, disks.second.bytes(), &[0], what);
    Ok(())
}

#[test]
fn a_first_write_that_fails(rt: HostRuntime) -> Result<(), Fail> {
    for row in &FIRST_WRITES {
        check_first_write(&rt, rt.alloc(), row)?;
    }
    Ok(())
}

// A host loads a module and loses the answer to a call, and then it is asked once more.
static LOST: [HostStep; 3] = [HostStep::Load, HostStep::Call(5), HostStep::Call(5)];

const LOST_CALL: &str = "ok seq 1\nrefused 507 DeviceFailed\nrefused 508 Reopen\n";

/// The disks of that host, whose first disk fails after so many calls.
fn lost_call(rt: &impl Abort, alloc: Global, calls: u64) -> Result<Disks, Fail> {
    let (found, disks) = answers_on_fuses(alloc, (calls, 100), &LOST)?;
    check_text(rt, found.as_str(), LOST_CALL, "a lost call");
    Ok(disks)
}

const BEFORE: Result<State, StoreFault> = Ok((1, Some(2)));

const AFTER: Result<State, StoreFault> = Ok((2, Some(7)));

/// The crash of a number: the extremes, and those of 200 seeds.
fn survives_of(number: u64) -> Survives {
    match number {
        0 => Survives::Nothing,
        1 => Survives::Everything,
        _ => Survives::Part(number.wrapping_sub(2)),
    }
}

/// What is to be found after a crash: after one that nothing survives, one that everything survives, and any other,
/// where it may be the first or this.
fn wanted_after(
    survives: Survives,
    found: Result<State, StoreFault>,
    everything: Result<State, StoreFault>,
) -> Result<State, StoreFault> {
    match survives {
        Survives::Nothing => BEFORE,
        Survives::Part(_) if found == BEFORE => BEFORE,
        _ => everything,
    }
}

/// Compares what is found after a crash.
fn check_crash(
    rt: &impl Abort,
    alloc: Global,
    disks: &Disks,
    survives: Survives,
    everything: Result<State, StoreFault>,
) -> Result<(), Fail> {
    let found = state_after_crash(alloc, disks, survives)?;
    let wanted = wanted_after(survives, found, everything);
    check(rt, &(survives, found), &(survives, wanted), "after a crash");
    Ok(())
}

/// Compares what is found after each crash, where everything that survives leads to this.
fn check_crashes(
    rt: &impl Abort,
    alloc: Global,
    disks: &Disks,
    everything: Result<State, StoreFault>,
) -> Result<(), Fail> {
    for number in 0..202 {
        check_crash(rt, alloc, disks, survives_of(number), everything)?;
    }
    Ok(())
}

// Nine calls make the store and four load the module; then the record is written. Its gate is 0 until it is synced.
#[test]
fn a_first_sync_that_fails(rt: HostRuntime) -> Result<(), Fail> {
    let disks = lost_call(&rt, rt.alloc(), 14)?;
    check_crashes(&rt, rt.alloc(), &disks, BEFORE)
}

// The record is written and synced, and its gate is written.
#[test]
fn a_second_sync_that_fails(rt: HostRuntime) -> Result<(), Fail> {
    let disks = lost_call(&rt, rt.alloc(), 16)?;
    check_crashes(&rt, rt.alloc(), &disks, AFTER)
}

/// The requests of a host whose disk fails when the answer to the third is stored.
fn seven_requests<'a>() -> [Request<'a>; 7] {
    let load = Request::Load {
        module: "m",
        source: SOURCE,
    };
    let call = Request::Call {
        module: "m",
        function: "f",
        arguments: &[Arg::Number(5)],
    };
    let get = Request::Global {
        module: "m",
        name: "n",
    };
    let object = Request::Object { number: 1 };
    [load, get, call, call, Request::Seq, get, object]
}

// The answer to the third is lost, and the host must be reopened.
const LOST_AT_THE_THIRD: &str =
    "ok seq 1\nok 2\nrefused 507 DeviceFailed\nrefused 508 Reopen\nok 1\n\
    refused 508 Reopen\nrefused 508 Reopen\n";

/// What a host replies to these requests whose first disk fails after so many calls.
fn seven_replies(alloc: Global, calls: u64) -> Result<String, Fail> {
    let mut host = fused_host(alloc, (calls, 100))??;
    lines_for(alloc, &mut host, &seven_requests())
}

#[test]
fn requests_after_a_failure(rt: HostRuntime) -> Result<(), Fail> {
    // Nine calls on the first disk make the store, and four store the answer to the load.
    let lines = seven_replies(rt.alloc(), 13)?;
    check_text(
        &rt,
        lines.as_str(),
        LOST_AT_THE_THIRD,
        "the replies after a failure",
    );
    Ok(())
}

/// How many of two requests a host answers, and its number after them.
fn answers(host: &mut FusedHost) -> (u64, u64) {
    let loaded = is_done(&load(host, SOURCE));
    let called = is_done(&add(host, 5));
    (u64::from(loaded) + u64::from(called), seq(host))
}

/// What opening the store of a host again gives: its number, or why there is no host.
fn number_again(alloc: Global, host: FusedHost) -> Result<u64, StoreFault> {
    let (first, second) = closed(Box::into_inner(host));
    opened(alloc, first, second, Registry::new(alloc), no_boxes(alloc)).map(|host| seq(&host))
}

/// What a host comes to: how many of two requests it answers, its number then, and what opening its store again gives.
type Served = ((u64, u64), Result<u64, StoreFault>);

fn served(alloc: Global, mut host: FusedHost) -> Served {
    let answers = answers(&mut host);
    (answers, number_again(alloc, host))
}

/// What a host comes to whose disks fail after so many calls, or why there is no host.
fn served_on_fuses(
    alloc: Global,
    calls: (u64, u64),
) -> Result<Result<Served, StoreFault>, AllocError> {
    match fused_host(alloc, calls)? {
        Ok(host) => Ok(Ok(served(alloc, host))),
        Err(fault) => Ok(Err(fault)),
    }
}

/// How far a host comes: how many requests it answers, or 3 where it is opened again after them.
fn reached_by(rt: &impl Abort, calls: (u64, u64), served: Served) -> u64 {
    let ((answered, number), opened) = served;
    check(rt, &(calls, number), &(calls, answered), "answers by");
    if opened == Err(StoreFault::Open(OpenFault::DeviceFailed)) {
        return answered;
    }
    check(rt, &(calls, opened), &(calls, Ok(2)), "opened by");
    3
}

/// How far a store comes whose disks fail after so many calls, if it is made. Only a failure of a disk may end it.
fn reached(rt: &impl Abort, alloc: Global, calls: (u64, u64)) -> Result<Option<u64>, AllocError> {
    match served_on_fuses(alloc, calls)? {
        Ok(served) => Ok(Some(reached_by(rt, calls, served))),
        Err(fault) => {
            let wanted = StoreFault::Create(CreateFault::DeviceFailed);
            check(rt, &(calls, fault), &(calls, wanted), "created by");
            Ok(None)
        }
    }
}

/// From so many calls on a store comes so far.
type Reached = (u64, Option<u64>);

/// How far a store is to come whose disk fails after so many calls.
fn wanted_of(rows: &[Reached], calls: u64) -> Option<u64> {
    let mut wanted = None;
    for (from, reached) in rows {
        if calls >= *from {
            wanted = *reached;
        }
    }
    wanted
}

/// Compares how far each store comes where one disk fails after so many calls, from none on.
fn check_reached(
    rt: &impl Abort,
    alloc: Global,
    failing: Failing,
    rows: &[Reached],
) -> Result<(), Fail> {
    for calls in 0..30 {
        let fuses = fuses(failing, calls, 100);
        let found = (fuses, reached(rt, alloc, fuses)?);
        let wanted = (fuses, wanted_of(rows, calls));
        check(rt, &found, &wanted, "calls of the disks, and how far");
    }
    Ok(())
}

// To make a store: its length; its length and its first bytes; write and sync the first gate; write and sync the
// generation, and then its gate. A request: write and sync the record, and then its gate. To open the store: sync; its
// length and its first bytes; the length of the image and of each of two records, and the bytes of each.
static FIRST: [Reached; 5] = [
    (0, None),
    (1 + 2 + 2 + 4, Some(0)),
    (9 + 4, Some(1)),
    (13 + 4, Some(2)),
    (17 + 1 + 2 + 3 * 2, Some(3)),
];

#[test]
fn a_fuse_at_each_call_of_the_first_disk(rt: HostRuntime) -> Result<(), Fail> {
    check_reached(&rt, rt.alloc(), Failing::First, &FIRST)
}

// To make a store: its length; its length and its first bytes; write and sync the first gate. To open it: sync; its
// length and its first bytes.
static SECOND: [Reached; 3] = [(0, None), (1 + 2 + 2, Some(2)), (5 + 1 + 2, Some(3))];

#[test]
fn a_fuse_at_each_call_of_the_second_disk(rt: HostRuntime) -> Result<(), Fail> {
    check_reached(&rt, rt.alloc(), Failing::Second, &SECOND)
}
