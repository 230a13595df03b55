//! Stores on two disks: their bytes, and crashes between requests. What is asked of a host is data, so that each call
//! is proved once and not in each test.

use crate::checks::{check, check_bytes, check_text};
use crate::hosts::Disks;
use crate::stores::runs::{RunSeries, boxed_disks_of, check_lives, check_run};
use ash_disk::Survives;
use ash_durable::{OpenFault, StoreFault};
use ash_store_fixtures::hosts::{closed, crashed, found, second_generation, with_modules};
use ash_store_fixtures::lives::{File, HostStep, Run, Start, found_answers};
use std::alloc::Global;
use std::process::Abort;
use std::test::Fail;

static LIVES: [RunSeries; 9] = [
    // The first gate of each is shut and synced. Then the generation is written and synced, and its gate.
    (
        File::Bytes(&[]),
        File::Bytes(&[]),
        &[Run {
            what: "to make a store",
            start: Start::Make,
            steps: &[],
            answers: "",
            is_reopened: false,
            first: File::Empty,
            second: File::Bytes(&[0]),
            calls: (6, 2),
        }],
    ),
    // The first byte of a longer file is overwritten, and a gate that is 0 is only synced.
    (
        File::Bytes(&[1]),
        File::Bytes(&[7, 8, 9]),
        &[Run {
            what: "over gates that are not 0",
            start: Start::Make,
            steps: &[],
            answers: "",
            is_reopened: false,
            first: File::Empty,
            second: File::Bytes(&[0, 8, 9]),
            calls: (6, 2),
        }],
    ),
    (
        File::Bytes(&[0, 1]),
        File::Bytes(&[0, 8]),
        &[Run {
            what: "over gates that are 0",
            start: Start::Make,
            steps: &[],
            answers: "",
            is_reopened: false,
            first: File::Empty,
            second: File::Bytes(&[0, 8]),
            calls: (5, 1),
        }],
    ),
    (
        File::Bytes(&[2; 60]),
        File::Bytes(&[]),
        &[
            Run {
                what: "over a longer file",
                start: Start::Make,
                steps: &[],
                answers: "",
                is_reopened: false,
                first: File::Written(1, (0, None), &[], &[2; 9]),
                second: File::Bytes(&[0]),
                calls: (6, 2),
            },
            Run {
                what: "that store",
                start: Start::Open,
                steps: &[HostStep::Seq],
                answers: "0\n",
                is_reopened: false,
                first: File::Written(1, (0, None), &[], &[2; 9]),
                second: File::Bytes(&[0]),
                calls: (6 + 1, 2 + 1),
            },
        ],
    ),
    // To make the store takes 6 and 2 calls. Each of the two requests writes its record and syncs, and then the gate
    // before it. An opening syncs both files, and no gate is to be written over.
    (
        File::Bytes(&[]),
        File::Bytes(&[]),
        &[
            Run {
                what: "two requests, and a second load",
                start: Start::Make,
                steps: &[
                    HostStep::Load,
                    HostStep::Call(5),
                    HostStep::Global("n"),
                    HostStep::Load,
                ],
                answers: "ok seq 1\nok 7 seq 2\nok 7\nrefused 402 ModuleTaken\n",
                is_reopened: false,
                first: File::Written(1, (0, None), &[(1, Some(2)), (2, Some(7))], &[]),
                second: File::Bytes(&[0]),
                calls: (14, 2),
            },
            Run {
                what: "an opening",
                start: Start::Open,
                steps: &[],
                answers: "",
                is_reopened: false,
                first: File::Written(1, (0, None), &[(1, Some(2)), (2, Some(7))], &[]),
                second: File::Bytes(&[0]),
                calls: (15, 3),
            },
        ],
    ),
    // A call after which `n` holds what it held, and a load that comes to no end.
    (
        File::Bytes(&[]),
        File::Bytes(&[]),
        &[Run {
            what: "a call that changes nothing",
            start: Start::Make,
            steps: &[HostStep::Load, HostStep::Call(0)],
            answers: "ok seq 1\nok 2 seq 2\n",
            is_reopened: true,
            first: File::Written(1, (0, None), &[(1, Some(2)), (2, Some(2))], &[]),
            second: File::Bytes(&[0]),
            calls: (14 + 1, 2 + 1),
        }],
    ),
    (
        File::Bytes(&[]),
        File::Bytes(&[]),
        &[Run {
            what: "a load that comes to no end",
            start: Start::Make,
            steps: &[HostStep::LoadAs("m", b"int n = 1 / 0;")],
            answers: "exception DivideByZero (init) 1 seq 1\n",
            is_reopened: true,
            first: File::Written(1, (0, None), &[(1, None)], &[]),
            second: File::Bytes(&[0]),
            calls: (10 + 1, 2 + 1),
        }],
    ),
    // A store whose records have whole states: so an older program left it, which wrote the whole state for each
    // request. It goes on with records of what changes.
    (
        File::Whole(1, (0, None), &[(1, Some(2)), (2, Some(7))], &[]),
        File::Bytes(&[0]),
        &[Run {
            what: "records of whole states",
            start: Start::Open,
            steps: &[HostStep::State, HostStep::Call(1), HostStep::Discard],
            answers: "(2, Some(7))\nok 8 seq 3\nok seq 4\n",
            is_reopened: true,
            first: File::Whole(
                1,
                (0, None),
                &[(1, Some(2)), (2, Some(7))],
                &[(3, Some(8)), (4, None)],
            ),
            second: File::Bytes(&[0]),
            calls: (1 + 2 * 4 + 1, 1 + 1),
        }],
    ),
    // A store whose state is all in its first image, before what is left of a longer file: so an older program left it,
    // which wrote the whole file for each request.
    (
        File::Written(1, (2, Some(7)), &[], &[1, 2, 3, 4, 1, 0, 0, 0, 5, 1]),
        File::Bytes(&[0]),
        &[
            Run {
                what: "a store in one image",
                start: Start::Open,
                steps: &[HostStep::State, HostStep::Call(1)],
                answers: "(2, Some(7))\nok 8 seq 3\n",
                is_reopened: false,
                first: File::Written(1, (2, Some(7)), &[(3, Some(8))], &[]),
                second: File::Bytes(&[0]),
                calls: (1 + 4, 1),
            },
            Run {
                what: "the state after a request",
                start: Start::Open,
                steps: &[HostStep::State],
                answers: "(3, Some(8))\n",
                is_reopened: false,
                first: File::Written(1, (2, Some(7)), &[(3, Some(8))], &[]),
                second: File::Bytes(&[0]),
                calls: (5 + 1, 1 + 1),
            },
        ],
    ),
];

#[test]
fn stores_with_their_bytes_and_device_calls(rt: HostRuntime) -> Result<(), Fail> {
    check_lives(&rt, rt.alloc(), &LIVES)
}

/// The store of a host with nothing registered, after a load of the module `m` from no source: the gate before the
/// record is open, and its 41 bytes follow, which are the length of the body, its tag, the number 1, no object's
/// number, no services, that a module of that name is added with no source and no globals, no objects that are gone or
/// put, and the next gate.
static LOADED: [u8; 92] = [
    0x01, 0x41, 0x53, 0x48, 0x4f, 0x53, 0x54, 0x30, 0x31, 0x01, 0x00, 0x00, 0x00, 0x00, 0x00, 0x00,
    0x00, 0x1d, 0x00, 0x00, 0x00, 0x02, 0x00, 0x00, 0x00, 0x00, 0x00, 0x00, 0x00, 0x00, 0x00, 0x00,
    0x00, 0x00, 0x00, 0x00, 0x00, 0x00, 0x00, 0x00, 0x00, 0x00, 0x00, 0x00, 0x00, 0x00, 0x00, 0x00,
    0x00, 0x00, 0x01, 0x24, 0x00, 0x00, 0x00, 0x02, 0x01, 0x00, 0x00, 0x00, 0x00, 0x00, 0x00, 0x00,
    0x00, 0x00, 0x00, 0x00, 0x00, 0x00, 0x00, 0x00, 0x00, 0x00, 0x01, 0x01, 0x6d, 0x00, 0x00, 0x00,
    0x00, 0x00, 0x00, 0x00, 0x00, 0x00, 0x00, 0x00, 0x00, 0x00, 0x00, 0x00,
];

/// The bytes of `LOADED`.
pub fn loaded() -> &'static [u8] {
    &LOADED
}

#[test]
fn the_bytes_after_a_load(rt: HostRuntime) -> Result<(), Fail> {
    let (first, second) = closed(with_modules(rt.alloc(), &["m"])?);
    check_bytes(&rt, first.bytes(), loaded(), "the first disk");
    check_bytes(&rt, second.bytes(), &[0], "the second disk");
    Ok(())
}

static CLOSED: [&[u8]; 5] = [&[], &[1], &[0, 1, 2], &[2; 60], &[0; 51]];

#[test]
fn no_store(rt: HostRuntime) -> Result<(), Fail> {
    for bytes in &CLOSED {
        let found = (*bytes, found(rt.alloc(), bytes, bytes)?);
        let wanted = (*bytes, Err(StoreFault::Open(OpenFault::NoGeneration)));
        check(&rt, &found, &wanted, "of");
    }
    Ok(())
}

static SURVIVES: [Survives; 5] = [
    Survives::Nothing,
    Survives::Everything,
    Survives::Part(1),
    Survives::Part(2),
    Survives::Part(3),
];

/// What is asked of a store that is opened again, and what is answered.
pub type Look = (&'static [HostStep], &'static str);

/// What a store answers that is opened where a crash leaves such parts of two disks.
fn found_after_crash(
    alloc: Global,
    disks: &Disks,
    survives: Survives,
    looks: &[HostStep],
) -> Result<String, Fail> {
    let a = crashed(alloc, &disks.first, survives)?;
    let b = crashed(alloc, &disks.second, survives)?;
    found_answers(alloc, a, b, looks)
}

/// Compares what is found after each crash between two requests.
pub fn check_survives(
    rt: &impl Abort,
    alloc: Global,
    disks: &Disks,
    look: Look,
) -> Result<(), Fail> {
    let (looks, wanted) = look;
    for survives in &SURVIVES {
        let found = found_after_crash(alloc, disks, *survives, looks)?;
        let what = format!(in alloc; "after a crash that {survives:?} survives")?;
        check_text(rt, found.as_str(), wanted, what.as_str());
    }
    Ok(())
}

// Each run has what is found after a crash at its end.
static CRASHES: [(Run, &str); 4] = [
    (
        Run {
            what: "to make a store",
            start: Start::Make,
            steps: &[],
            answers: "",
            is_reopened: false,
            first: File::Empty,
            second: File::Bytes(&[0]),
            calls: (6, 2),
        },
        "0\nrefused 401 NoModule\n",
    ),
    (
        Run {
            what: "a load",
            start: Start::Open,
            steps: &[HostStep::Load],
            answers: "ok seq 1\n",
            is_reopened: false,
            first: File::Written(1, (0, None), &[(1, Some(2))], &[]),
            second: File::Bytes(&[0]),
            calls: (6 + 1 + 4, 2 + 1),
        },
        "1\nok 2\n",
    ),
    (
        Run {
            what: "a call",
            start: Start::Open,
            steps: &[HostStep::Call(-9)],
            answers: "ok -7 seq 2\n",
            is_reopened: true,
            first: File::Written(1, (0, None), &[(1, Some(2)), (2, Some(-7))], &[]),
            second: File::Bytes(&[0]),
            calls: (11 + 1 + 4 + 1, 3 + 1 + 1),
        },
        "2\nok -7\n",
    ),
    (
        Run {
            what: "a discard",
            start: Start::Open,
            steps: &[HostStep::Discard],
            answers: "ok seq 3\n",
            is_reopened: false,
            first: File::Written(1, (0, None), &[(1, Some(2)), (2, Some(-7)), (3, None)], &[]),
            second: File::Bytes(&[0]),
            calls: (17 + 1 + 4, 5 + 1),
        },
        "3\nrefused 401 NoModule\n",
    ),
];

const LOOKS: &[HostStep] = &[HostStep::Seq, HostStep::Global("n")];

#[test]
fn crashes_between_requests(rt: HostRuntime) -> Result<(), Fail> {
    let mut disks = boxed_disks_of(rt.alloc(), File::Bytes(&[]), File::Bytes(&[1]))?;
    for (run, wanted) in &CRASHES {
        disks = check_run(&rt, rt.alloc(), disks, run)?;
        check_survives(&rt, rt.alloc(), &disks, (LOOKS, *wanted))?;
    }
    Ok(())
}

/// The file of a generation that holds these modules, loaded in this order, and no records.
pub fn file_with(alloc: Global, names: &[&str]) -> Result<Vec<u8>, Fail> {
    let second = second_generation(alloc, with_modules(alloc, names)?)?;
    Ok(Vec::from_slice(alloc, second.bytes())?)
}

static OTHER_ORDERS: [[&str; 3]; 3] = [["b", "a", "c"], ["c", "b", "a"], ["c", "a", "b"]];

#[test]
fn one_file_for_modules_in_any_order(rt: HostRuntime) -> Result<(), Fail> {
    let file = file_with(rt.alloc(), &["a", "b", "c"])?;
    check(&rt, &file.len(), &(51 + 3 * 8), "the length");
    for names in &OTHER_ORDERS {
        let found = file_with(rt.alloc(), names)?;
        check_bytes(&rt, &found, &file, "modules in another order");
    }
    Ok(())
}
