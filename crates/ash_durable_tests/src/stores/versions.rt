//! Stores of version 1, as they were written before there were arrays. They are by hand. An opening moves them to
//! version 2.

use crate::checks::check;
use crate::hosts::{
    Disks, Refused, closed_disks, disks_with, opened_unregistered, refused_opening, when_done,
};
use crate::stores::damage::changed;
use crate::stores::runs::{RunSeries, boxed_disks_of, check_lives};
use ash_durable::{OpenFault, StoreFault};
use ash_registry::Registry;
use ash_store_fixtures::hosts::{EMPTY, State, add, found, found_state};
use ash_store_fixtures::lives::{File, HostStep, Run, Start, bytes_of};
use std::alloc::Global;
use std::process::Abort;
use std::test::Fail;

/// A store of version 1: what it is called, its current file, and the state that is found.
type Row = (&'static str, File, State);

static ROWS: [Row; 4] = [
    ("nothing", File::Older(1, (0, None), &[]), (0, None)),
    (
        "a module in the image",
        File::Older(1, (2, Some(7)), &[]),
        (2, Some(7)),
    ),
    (
        "a module in records",
        File::Older(1, (0, None), &[(1, Some(2)), (2, Some(7))]),
        (2, Some(7)),
    ),
    (
        "a module that was removed",
        File::Older(3, (2, Some(7)), &[(3, None)]),
        (3, None),
    ),
];

/// Compares the state that is found in a store of version 1, on either disk.
fn check_found(rt: &impl Abort, alloc: Global, row: &Row) -> Result<(), Fail> {
    let (what, file, state) = *row;
    let file = bytes_of(alloc, file)?;
    check(rt, &found_state(alloc, &file, &[0])?, &Ok(state), what);
    check(rt, &found_state(alloc, &[], &file)?, &Ok(state), what);
    Ok(())
}

#[test]
fn what_is_found_of_version_one(rt: HostRuntime) -> Result<(), Fail> {
    for row in &ROWS {
        check_found(&rt, rt.alloc(), row)?;
    }
    // It is the file of the present version but for one byte.
    let file = bytes_of(rt.alloc(), File::Older(1, (0, None), &[]))?;
    let wanted = changed(rt.alloc(), &EMPTY, 21, 1)?;
    check(
        &rt,
        &file.as_slice(),
        &wanted.as_slice(),
        "an empty store of version 1",
    );
    Ok(())
}

/// The disks of a store of version 1 after a call.
fn disks_after_a_call(alloc: Global, file: File) -> Result<Disks, Fail> {
    let disks = boxed_disks_of(alloc, file, File::Bytes(&[0]))?;
    let mut host = opened_unregistered(alloc, disks)?;
    let reply = add(&mut host, 1);
    Ok(closed_disks(alloc, when_done(alloc, host, reply)?)?)
}

/// The state of a store of version 1 after a call, where its process has ended since.
fn state_after_a_call(alloc: Global, file: File) -> Result<Result<State, StoreFault>, Fail> {
    let disks = disks_after_a_call(alloc, file)?;
    found_state(alloc, disks.first.bytes(), disks.second.bytes())
}

#[test]
fn requests_to_a_store_of_version_one(rt: HostRuntime) -> Result<(), Fail> {
    let file = File::Older(1, (0, None), &[(1, Some(2)), (2, Some(7))]);
    let found = state_after_a_call(rt.alloc(), file)?;
    check(&rt, &found, &Ok((3, Some(8))), "after a call");
    Ok(())
}

/// What opening a store of version 1 gives whose file has another byte at a place.
fn found_with(
    alloc: Global,
    file: File,
    place: usize,
    byte: u8,
) -> Result<Result<u64, StoreFault>, Fail> {
    let file = changed(alloc, &bytes_of(alloc, file)?, place, byte)?;
    found(alloc, &file, &[0])
}

#[test]
fn records_of_another_version(rt: HostRuntime) -> Result<(), Fail> {
    // The record comes after the gate at 50, and its version is at 56.
    let file = File::Older(1, (0, None), &[(1, Some(2))]);
    let as_it_was = found_with(rt.alloc(), file, 56, 1)?;
    check(&rt, &as_it_was, &Ok(1), "a record of version 1");
    let other = found_with(rt.alloc(), file, 56, 2)?;
    check(
        &rt,
        &other,
        &Err(StoreFault::Open(OpenFault::Damaged(50))),
        "a record of version 2",
    );
    let file = File::Whole(1, (0, None), &[(1, Some(2))], &[]);
    let other = found_with(rt.alloc(), file, 56, 1)?;
    check(
        &rt,
        &other,
        &Err(StoreFault::Open(OpenFault::Damaged(50))),
        "a record of version 1 after an image of version 2",
    );
    Ok(())
}

/// Why a store of this file isn't opened, and whether its disks read as before.
fn seen(refused: Refused, file: &[u8]) -> (StoreFault, bool) {
    let (fault, disks) = refused;
    let is_same = disks.first.bytes() == file && disks.second.bytes() == [0].as_slice();
    (fault, is_same)
}

/// Why a store of version 1 isn't opened whose generation has this number, and whether its disks read as before.
fn refused(alloc: Global, number: u64) -> Result<Option<(StoreFault, bool)>, Fail> {
    let file = bytes_of(alloc, File::Older(number, (2, Some(7)), &[]))?;
    let disks = disks_with(alloc, &file, &[0])?;
    match refused_opening(alloc, disks, Registry::new(alloc))? {
        Some(refused) => Ok(Some(seen(refused, &file))),
        None => Ok(None),
    }
}

#[test]
fn the_last_generation_of_version_one(rt: HostRuntime) -> Result<(), Fail> {
    let found = refused(rt.alloc(), u64::MAX)?;
    let wanted = Some((StoreFault::GenerationSpent, true));
    check(&rt, &found, &wanted, "the last generation");
    let found = refused(rt.alloc(), u64::MAX - 1)?;
    check(&rt, &found, &None, "the last but one");
    Ok(())
}

// A store of version 1 after a load of the module `m` from no source: the gate before the record is open, and its 43
// bytes follow.
const LOADED_IN_ONE: &[u8] = &[
    0x01, 0x41, 0x53, 0x48, 0x4f, 0x53, 0x54, 0x30, 0x31, 0x01, 0x00, 0x00, 0x00, 0x00, 0x00, 0x00,
    0x00, 0x1d, 0x00, 0x00, 0x00, 0x01, 0x00, 0x00, 0x00, 0x00, 0x00, 0x00, 0x00, 0x00, 0x00, 0x00,
    0x00, 0x00, 0x00, 0x00, 0x00, 0x00, 0x00, 0x00, 0x00, 0x00, 0x00, 0x00, 0x00, 0x00, 0x00, 0x00,
    0x00, 0x00, 0x01, 0x26, 0x00, 0x00, 0x00, 0x01, 0x01, 0x00, 0x00, 0x00, 0x00, 0x00, 0x01, 0x00,
    0x00, 0x00, 0x00, 0x00, 0x00, 0x00, 0x00, 0x00, 0x00, 0x00, 0x00, 0x00, 0x00, 0x00, 0x00, 0x00,
    0x01, 0x01, 0x6d, 0x00, 0x00, 0x00, 0x00, 0x00, 0x00, 0x00, 0x00, 0x00, 0x00, 0x00,
];

/// What it is moved to: the second generation, with that state in its image, which has 37 bytes.
pub(crate) const LOADED_IN_TWO: &[u8] = &[
    0x01, 0x41, 0x53, 0x48, 0x4f, 0x53, 0x54, 0x30, 0x31, 0x02, 0x00, 0x00, 0x00, 0x00, 0x00, 0x00,
    0x00, 0x25, 0x00, 0x00, 0x00, 0x02, 0x00, 0x00, 0x00, 0x00, 0x00, 0x01, 0x00, 0x00, 0x00, 0x00,
    0x00, 0x00, 0x00, 0x00, 0x00, 0x00, 0x00, 0x00, 0x00, 0x00, 0x00, 0x00, 0x00, 0x01, 0x01, 0x6d,
    0x00, 0x00, 0x00, 0x00, 0x00, 0x00, 0x00, 0x00, 0x00, 0x00, 0x00,
];

// An opening installs a generation of version 2 with the same state in the other file, by two writes and two syncs. The
// file of version 1 stays as it is, and so does a store of version 2.
static LIVES: [RunSeries; 4] = [
    (
        File::Older(1, (0, None), &[]),
        File::Bytes(&[0]),
        &[Run {
            what: "an empty store of version 1",
            start: Start::Open,
            steps: &[HostStep::State],
            answers: "(0, None)\n",
            is_reopened: false,
            first: File::Older(1, (0, None), &[]),
            second: File::Written(2, (0, None), &[], &[]),
            calls: (1, 1 + 4),
        }],
    ),
    (
        File::Bytes(LOADED_IN_ONE),
        File::Bytes(&[0]),
        &[Run {
            what: "a store of version 1 with the record of a load",
            start: Start::Open,
            steps: &[HostStep::Seq],
            answers: "1\n",
            is_reopened: false,
            first: File::Bytes(LOADED_IN_ONE),
            second: File::Bytes(LOADED_IN_TWO),
            calls: (1, 1 + 4),
        }],
    ),
    (
        File::Older(1, (0, None), &[(1, Some(2)), (2, Some(7))]),
        File::Bytes(&[0]),
        &[
            Run {
                what: "a store of version 1 with records",
                start: Start::Open,
                steps: &[HostStep::State],
                answers: "(2, Some(7))\n",
                is_reopened: false,
                first: File::Older(1, (0, None), &[(1, Some(2)), (2, Some(7))]),
                second: File::Written(2, (2, Some(7)), &[], &[]),
                calls: (1, 1 + 4),
            },
            Run {
                what: "a request after that",
                start: Start::Open,
                steps: &[HostStep::Call(1)],
                answers: "ok 8 seq 3\n",
                is_reopened: true,
                first: File::Older(1, (0, None), &[(1, Some(2)), (2, Some(7))]),
                second: File::Written(2, (2, Some(7)), &[(3, Some(8))], &[]),
                calls: (1 + 1 + 1, 5 + 1 + 4 + 1),
            },
        ],
    ),
    (
        File::Bytes(&[0]),
        File::Older(3, (2, Some(7)), &[(3, None)]),
        &[Run {
            what: "a store of version 1 in the second file",
            start: Start::Open,
            steps: &[HostStep::State],
            answers: "(3, None)\n",
            is_reopened: false,
            first: File::Written(4, (3, None), &[], &[]),
            second: File::Older(3, (2, Some(7)), &[(3, None)]),
            calls: (1 + 4, 1),
        }],
    ),
];

#[test]
fn the_files_of_a_store_of_version_one(rt: HostRuntime) -> Result<(), Fail> {
    check_lives(&rt, rt.alloc(), &LIVES)
}
