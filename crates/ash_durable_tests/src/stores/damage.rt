//! Damaged stores: files that are cut, and files with another byte at a place.

use crate::checks::{check, check_bytes};
use crate::hosts::{Disks, disks_after_opening};
use crate::stores::store::{file_with, loaded};
use ash_durable::{OpenFault, StoreFault};
use ash_store_fixtures::hosts::found;
use ash_store_fixtures::lives::{File, bytes_of};
use std::alloc::{AllocError, Global};
use std::process::Abort;
use std::test::Fail;

/// What opening is to give a store: its number, or the fault of its files.
type Found = Result<u64, OpenFault>;

const DAMAGED: Found = Err(OpenFault::Damaged(0));

/// Where a file is cut: from these lengths on, this is what opening gives it.
type Cut = (usize, Found);

/// What opening gives a file that is cut to so many bytes.
fn wanted_of(cuts: &[Cut], length: usize) -> Found {
    let mut wanted = Err(OpenFault::NoGeneration);
    for (from, found) in cuts {
        if length >= *from {
            wanted = *found;
        }
    }
    wanted
}

// Of a store with one record. Its first gate counts where something follows, and the first image ends at 50, where the
// gate before the record is. The record and the next gate end at 92.
static CUTS_OF_LOADED: [Cut; 4] = [
    (0, Err(OpenFault::NoGeneration)),
    (2, DAMAGED),
    (51, Err(OpenFault::Damaged(50))),
    (92, Ok(1)),
];

/// A file: what it is called, its bytes, how many there are, and what opening gives where it is cut.
type CutFile = (&'static str, File, usize, &'static [Cut]);

static CUT_FILES: [CutFile; 3] = [
    // The same with two records, of which each has 5 bytes around its body. One adds a module with a name of one byte,
    // 45 bytes of source and one global, and has 36 + 45 + 7; the other changes one global, and has 39. What comes
    // after the last gate is not read.
    (
        "two records, and three bytes more",
        File::Written(1, (0, None), &[(1, Some(2)), (2, Some(7))], &[1, 2, 3]),
        188 + 3,
        &[
            (0, Err(OpenFault::NoGeneration)),
            (2, DAMAGED),
            (51, Err(OpenFault::Damaged(50))),
            (144, Err(OpenFault::Damaged(143))),
            (188, Ok(2)),
        ],
    ),
    // The same with whole states, of which each has a tag and an image of 87 bytes: an empty one of 29, and the module,
    // which has 2 + 4 + 45 + 2 + 5.
    (
        "two records of whole states",
        File::Whole(1, (0, None), &[(1, Some(2)), (2, Some(7))], &[]),
        237,
        &[
            (0, Err(OpenFault::NoGeneration)),
            (2, DAMAGED),
            (51, Err(OpenFault::Damaged(50))),
            (144, Err(OpenFault::Damaged(143))),
            (237, Ok(2)),
        ],
    ),
    // And with no record. The image has 87 bytes, and its next gate is at 21 + 87.
    (
        "one image",
        File::Written(2, (2, Some(7)), &[], &[]),
        109,
        &[
            (0, Err(OpenFault::NoGeneration)),
            (2, DAMAGED),
            (109, Ok(2)),
        ],
    ),
];

/// Compares what opening gives a file that is cut.
fn check_cut(
    rt: &impl Abort,
    alloc: Global,
    cut: &[u8],
    cuts: &[Cut],
    what: &str,
) -> Result<(), Fail> {
    let found = (cut.len(), found(alloc, cut, &[0])?);
    let wanted = wanted_of(cuts, cut.len()).map_err(StoreFault::Open);
    let wanted = (cut.len(), wanted);
    check(rt, &found, &wanted, what);
    Ok(())
}

/// Compares what opening gives a file that is cut to each length.
fn check_cuts(
    rt: &impl Abort,
    alloc: Global,
    file: &[u8],
    cuts: &[Cut],
    what: &str,
) -> Result<(), Fail> {
    for length in 0..=file.len() {
        check_cut(
            rt,
            alloc,
            file.get(..length).unwrap_or_default(),
            cuts,
            what,
        )?;
    }
    Ok(())
}

fn check_cut_file(rt: &impl Abort, alloc: Global, row: &CutFile) -> Result<(), Fail> {
    let (what, file, length, cuts) = *row;
    let file = bytes_of(alloc, file)?;
    check(rt, &file.len(), &length, what);
    check_cuts(rt, alloc, file.as_slice(), cuts, what)
}

#[test]
fn a_file_cut_short(rt: HostRuntime) -> Result<(), Fail> {
    check_cuts(&rt, rt.alloc(), loaded(), &CUTS_OF_LOADED, "one record")?;
    for row in &CUT_FILES {
        check_cut_file(&rt, rt.alloc(), row)?;
    }
    Ok(())
}

/// A file with another byte at a place.
pub fn changed(alloc: Global, file: &[u8], place: usize, byte: u8) -> Result<Vec<u8>, AllocError> {
    let mut file = Vec::from_slice(alloc, file)?;
    if let Some(old) = file.get_mut(place) {
        *old = byte;
    }
    Ok(file)
}

/// The number 1 with another byte at a place, the lowest first.
fn number_with(place: usize, byte: u8) -> u64 {
    let mut bytes = [1, 0, 0, 0, 0, 0, 0, 0];
    if let Some(old) = bytes.get_mut(place) {
        *old = byte;
    }
    u64::from_le_bytes(bytes)
}

/// What opening gives the store that has loaded `m`, with another byte at a place.
fn wanted_of_loaded(place: usize, byte: u8) -> Found {
    match place {
        // The gate of the file.
        0 => Err(OpenFault::NoGeneration),
        // The generation, which no other file is open beside, and what is in the image before the state in the record:
        // the number, and the last number of an object.
        9..=16 | 27..=42 => Ok(1),
        // An image of version 1, in which a change of the modules is spelled the same.
        21 if byte == 1 => Ok(1),
        // The length of the image. Two lengths lead to a byte 1 of the record, at 74 and 75, as the gate of a record
        // that is cut; from the others none is found, or a whole one after an image of another length.
        17 if byte == 53 => Err(OpenFault::Damaged(74)),
        17 if byte == 54 => Err(OpenFault::Damaged(75)),
        // What the file is known by, and the rest of the image.
        1..=8 | 17..=26 | 43..=49 => DAMAGED,
        // The gate before the record, which then counts no more.
        50 => Ok(0),
        // The length of the body, of which the same is to be said.
        51 if byte == 19 => Err(OpenFault::Damaged(74)),
        51 if byte == 20 => Err(OpenFault::Damaged(75)),
        // In the record the number, and the last number of an object.
        56..=63 => Ok(number_with(place.wrapping_sub(56), byte)),
        64..=71 => Ok(1),
        // The module's name, of one byte.
        76 if byte == b'_' || byte.is_ascii_alphabetic() => Ok(1),
        // The next gate, after which a record would be cut.
        91 if byte == 1 => Err(OpenFault::Damaged(91)),
        91 => Ok(1),
        // The rest of the record.
        _ => Err(OpenFault::Damaged(50)),
    }
}

/// Compares what opening gives that store with each other byte at a place.
fn check_place(rt: &impl Abort, alloc: Global, place: usize, old: u8) -> Result<(), Fail> {
    for byte in 0..=255 {
        if byte == old {
            continue;
        }
        let file = changed(alloc, loaded(), place, byte)?;
        let found = (place, byte, found(alloc, &file, &[0])?);
        let wanted = wanted_of_loaded(place, byte).map_err(StoreFault::Open);
        let wanted = (place, byte, wanted);
        check(rt, &found, &wanted, "another byte at a place");
    }
    Ok(())
}

#[test]
fn each_byte_changed(rt: HostRuntime) -> Result<(), Fail> {
    let mut place = 0_usize;
    for byte in loaded() {
        check_place(&rt, rt.alloc(), place, *byte)?;
        place = place.wrapping_add(1);
    }
    Ok(())
}

type Changed = (usize, u8, Found);

// A store whose state is all in its image, with a module of 45 bytes of source and one global.
static CHANGED: [Changed; 24] = [
    // The gate.
    (0, 0, Err(OpenFault::NoGeneration)),
    (0, 2, Err(OpenFault::NoGeneration)),
    // What the file is known by, its generation, its image's length and version.
    (1, b'a', DAMAGED),
    (9, 0, Ok(2)),
    (16, 0xff, Ok(2)),
    (17, 0x1e, DAMAGED),
    (21, 0, DAMAGED),
    (21, 1, Ok(2)),
    (21, 3, DAMAGED),
    // How many requests have been answered, and the last number of an object.
    (27, 9, Ok(9)),
    (35, 9, Ok(2)),
    // How many modules there are, the name's length, and the name.
    (45, 0, DAMAGED),
    (45, 2, DAMAGED),
    (46, 2, DAMAGED),
    (47, b'k', Ok(2)),
    (47, b'0', DAMAGED),
    // The source: another number, no source, one with two globals.
    (60, b'3', Ok(2)),
    (52, b'j', DAMAGED),
    // How many globals there are, and the type of the first.
    (97, 0, DAMAGED),
    (97, 2, DAMAGED),
    (99, 2, DAMAGED),
    (99, 5, DAMAGED),
    (100, 9, Ok(2)),
    // The next gate, after which a record would be cut.
    (108, 1, Err(OpenFault::Damaged(108))),
];

/// Compares what opening a store gives whose file has another byte at a place.
fn check_changed(rt: &impl Abort, alloc: Global, file: &[u8], row: Changed) -> Result<(), Fail> {
    let (place, byte, wanted) = row;
    let file = changed(alloc, file, place, byte)?;
    let found = (place, byte, found(alloc, &file, &[0])?);
    let wanted = (place, byte, wanted.map_err(StoreFault::Open));
    check(rt, &found, &wanted, "another byte at a place");
    Ok(())
}

#[test]
fn a_byte_changed(rt: HostRuntime) -> Result<(), Fail> {
    let file = bytes_of(rt.alloc(), File::Written(2, (2, Some(7)), &[], &[]))?;
    for row in &CHANGED {
        check_changed(&rt, rt.alloc(), file.as_slice(), *row)?;
    }
    Ok(())
}

// A store with the modules `a` and `k`, whose names are at 47 and 55.
static NAMED: [Changed; 11] = [
    (47, b'b', Ok(2)),
    (47, b'j', Ok(2)),
    (47, b'k', DAMAGED),
    (47, b'l', DAMAGED),
    (55, b'b', Ok(2)),
    (55, b'a', DAMAGED),
    (55, b'Z', DAMAGED),
    // How many modules there are.
    (45, 0, DAMAGED),
    (45, 1, DAMAGED),
    (45, 3, DAMAGED),
    (45, 17, DAMAGED),
];

#[test]
fn modules_out_of_order(rt: HostRuntime) -> Result<(), Fail> {
    let file = file_with(rt.alloc(), &["k", "a"])?;
    for row in &NAMED {
        check_changed(&rt, rt.alloc(), &file, *row)?;
    }
    Ok(())
}

/// Opens a store with one record, whose next gate is this byte, beside another file, and gives its disks.
fn repaired(alloc: Global, gate: u8, other: &[u8]) -> Result<Disks, Fail> {
    let file = changed(alloc, loaded(), 91, gate)?;
    disks_after_opening(alloc, &file, other)
}

/// The next gate after a record, the other file, what that is after an opening, and the calls of the first disk and of
/// the second.
type Gates = (u8, &'static [u8], &'static [u8], usize, usize);

// Each file is synced. Each gate that is not 0 is written over, and synced once more.
static GATES: [Gates; 8] = [
    (0, &[0], &[0], 1, 1),
    (0, &[0, 1, 2], &[0, 1, 2], 1, 1),
    (2, &[0], &[0], 3, 1),
    (255, &[], &[0], 3, 3),
    (0, &[], &[0], 1, 3),
    (0, &[1], &[0], 1, 3),
    (7, &[2, 8, 9], &[0, 8, 9], 3, 3),
    // An older generation.
    (
        2,
        b"\x01ASHOST01\0\0\0\0\0\0\0\0",
        b"\x01ASHOST01\0\0\0\0\0\0\0\0",
        3,
        1,
    ),
];

/// Compares what an opening leaves of gates.
fn check_gates(rt: &impl Abort, alloc: Global, row: &Gates) -> Result<(), Fail> {
    let (gate, other, after, first_calls, second_calls) = *row;
    let Disks { first, second } = repaired(alloc, gate, other)?;
    check_bytes(rt, first.bytes(), loaded(), "the file with the record");
    check_bytes(rt, second.bytes(), after, "the other file");
    let calls = (gate, other, first.calls(), second.calls());
    check(
        rt,
        &calls,
        &(gate, other, first_calls, second_calls),
        "calls",
    );
    Ok(())
}

#[test]
fn gates_that_a_crash_left(rt: HostRuntime) -> Result<(), Fail> {
    for row in &GATES {
        check_gates(&rt, rt.alloc(), row)?;
    }
    Ok(())
}
