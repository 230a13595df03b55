//! Every cut and every changed byte of a file with three records, against a reading of the layout by hand.

use super::files::WITH_A_MODULE;
use super::open_bytes;
use ash_journal::{OpenFault, Record};
use std::alloc::{AllocError, Global};
use std::process::Abort;
use std::test::Fail;

// What an open file that is beside an empty one holds: its generation, where the image ends, and where the body of each
// record ends. The file below has room for six records at the most.
type Shape = (u64, usize, [usize; 8]);

// Where the block from a place on ends, after its length, or nothing where it or the gate after it is cut, or its
// length is 2^28 or more.
fn block_end(file: &[u8], at: usize) -> Option<usize> {
    let size = file.get(at..at.checked_add(4)?)?;
    let mut bytes = 0_usize;
    for byte in size.iter().rev() {
        bytes = bytes.wrapping_mul(256).wrapping_add(usize::from(*byte));
    }
    if bytes >= 268_435_456 {
        return None;
    }
    let end = at.checked_add(4)?.checked_add(bytes)?;
    file.get(end)?;
    Some(end)
}

// Where the bodies of the records end that begin at a place, or the fault of the first that is cut.
fn ends_by_hand(file: &[u8], from: usize) -> Result<[usize; 8], OpenFault> {
    let mut ends = [0_usize; 8];
    let mut gate = from;
    for place in &mut ends {
        if file.get(gate) != Some(&1) {
            return Ok(ends);
        }
        let Some(end) = block_end(file, gate.wrapping_add(1)) else {
            return Err(OpenFault::Damaged(gate as u64));
        };
        *place = end;
        gate = end;
    }
    Ok(ends)
}

// The number of a generation, the lowest byte first.
fn generation_in(mark: &[u8]) -> u64 {
    let mut generation = 0_u64;
    for byte in mark.iter().skip(8).rev() {
        generation = generation.wrapping_mul(256).wrapping_add(u64::from(*byte));
    }
    generation
}

// What a file holds, or the fault that it has, read by hand from the layout.
fn read_by_hand(file: &[u8]) -> Result<Shape, OpenFault> {
    if file.len() < 2 || file.first() != Some(&1) {
        return Err(OpenFault::NoGeneration);
    }
    let Some(mark) = file.get(1..17) else {
        return Err(OpenFault::Damaged(0));
    };
    if mark.get(..8) != Some(b"ASHOST01".as_slice()) {
        return Err(OpenFault::Damaged(0));
    }
    let Some(image) = block_end(file, 17) else {
        return Err(OpenFault::Damaged(0));
    };
    Ok((generation_in(mark), image, ends_by_hand(file, image)?))
}

// Where the bodies of records end that were found.
fn ends_of(records: &[Record]) -> [usize; 8] {
    let mut ends = [0_usize; 8];
    for (place, record) in ends.iter_mut().zip(records.iter()) {
        *place = (record.gate as usize)
            .wrapping_add(5)
            .wrapping_add(record.body.len());
    }
    ends
}

// The same, as the journal reads it.
fn read_by_journal(alloc: Global, file: &[u8]) -> Result<Shape, OpenFault> {
    let found = open_bytes(alloc, file, b"")?;
    let image = found.image.len().wrapping_add(21);
    let ends = ends_of(found.records.as_slice());
    Ok((found.journal.generation(), image, ends))
}

const FILE: &[u8] = b"\x01ASHOST01\x07\0\0\0\0\0\0\0\x05\0\0\0image\
    \x01\x03\0\0\0one\x01\0\0\0\0\x01\x05\0\0\0three\0junk";

// Compares what the journal finds in a file with what it is to find.
fn check_found(
    rt: &impl Abort,
    alloc: Global,
    file: &[u8],
    wanted: Result<Shape, OpenFault>,
    what: (&str, usize),
) {
    let found = read_by_journal(alloc, file);
    assert_eq!(rt; found, wanted, "{} {}: {file:?}", what.0, what.1);
}

#[test]
fn every_cut(rt: HostRuntime) {
    for len in 0..=FILE.len() {
        let file = FILE.get(..len).unwrap_or(FILE);
        check_found(&rt, rt.alloc(), file, read_by_hand(file), ("cut to", len));
    }
    let whole = Ok((7, 26, [34, 39, 49, 0, 0, 0, 0, 0]));
    check_found(
        &rt,
        rt.alloc(),
        FILE,
        whole,
        ("the whole file of", FILE.len()),
    );
}

// A file with another byte at a place.
fn with_byte(alloc: Global, file: &[u8], at: usize, byte: u8) -> Result<Vec<u8>, AllocError> {
    let mut file = file.to_vec(alloc)?;
    if let Some(place) = file.as_mut_slice().get_mut(at) {
        *place = byte;
    }
    Ok(file)
}

// Each byte in one place of a file.
fn check_place(rt: &impl Abort, alloc: Global, file: &[u8], at: usize) -> Result<(), Fail> {
    for byte in 0..=255 {
        let file = with_byte(alloc, file, at, byte)?;
        let by_hand = read_by_hand(file.as_slice());
        check_found(rt, alloc, file.as_slice(), by_hand, ("changed at", at));
    }
    Ok(())
}

#[test]
fn every_changed_byte(rt: HostRuntime) -> Result<(), Fail> {
    for at in 0..FILE.len() {
        check_place(&rt, rt.alloc(), FILE, at)?;
    }
    Ok(())
}

// What two files are called, the first and how many bytes of it are there, the second, and why they are not opened, if
// they are not.
type FilePair = (
    &'static str,
    &'static [u8],
    usize,
    &'static [u8],
    Option<OpenFault>,
);

const OLDER: &[u8] = b"\x01ASHOST01\x06\0\0\0\0\0\0\0";

const SAME: &[u8] = b"\x01ASHOST01\x07\0\0\0\0\0\0\0";

static TWO_FILES: [FilePair; 5] = [
    // Of the older file nothing is read but its gate, magic and number.
    ("an older file", OLDER, 17, FILE, None),
    (
        "the same generation twice",
        FILE,
        54,
        SAME,
        Some(OpenFault::Damaged(0)),
    ),
    (
        "another format",
        FILE,
        54,
        b"\x01ASHOST02\x06",
        Some(OpenFault::Damaged(0)),
    ),
    (
        "no generation",
        b"\x02",
        1,
        b"",
        Some(OpenFault::NoGeneration),
    ),
    // Cut within the record, it is reported by the gate before it.
    (
        "a record that is cut",
        WITH_A_MODULE,
        80,
        &[0],
        Some(OpenFault::Damaged(50)),
    ),
];

// Compares why two files are not opened.
fn check_two_files(rt: &impl Abort, alloc: Global, row: &FilePair) {
    let (what, first, length, second, wanted) = row;
    let first = first.get(..*length).unwrap_or(first);
    let found = open_bytes(alloc, first, second).err();
    assert_eq!(rt; found, *wanted, "{what}");
}

#[test]
fn two_files(rt: HostRuntime) {
    for row in &TWO_FILES {
        check_two_files(&rt, rt.alloc(), row);
    }
}
