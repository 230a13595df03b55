//! Disks: that calls succeed, what a real file holds, and how much the crash images differ. No clause states these. The
//! calls are data, so that each is proved once and not in each test.

ghost use Rattle.std.specs.Prelude.{◌≡◌, ◌+◌, ◌≤◌, length, IsTrue, IfSome};

use crate::compare::{check_bytes, check_number};
use ash_disk::{Disk, FileDisk, FuseDisk, MemoryDisk, Survives, write_durably};
use std::alloc::{AllocError, Global};
use std::path::PathBuf;
use std::process::Abort;
use std::test::Fail;
use std::{env, fs, io};

/// A call of a disk, with what it must come to.
#[derive(Clone, Copy)]
enum Step {
    /// The disk has so many bytes.
    Length(u64),
    /// These bytes are there from a place on, eight at the most.
    Read(u64, &'static [u8]),
    /// These bytes are written from a place on.
    Write(u64, &'static [u8]),
    /// A write of these bytes from a place on fails.
    Refuses(u64, &'static [u8]),
    /// What was written is synced.
    Sync,
    /// These bytes are written from a place on, and synced.
    WriteDurably(u64, &'static [u8]),
}

// Whether the disk has so many bytes from a place on, as it is asked for no others.
fn has_range<D: Disk>(disk: &mut D, at: u64, count: usize) -> Option<bool>
    ensures within { IfSome result (λ answer. IsTrue answer → IsTrue (D.honest disk.old)
        → at + count ≤ length (D.seen disk.new)) }
    ensures honesty { D.honest disk.new ≡ D.honest disk.old }
{
    match disk.len() {
        Ok(length) => Some(at <= length && count as u64 <= length - at),
        Err(_) => None,
    }
}

// The bytes from a place on, as many as there are of the others, or nothing where they are not read.
fn is_read<D: Disk>(disk: &mut D, at: u64, like: &[u8]) -> Option<bool> {
    let mut part = [9_u8; 8];
    let part = part.get_mut(..like.len())?;
    if !has_range(disk, at, part.len())? {
        return None;
    }
    match disk.read(at, part) {
        Ok(()) => Some(*part == *like),
        Err(_) => None,
    }
}

// Whether these bytes are written from a place on, or nothing where the disk ends before it.
fn is_written<D: Disk>(disk: &mut D, at: u64, bytes: &[u8]) -> Option<bool> {
    if !has_range(disk, at, 0)? {
        return None;
    }
    Some(disk.write_at(at, bytes).is_ok())
}

fn is_written_durably<D: Disk>(disk: &mut D, at: u64, bytes: &[u8]) -> bool {
    has_range(disk, at, 0) == Some(true) && write_durably(disk, at, bytes).is_ok()
}

// Makes a call, and returns whether it came to what it must.
fn make_call<D: Disk>(disk: &mut D, step: Step) -> bool {
    match step {
        Step::Length(length) => disk.len() == Ok(length),
        Step::Read(at, bytes) => is_read(disk, at, bytes) == Some(true),
        Step::Write(at, bytes) => is_written(disk, at, bytes) == Some(true),
        Step::Refuses(at, bytes) => is_written(disk, at, bytes) == Some(false),
        Step::Sync => disk.sync().is_ok(),
        Step::WriteDurably(at, bytes) => is_written_durably(disk, at, bytes),
    }
}

// How many calls came to what they must, up to the first that did not.
fn count_passed<D: Disk>(disk: &mut D, steps: &[Step]) -> u64 {
    let mut passed = 0_u64;
    for step in steps {
        if !make_call(disk, *step) {
            return passed;
        }
        passed = passed.saturating_add(1);
    }
    passed
}

// Makes all of these calls. Where one does not come to what it must, it is the one of the number that is found.
fn check_steps<D: Disk>(rt: &impl Abort, disk: &mut D, steps: &[Step], what: &str) {
    let passed = count_passed(disk, steps);
    check_number(
        rt,
        passed,
        steps.len() as u64,
        what,
        "the calls that came to what they must",
    );
}

/// A disk in memory: what it is called, what it holds, the calls of it, the bytes after them, and how many of the calls
/// were writes and syncs.
struct MemoryRow {
    what: &'static str,
    before: &'static [u8],
    steps: &'static [Step],
    after: &'static [u8],
    calls: u64,
}

// Looks at the bytes of a disk, and at how many writes and syncs it has had.
pub(crate) fn check_disk(rt: &impl Abort, disk: &MemoryDisk, wanted: &[u8], calls: u64, row: &str) {
    check_bytes(rt, disk.bytes(), wanted, row, "the bytes");
    check_number(rt, disk.calls() as u64, calls, row, "the writes and syncs");
}

fn check_memory(rt: &impl Abort, alloc: Global, row: &MemoryRow) -> Result<(), Fail> {
    let mut disk = MemoryDisk::with_bytes(alloc, row.before)?;
    check_steps(rt, &mut disk, row.steps, row.what);
    check_disk(rt, &disk, row.after, row.calls, row.what);
    Ok(())
}

fn check_memories(rt: &impl Abort, alloc: Global, rows: &[MemoryRow]) -> Result<(), Fail> {
    for row in rows {
        check_memory(rt, alloc, row)?;
    }
    Ok(())
}

static READ_AND_WRITTEN: [MemoryRow; 2] = [
    MemoryRow {
        what: "an empty disk",
        before: b"",
        steps: &[
            Step::Length(0),
            Step::Write(0, b"gate"),
            Step::Write(2, b"neration"),
            Step::Sync,
            Step::Length(10),
            Step::Read(1, b"aner"),
        ],
        after: b"ganeration",
        calls: 3,
    },
    MemoryRow {
        what: "a disk that nothing is written to",
        before: b"seven",
        steps: &[],
        after: b"seven",
        calls: 0,
    },
];

#[test]
fn memory_is_read_and_written(rt: HostRuntime) -> Result<(), Fail> {
    check_memories(&rt, rt.alloc(), &READ_AND_WRITTEN)
}

static BEYOND: [MemoryRow; 1] = [MemoryRow {
    what: "a disk with five bytes",
    before: b"seven",
    steps: &[
        Step::Read(2, b"ven"),
        Step::Read(5, b""),
        Step::Write(5, b"s"),
    ],
    after: b"sevens",
    calls: 1,
}];

#[test]
fn beyond_the_file_is_a_failure(rt: HostRuntime) -> Result<(), Fail> {
    check_memories(&rt, rt.alloc(), &BEYOND)?;
    let mut disk = MemoryDisk::with_bytes(rt.alloc(), b"seven")?;
    // A byte beyond, and then far beyond.
    for at in [3, u64::MAX] {
        let is_refused = disk.read(at, &mut [0; 3]).is_err();
        assert!(rt; is_refused, "three bytes from {at} on");
    }
    let is_refused = disk.write_at(6, b"s").is_err();
    assert!(rt; is_refused, "a write that leaves a gap");
    Ok(())
}

// A small commit over the byte `0`.
static COMMIT: [Step; 5] = [
    Step::Write(1, b"ab"),
    Step::Sync,
    Step::WriteDurably(0, b"1"),
    Step::Read(0, b"1"),
    Step::Length(3),
];

// What a fuse lets through of that commit: its name, what the disk holds after it, how many calls were writes and
// syncs, and how many steps succeeded.
type FuseRow = (&'static str, &'static [u8], u64, u64);

static FUSES: [FuseRow; 11] = [
    // A range is read or written in a call more, as the length is asked for before.
    ("0 calls", b"0", 0, 0),
    ("1 call", b"0", 0, 0),
    ("2 calls", b"0ab", 1, 1),
    ("3 calls", b"0ab", 2, 2),
    ("4 calls", b"0ab", 2, 2),
    ("5 calls", b"1ab", 3, 2),
    ("6 calls", b"1ab", 4, 3),
    ("7 calls", b"1ab", 4, 3),
    ("8 calls", b"1ab", 4, 4),
    ("9 calls", b"1ab", 4, 5),
    ("10 calls", b"1ab", 4, 5),
];

// Makes the calls of the commit over a disk that fails after so many calls.
fn check_fuse(rt: &impl Abort, alloc: Global, calls: u64, row: &FuseRow) -> Result<(), Fail> {
    let (what, bytes, memory_calls, steps) = *row;
    let mut fuse = FuseDisk::new(MemoryDisk::with_bytes(alloc, b"0")?, calls);
    let passed = count_passed(&mut fuse, &COMMIT);
    check_number(rt, passed, steps, what, "the calls that succeed");
    check_disk(rt, &fuse.into_inner(), bytes, memory_calls, what);
    Ok(())
}

#[test]
fn a_fuse_fails_from_its_call_on(rt: HostRuntime) -> Result<(), Fail> {
    let mut calls = 0_u64;
    for row in &FUSES {
        check_fuse(&rt, rt.alloc(), calls, row)?;
        calls = calls.saturating_add(1);
    }
    Ok(())
}

// A write that is synced, and two that are not.
static FOUR: [Step; 4] = [
    Step::Write(1, &[1, 2]),
    Step::Sync,
    Step::Write(3, &[4, 5, 6]),
    Step::Write(0, &[9]),
];

// Three bytes on the device, and those calls.
fn four_calls(rt: &impl Abort, alloc: Global) -> Result<MemoryDisk, AllocError> {
    let mut disk = MemoryDisk::with_bytes(alloc, &[7, 7, 7])?;
    check_steps(rt, &mut disk, &FOUR, "the four calls");
    check_disk(rt, &disk, &[9, 1, 2, 4, 5, 6], 4, "the four calls");
    Ok(disk)
}

// What a crash after so many writes and syncs leaves, or after all where there are fewer.
pub(crate) fn image(
    disk: &MemoryDisk,
    calls: usize,
    survives: Survives,
) -> Result<Vec<u8>, AllocError> {
    disk.crash_image(calls.min(disk.calls()), survives)
}

// A crash, and what it leaves: its name, after how many calls it comes, what survives, and the bytes.
type Crash = (&'static str, usize, Survives, &'static [u8]);

static CRASHES: [Crash; 10] = [
    ("nothing of none", 0, Survives::Nothing, &[7, 7, 7]),
    ("all of none", 0, Survives::Everything, &[7, 7, 7]),
    ("nothing of one call", 1, Survives::Nothing, &[7, 7, 7]),
    ("all of one call", 1, Survives::Everything, &[7, 1, 2]),
    ("nothing of two calls", 2, Survives::Nothing, &[7, 1, 2]),
    ("all of two calls", 2, Survives::Everything, &[7, 1, 2]),
    ("nothing of three", 3, Survives::Nothing, &[7, 1, 2]),
    ("all of three", 3, Survives::Everything, &[7, 1, 2, 4, 5, 6]),
    ("nothing of four", 4, Survives::Nothing, &[7, 1, 2]),
    ("all of four", 4, Survives::Everything, &[9, 1, 2, 4, 5, 6]),
];

#[test]
fn a_crash_leaves_nothing_or_everything(rt: HostRuntime) -> Result<(), Fail> {
    let disk = four_calls(&rt, rt.alloc())?;
    for (what, calls, survives, wanted) in &CRASHES {
        let found = image(&disk, *calls, *survives)?;
        check_bytes(&rt, found.as_slice(), wanted, what, "the image");
    }
    Ok(())
}

// Which of four kinds of image a seed gives: nothing, everything, grown in part, or another.
fn kind_of(image: &[u8]) -> usize {
    if image == [7, 1, 2].as_slice() {
        0
    } else if image == [9, 1, 2, 4, 5, 6].as_slice() {
        1
    } else if image.get(1..3) == Some([1, 2].as_slice()) && matches!(image.len(), 4 | 5) {
        2
    } else {
        3
    }
}

// Which kinds of image so many seeds give.
fn kinds_of(disk: &MemoryDisk, seeds: u64) -> Result<[bool; 4], AllocError> {
    let mut seen = [false; 4];
    for seed in 0..seeds {
        let image = image(disk, 4, Survives::Part(seed))?;
        if let Some(kind) = seen.get_mut(kind_of(&image)) {
            *kind = true;
        }
    }
    Ok(seen)
}

#[test]
fn torn_images_differ(rt: HostRuntime) -> Result<(), Fail> {
    let disk = four_calls(&rt, rt.alloc())?;
    let kinds = kinds_of(&disk, 200)?;
    assert_eq!(rt; kinds, [true; 4], "each kind of image, of 200 seeds");
    Ok(())
}

/// How a file is opened.
#[derive(Clone, Copy)]
enum OpenMode {
    /// It is made where there is none.
    Make,
    /// It is there.
    Existing,
    /// It is there, and is open only for reading.
    ReadOnly,
}

fn open_file(rt: &HostRuntime, path: &str, mode: OpenMode) -> io::Result<FileDisk> {
    match mode {
        OpenMode::Make => FileDisk::open_or_make(rt, path),
        OpenMode::Existing => FileDisk::open(rt, path),
        OpenMode::ReadOnly => FileDisk::new(fs::File::open(rt, path)?),
    }
}

/// What is done with a file from its opening on: what that is called, how it is opened, and the calls.
type FileUse = (&'static str, OpenMode, &'static [Step]);

static USES: [FileUse; 4] = [
    (
        "a new file",
        OpenMode::Make,
        &[
            Step::Length(0),
            Step::Write(0, b"gate and "),
            Step::Write(9, b"body"),
            Step::Sync,
        ],
    ),
    (
        "the file",
        OpenMode::Existing,
        &[
            Step::Length(13),
            Step::Read(7, b"d body"),
            Step::WriteDurably(0, b"G"),
        ],
    ),
    (
        "the file once more",
        OpenMode::Make,
        &[Step::Read(0, b"Gate a")],
    ),
    // A file that is open only for reading fails at a write.
    (
        "the file to be read",
        OpenMode::ReadOnly,
        &[Step::Refuses(0, b"g")],
    ),
];

// Where the file is to be: no other run has it.
fn path_of(rt: &HostRuntime) -> Result<PathBuf, Fail> {
    let folder = env::temp_dir(rt)?;
    let name = format!(in rt.alloc(); "ash_disk_{}", std::process::id(rt.process()))?;
    Ok(folder.join(rt.alloc(), name.as_str())?)
}

#[test]
fn a_file_is_read_after_it_is_opened_again(rt: HostRuntime) -> Result<(), Fail> {
    let path = path_of(&rt)?;
    let is_absent = open_file(&rt, path.as_str(), OpenMode::Existing).is_err();
    assert!(rt; is_absent, "no file is there before it is made");
    for (what, mode, steps) in &USES {
        let mut disk = open_file(&rt, path.as_str(), *mode)?;
        check_steps(&rt, &mut disk, steps, what);
    }
    let mut disk = open_file(&rt, path.as_str(), OpenMode::Existing)?;
    let is_refused = disk.read(8, &mut [0; 6]).is_err();
    assert!(rt; is_refused, "six bytes, of which the last is past the end");
    fs::remove_file(&rt, path.as_str())?;
    Ok(())
}
