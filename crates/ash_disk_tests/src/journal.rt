//! A journal: that its calls succeed, the bytes that they leave, and how many calls of a device they make. No clause
//! states these. Runs over two disks are data, so that each call is proved once and not in each test. `files` has runs
//! with the bytes that they leave, `refusals` what a journal is not created over and how faults are written,
//! `composed` a caller, proved, that makes every call, `crashes` stops a run at each call of a disk, `faults` compares
//! damaged files with a reading of the layout by hand, and `lengths` has lengths that no journal writes.

use crate::compare::check_number;
use crate::disks::check_disk;
use ash_disk::{Disk, MemoryDisk};
use ash_journal::{
    AppendError, InstallError, Journal, LENGTH_LIMIT, OpenFault, OpenedJournal, RECORD_BYTES_LIMIT,
    Record,
};
use std::alloc::{AllocError, Global};
use std::process::Abort;
use std::test::Fail;

mod composed;
mod crashes;
mod faults;
mod files;
mod lengths;
mod refusals;

/// A call of a journal, with what it must come to.
#[derive(Clone, Copy)]
enum Step {
    /// A record with this body is appended.
    Append(&'static [u8]),
    /// A generation with this image is installed.
    Install(&'static [u8]),
    /// No generation is left for this image.
    Spent(&'static [u8]),
    /// The journal is settled.
    Settle,
    /// The journal is in the generation of this number.
    Generation(u64),
    /// Its records have so many bytes.
    RecordBytes(u64),
}

// Appends where the conditions of the call hold.
fn append<D: Disk>(journal: &mut Journal<D>, body: &[u8]) -> Result<(), AppendError> {
    if !journal.is_ready() {
        return Err(AppendError::DeviceFailed);
    }
    if journal.record_bytes() >= RECORD_BYTES_LIMIT || body.len() >= LENGTH_LIMIT {
        return Err(AppendError::NoMemory);
    }
    journal.append(body)
}

// Installs where the conditions of the call hold.
fn install<D: Disk>(journal: &mut Journal<D>, image: &[u8]) -> Result<(), InstallError> {
    if !journal.is_ready() {
        return Err(InstallError::DeviceFailed);
    }
    if image.len() >= LENGTH_LIMIT {
        return Err(InstallError::NoMemory);
    }
    journal.install(image)
}

// Makes a call, and returns whether it came to what it must.
fn make_call<D: Disk>(journal: &mut Journal<D>, step: Step) -> bool {
    match step {
        Step::Append(body) => append(journal, body).is_ok(),
        Step::Install(image) => install(journal, image).is_ok(),
        Step::Spent(image) => install(journal, image) == Err(InstallError::GenerationSpent),
        Step::Settle => journal.settle().is_ok(),
        Step::Generation(generation) => journal.generation() == generation,
        Step::RecordBytes(length) => journal.record_bytes() == length,
    }
}

// How many calls came to what they must, up to the first that did not.
fn count_passed<D: Disk>(journal: &mut Journal<D>, steps: &[Step]) -> usize {
    let mut passed = 0_usize;
    for step in steps {
        if !make_call(journal, *step) {
            return passed;
        }
        passed = passed.saturating_add(1);
    }
    passed
}

/// A record: the offset of the gate before it, and its body.
type PlacedRecord = (u64, &'static [u8]);

// Whether these are the records that were found.
fn has_records(found: &[Record], wanted: &[PlacedRecord]) -> bool {
    let mut place = 0_usize;
    for record in found {
        if wanted.get(place) != Some(&(record.gate, record.body.as_slice())) {
            return false;
        }
        place = place.saturating_add(1);
    }
    place == wanted.len()
}

// Whether two disks that were opened hold this image and these records.
fn has_contents(found: &OpenedJournal<MemoryDisk>, image: &[u8], records: &[PlacedRecord]) -> bool {
    found.image.as_slice() == image && has_records(found.records.as_slice(), records)
}

/// How a run begins.
#[derive(Clone, Copy)]
enum Start {
    /// A journal with this image is created.
    Create(&'static [u8]),
    /// The disks are opened, and hold this image and these records.
    Open(&'static [u8], &'static [PlacedRecord]),
}

/// The calls of a journal from its creation or opening on until it is closed, with the bytes that the two disks have
/// then, and how many writes and syncs each has had by then.
struct Run {
    what: &'static str,
    start: Start,
    steps: &'static [Step],
    files: (&'static [u8], &'static [u8]),
    calls: (u64, u64),
}

fn create(
    alloc: Global,
    first: MemoryDisk,
    second: MemoryDisk,
    image: &[u8],
) -> Result<Journal<MemoryDisk>, Fail> {
    if image.len() >= LENGTH_LIMIT {
        return Err(Fail::from(AllocError));
    }
    match Journal::create(alloc, first, second, image) {
        Ok(journal) => Ok(journal),
        Err(refused) => Err(Fail::from(refused.fault)),
    }
}

fn open(
    alloc: Global,
    first: MemoryDisk,
    second: MemoryDisk,
) -> Result<OpenedJournal<MemoryDisk>, OpenFault> {
    match Journal::open(alloc, first, second) {
        Ok(found) => Ok(found),
        Err(refused) => Err(refused.fault),
    }
}

// Opens two files in memory.
fn open_bytes(
    alloc: Global,
    first: &[u8],
    second: &[u8],
) -> Result<OpenedJournal<MemoryDisk>, OpenFault> {
    let first = disk_of(alloc, first)?;
    let second = disk_of(alloc, second)?;
    open(alloc, first, second)
}

fn disk_of(alloc: Global, bytes: &[u8]) -> Result<MemoryDisk, OpenFault> {
    match MemoryDisk::with_bytes(alloc, bytes) {
        Ok(disk) => Ok(disk),
        Err(AllocError) => Err(OpenFault::NoMemory),
    }
}

// Creates or opens the journal of a run, and looks at what it holds.
fn begin(
    rt: &impl Abort,
    alloc: Global,
    disks: (MemoryDisk, MemoryDisk),
    run: &Run,
) -> Result<Journal<MemoryDisk>, Fail> {
    match run.start {
        Start::Create(image) => create(alloc, disks.0, disks.1, image),
        Start::Open(image, records) => {
            let found = open(alloc, disks.0, disks.1)?;
            let is_same = has_contents(&found, image, records);
            assert!(rt; is_same, "{}: the image and the records", run.what);
            Ok(found.journal)
        }
    }
}

// Makes the calls of a run over two disks, and returns them.
fn check_run(
    rt: &impl Abort,
    alloc: Global,
    disks: (MemoryDisk, MemoryDisk),
    run: &Run,
) -> Result<(MemoryDisk, MemoryDisk), Fail> {
    let mut journal = begin(rt, alloc, disks, run)?;
    let passed = count_passed(&mut journal, run.steps) as u64;
    let steps = run.steps.len() as u64;
    check_number(
        rt,
        passed,
        steps,
        run.what,
        "the calls that came to what they must",
    );
    let (first, second) = journal.close();
    check_disk(rt, &first, run.files.0, run.calls.0, run.what);
    check_disk(rt, &second, run.files.1, run.calls.1, run.what);
    Ok((first, second))
}

// Makes the calls of runs, one after the other, over two disks that begin with these bytes.
fn check_runs(
    rt: &impl Abort,
    alloc: Global,
    files: (&[u8], &[u8]),
    runs: &[Run],
) -> Result<(), Fail> {
    let first = MemoryDisk::with_bytes(alloc, files.0)?;
    let mut disks = (first, MemoryDisk::with_bytes(alloc, files.1)?);
    for run in runs {
        disks = check_run(rt, alloc, disks, run)?;
    }
    Ok(())
}
