//! What a journal is not created over, and how faults are written.

use ash_disk::{DeviceFailed, MemoryDisk};
use ash_journal::{AppendError, CreateFault, InstallError, Journal, OpenFault};
use std::alloc::Global;
use std::process::Abort;
use std::test::Fail;

// What two files are called, the files, and why no journal is created over them, if none is.
type FilePair = (
    &'static str,
    &'static [u8],
    &'static [u8],
    Option<CreateFault>,
);

static PAIRS: [FilePair; 4] = [
    ("two empty files", b"", b"", None),
    (
        "a gate and no more, and a file that is shut",
        b"\x01",
        b"\x07rest",
        None,
    ),
    (
        "a first file that is open",
        b"\x01x",
        b"",
        Some(CreateFault::AlreadyThere),
    ),
    (
        "a second file that is open",
        b"\0",
        b"\x01x",
        Some(CreateFault::AlreadyThere),
    ),
];

// Why no journal is created over two disks, if none is, and whether they are as they were.
fn refusal(
    alloc: Global,
    first: MemoryDisk,
    second: MemoryDisk,
    row: &FilePair,
) -> (Option<CreateFault>, bool) {
    match Journal::create(alloc, first, second, b"image") {
        Ok(_) => (None, true),
        Err(refused) => {
            let is_same = refused.first.bytes() == row.1 && refused.second.bytes() == row.2;
            (Some(refused.fault), is_same)
        }
    }
}

fn check_created(rt: &impl Abort, alloc: Global, row: &FilePair) -> Result<(), Fail> {
    let first = MemoryDisk::with_bytes(alloc, row.1)?;
    let second = MemoryDisk::with_bytes(alloc, row.2)?;
    let (fault, is_same) = refusal(alloc, first, second, row);
    assert_eq!(rt; fault, row.3, "{}: why no journal is created", row.0);
    assert!(rt; is_same, "{}: the files stay as they were", row.0);
    Ok(())
}

#[test]
fn a_file_that_is_open_is_not_created_over(rt: HostRuntime) -> Result<(), Fail> {
    for row in &PAIRS {
        check_created(&rt, rt.alloc(), row)?;
    }
    Ok(())
}

const FAULTS: &str =
    "507 DeviceFailed, 509 NoMemory, 507 DeviceFailed, 511 GenerationSpent, 509 NoMemory, \
    501 NoGeneration, 503 Damaged, 502 AlreadyThere";

#[test]
fn faults_have_numbers_and_names(rt: HostRuntime) -> Result<(), Fail> {
    let text = format!(in rt.alloc();
        "{}, {}, {}, {}, {}, {}, {}, {}",
        DeviceFailed.code(),
        AppendError::NoMemory.code(),
        AppendError::DeviceFailed.code(),
        InstallError::GenerationSpent.code(),
        InstallError::NoMemory.code(),
        OpenFault::NoGeneration.code(),
        OpenFault::Damaged(50).code(),
        CreateFault::AlreadyThere.code()
    )?;
    assert_eq!(rt; text.as_str(), FAULTS);
    Ok(())
}

const SENTENCES: &str =
    "a device failed, memory was refused, a device failed, the generation is the last that a number can have, \
    memory was refused, neither file is open: nothing was ever stored in them, the file is damaged at byte 50, \
    a file is open already";

#[test]
fn faults_are_sentences(rt: HostRuntime) -> Result<(), Fail> {
    let text = format!(in rt.alloc();
        "{DeviceFailed}, {}, {}, {}, {}, {}, {}, {}",
        AppendError::NoMemory,
        AppendError::DeviceFailed,
        InstallError::GenerationSpent,
        InstallError::NoMemory,
        OpenFault::NoGeneration,
        OpenFault::Damaged(50),
        CreateFault::AlreadyThere
    )?;
    assert_eq!(rt; text.as_str(), SENTENCES);
    Ok(())
}
