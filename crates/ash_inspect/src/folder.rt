//! The files of a store in a folder, read into memory. Nothing is written, and no lock is taken.

use crate::store::Side;
use std::alloc::{AllocError, Global};
use std::fs::{File, Files, Metadata};
use std::io::Read;
use std::path::Path;
use std::{fmt, fs, io};

/// A file of a store is shorter than this. One image has fewer than 2^28 bytes, and records of 2^24 bytes or more are
/// followed by a new generation, before another record of fewer than 2^28.
pub const FILE_LIMIT: u64 = 1 << 30;

/// The bytes of a store's files.
#[derive(Drop)]
pub struct StoreFiles {
    pub first: Vec<u8>,
    pub second: Vec<u8>,
    /// The file that is missing. Its bytes are none.
    pub missing: Option<Side>,
}

/// Why the files of a store are not read.
#[derive(Debug, Drop)]
pub enum FolderFault {
    /// There is no such folder.
    NoFolder,
    /// It is no folder.
    NotFolder,
    /// It has neither of the files.
    NoStore,
    /// A file is no regular file.
    NotRegular(Side),
    /// A file is longer than any of a store.
    TooLong(Side),
    /// The folder can't be looked into.
    FolderFailed(io::Error),
    /// A file can't be read.
    FileFailed(Side, io::Error),
    /// Memory was refused.
    NoMemory,
}

impl From<AllocError> for FolderFault {
    fn from(_: AllocError) -> Self {
        FolderFault::NoMemory
    }
}

impl fmt::Display for FolderFault {
    fn fmt<W: fmt::Write>(&self, f: &mut fmt::Formatter<W>) -> fmt::Result {
        match self {
            FolderFault::NoFolder => f.write_str("there is no such folder"),
            FolderFault::NotFolder => f.write_str("it is no folder"),
            FolderFault::NoStore => f.write_str(
                "the folder has neither ash.a nor ash.b: no store is in it",
            ),
            FolderFault::NotRegular(side) => write!(f, "{side} is no regular file"),
            FolderFault::TooLong(side) => write!(f, "{side} is longer than any file of a store"),
            FolderFault::FolderFailed(error) => write!(f, "the folder can't be read: {error}"),
            FolderFault::FileFailed(side, error) => write!(f, "{side} can't be read: {error}"),
            FolderFault::NoMemory => f.write_str("memory was refused"),
        }
    }
}

/// Tests that there is such a folder.
fn require_folder<R: Files<File = File>>(rt: &R, folder: &str) -> Result<(), FolderFault> {
    match fs::metadata(rt, folder) {
        Ok(metadata) if metadata.is_dir() => Ok(()),
        Ok(_) => Err(FolderFault::NotFolder),
        Err(error) => match error.kind() {
            io::ErrorKind::NotFound => Err(FolderFault::NoFolder),
            io::ErrorKind::NotADirectory => Err(FolderFault::NotFolder),
            io::ErrorKind::OutOfMemory => Err(FolderFault::NoMemory),
            _ => Err(FolderFault::FolderFailed(error)),
        },
    }
}

/// Tests that what is to be read is a regular file, and no longer than one of a store may be.
fn require_file(side: Side, metadata: &Metadata) -> Result<(), FolderFault> {
    if !metadata.is_file() {
        return Err(FolderFault::NotRegular(side));
    }
    if metadata.len() >= FILE_LIMIT {
        return Err(FolderFault::TooLong(side));
    }
    Ok(())
}

fn fault_of(side: Side, error: io::Error) -> FolderFault {
    match error.kind() {
        io::ErrorKind::OutOfMemory => FolderFault::NoMemory,
        _ => FolderFault::FileFailed(side, error),
    }
}

/// The bytes of an open file, in order.
fn read_bytes(alloc: Global, side: Side, file: File) -> Result<Vec<u8>, FolderFault> {
    let mut bytes = Vec::new(alloc);
    match file.take(FILE_LIMIT).read_to_end(&mut bytes) {
        Ok(_) => Ok(bytes),
        Err(error) => Err(fault_of(side, error)),
    }
}

/// The bytes of a file. `None` if there is none.
fn read_file<R: Files<File = File>>(
    rt: &R,
    alloc: Global,
    folder: &str,
    side: Side,
) -> Result<Option<Vec<u8>>, FolderFault> {
    let name = side.to_string(alloc)?;
    let path = Path::new(folder).join(alloc, &name)?;
    match fs::symlink_metadata(rt, path.as_str()) {
        Ok(metadata) => require_file(side, &metadata)?,
        Err(error) if error.kind() == io::ErrorKind::NotFound => return Ok(None),
        Err(error) => return Err(fault_of(side, error)),
    }
    match File::open(rt, path.as_str()) {
        Ok(file) => Ok(Some(read_bytes(alloc, side, file)?)),
        Err(error) => Err(fault_of(side, error)),
    }
}

/// The files of the store in a folder, if one is there at least. They are opened for reading alone, so a server may
/// have them.
pub fn read_store<R: Files<File = File>>(
    rt: &R,
    alloc: Global,
    folder: &str,
) -> Result<StoreFiles, FolderFault> {
    require_folder(rt, folder)?;
    let first = read_file(rt, alloc, folder, Side::First)?;
    let second = read_file(rt, alloc, folder, Side::Second)?;
    match (first, second) {
        (Some(first), Some(second)) => Ok(StoreFiles {
            first,
            second,
            missing: None,
        }),
        (Some(first), None) => Ok(StoreFiles {
            first,
            second: Vec::new(alloc),
            missing: Some(Side::Second),
        }),
        (None, Some(second)) => Ok(StoreFiles {
            first: Vec::new(alloc),
            second,
            missing: Some(Side::First),
        }),
        (None, None) => Err(FolderFault::NoStore),
    }
}
