//! The files of a store in a folder.

use super::fault::ProgramFault;
use ash_disk::{Disk, FileDisk};
use ash_durable::{CreateFault, OpenFault, StoreFault};
use std::alloc::{AllocError, Global};
use std::fs::{File, Files, OpenOptions, TryLockError};
use std::path::{Path, PathBuf};
use std::{fs, io};

/// The two files of a store, and what excludes other processes: a lock on the first file, which the system
/// gives up when this process ends, however it ends.
#[derive(Drop)]
pub struct Store {
    pub(super) a: FileDisk,
    pub(super) b: FileDisk,
    pub(super) lock: File,
}

impl Store {
    /// The files of a folder that has them. `DeviceFailed` where one can't be opened or locked, or another process has
    /// them.
    pub(super) fn open<R: Files<File = File> + AllocGlobal>(
        rt: &R,
        folder: &str,
    ) -> Result<Store, ProgramFault> {
        let (first, second) = paths(rt.alloc(), folder)?;
        let a = FileDisk::open(rt, first.as_str()).map_err(open_fault)?;
        let b = FileDisk::open(rt, second.as_str()).map_err(open_fault)?;
        match lock_file(rt, first.as_str()).map_err(open_fault)? {
            Some(lock) => Ok(Store { a, b, lock }),
            None => Err(ProgramFault::Store(StoreFault::Open(OpenFault::DeviceFailed))),
        }
    }
}

/// The files of a store that is to be created, and which of them were made for it.
#[derive(Drop)]
pub struct NewStore {
    pub(super) files: Store,
    pub(super) made: MadeFiles,
}

/// Where each file of a store is that was made, as there was none.
#[derive(Drop)]
pub struct MadeFiles {
    a: Option<PathBuf>,
    b: Option<PathBuf>,
}

impl NewStore {
    /// The files of a folder, empty ones made where there are none. `DeviceFailed` where one can't be opened, made or
    /// locked, `AlreadyThere` where another process has them.
    pub(super) fn make<R: Files<File = File> + AllocGlobal>(
        rt: &R,
        folder: &str,
    ) -> Result<NewStore, ProgramFault> {
        let (first, second) = paths(rt.alloc(), folder)?;
        let is_first_new = makes_file(rt, first.as_str()).map_err(make_fault)?;
        let a = FileDisk::open_or_make(rt, first.as_str()).map_err(make_fault)?;
        let is_second_new = makes_file(rt, second.as_str()).map_err(make_fault)?;
        let b = FileDisk::open_or_make(rt, second.as_str()).map_err(make_fault)?;
        match lock_file(rt, first.as_str()).map_err(make_fault)? {
            Some(lock) => Ok(NewStore {
                files: Store { a, b, lock },
                made: MadeFiles {
                    a: if is_first_new { Some(first) } else { None },
                    b: if is_second_new { Some(second) } else { None },
                },
            }),
            None => Err(ProgramFault::Store(StoreFault::Create(CreateFault::AlreadyThere))),
        }
    }
}

impl MadeFiles {
    /// Removes the files that were made, if these disks of them are still empty.
    pub(super) fn remove_empty<R: Files<File = File>>(self, rt: &R, a: FileDisk, b: FileDisk) {
        remove_empty(rt, self.a, a);
        remove_empty(rt, self.b, b);
    }
}

/// Removes a file that was made, if its disk is empty. One that can't be removed stays.
fn remove_empty<R: Files<File = File>>(rt: &R, path: Option<PathBuf>, mut disk: FileDisk) {
    if let Some(path) = path {
        if let Ok(0) = disk.len() {
            let _ = fs::remove_file(rt, path.as_str());
        }
    }
}

/// Whether there was no file at the path: then this makes an empty one.
fn makes_file<R: Files<File = File>>(rt: &R, path: &str) -> io::Result<bool> {
    match File::create_new(rt, path) {
        Ok(_) => Ok(true),
        Err(error) if error.kind() == io::ErrorKind::AlreadyExists => Ok(false),
        Err(error) => Err(error),
    }
}

/// Where the files of a folder's store are.
fn paths(alloc: Global, folder: &str) -> Result<(PathBuf, PathBuf), AllocError> {
    let folder = Path::new(folder);
    Ok((folder.join(alloc, "ash.a")?, folder.join(alloc, "ash.b")?))
}

/// The file with a lock on it, or `None` where another process has one. It is an error if the system gives no lock, as
/// on a file system that knows none: other processes would not be excluded.
fn lock_file<R: Files<File = File>>(rt: &R, path: &str) -> io::Result<Option<File>> {
    let mut options = OpenOptions::new();
    options.read(true).write(true);
    let file = options.open(rt, path)?;
    match file.try_lock() {
        Ok(()) => Ok(Some(file)),
        Err(TryLockError::WouldBlock) => Ok(None),
        Err(TryLockError::Error(error)) => Err(error),
    }
}

/// Why a store is not opened whose file could not be.
fn open_fault(error: io::Error) -> ProgramFault {
    match error.kind() {
        io::ErrorKind::OutOfMemory => ProgramFault::NoMemory,
        _ => ProgramFault::Store(StoreFault::Open(OpenFault::DeviceFailed)),
    }
}

/// Why a store is not made whose file could not be opened or made.
fn make_fault(error: io::Error) -> ProgramFault {
    match error.kind() {
        io::ErrorKind::OutOfMemory => ProgramFault::NoMemory,
        _ => ProgramFault::Store(StoreFault::Create(CreateFault::DeviceFailed)),
    }
}
