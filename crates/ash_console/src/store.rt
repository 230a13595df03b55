//! The store in a folder: it is made or opened, and why it can't be is found out.

use ash_disk::FileDisk;
use std::alloc::{AllocError, Global};
use std::fs::{File, Files, OpenOptions, TryLockError};
use std::path::{Path, PathBuf};
use std::{fs, io};

/// Where the files of a store are.
#[derive(Drop)]
pub struct StorePaths {
    pub folder: PathBuf,
    pub a: PathBuf,
    pub b: PathBuf,
}

impl StorePaths {
    pub fn of(alloc: Global, folder: &str) -> Result<StorePaths, AllocError> {
        let folder = Path::new(folder);
        Ok(StorePaths {
            folder: folder.to_path_buf(alloc)?,
            a: folder.join(alloc, "ash.a")?,
            b: folder.join(alloc, "ash.b")?,
        })
    }
}

/// The files of a store, and what excludes other processes: a lock on the first file, which the system gives up when
/// this process ends.
#[derive(Drop)]
pub struct StoreFiles {
    pub a: FileDisk,
    pub b: FileDisk,
    pub lock: File,
    /// Whether the files were made just now.
    pub is_new: bool,
}

/// Why the files of a store can't be used.
#[derive(Clone, Copy, Debug, PartialEq, Eq)]
pub enum FilesTrouble {
    /// There is a file of the folder's name.
    NoFolder,
    /// The folder can't be made.
    FolderNotMade,
    /// Only the second file is there.
    FirstMissing,
    /// Only the first file is there.
    SecondMissing,
    /// One of the files is a folder, a device or a pipe.
    NotRegular,
    /// Another process has the store.
    InUse,
    ReadOnly,
    NotAllowed,
    Full,
    NoLocks,
    NoMemory,
    Failed,
}

/// What is found at a path.
#[derive(Clone, Copy, Debug, PartialEq, Eq)]
enum Found {
    Nothing,
    Folder,
    File,
    Other,
}

/// Opens the files of a store. Where neither is there they are made, and so is the folder.
pub fn open_files<R: Files<File = File> + AllocGlobal>(
    rt: &R,
    paths: &StorePaths,
) -> Result<StoreFiles, FilesTrouble> {
    match found_at(rt, paths.folder.as_str())? {
        Found::Folder => (),
        Found::Nothing => make_folder(rt, paths.folder.as_str())?,
        Found::File | Found::Other => return Err(FilesTrouble::NoFolder),
    }
    let a = found_at(rt, paths.a.as_str())?;
    let b = found_at(rt, paths.b.as_str())?;
    match (a, b) {
        (Found::Nothing, Found::Nothing) => take_files(rt, paths, true),
        (Found::File, Found::File) => take_files(rt, paths, false),
        (Found::Nothing, Found::File) => Err(FilesTrouble::FirstMissing),
        (Found::File, Found::Nothing) => Err(FilesTrouble::SecondMissing),
        _ => Err(FilesTrouble::NotRegular),
    }
}

/// Opens both files, and locks the first.
fn take_files<R: Files<File = File> + AllocGlobal>(
    rt: &R,
    paths: &StorePaths,
    is_new: bool,
) -> Result<StoreFiles, FilesTrouble> {
    let a = open_disk(rt, paths.a.as_str(), is_new)?;
    let b = open_disk(rt, paths.b.as_str(), is_new)?;
    let lock = lock_file(rt, paths.a.as_str())?;
    Ok(StoreFiles { a, b, lock, is_new })
}

fn open_disk<R: Files<File = File> + AllocGlobal>(
    rt: &R,
    path: &str,
    is_new: bool,
) -> Result<FileDisk, FilesTrouble> {
    let opened = if is_new {
        FileDisk::open_or_make(rt, path)
    } else {
        FileDisk::open(rt, path)
    };
    opened.map_err(|error| trouble_of(&error))
}

/// The file with a lock on it.
fn lock_file<R: Files<File = File>>(rt: &R, path: &str) -> Result<File, FilesTrouble> {
    let mut options = OpenOptions::new();
    options.read(true).write(true);
    let file = match options.open(rt, path) {
        Ok(file) => file,
        Err(error) => return Err(trouble_of(&error)),
    };
    match file.try_lock() {
        Ok(()) => Ok(file),
        Err(TryLockError::WouldBlock) => Err(FilesTrouble::InUse),
        Err(TryLockError::Error(_)) => Err(FilesTrouble::NoLocks),
    }
}

fn make_folder<R: Files<File = File>>(rt: &R, path: &str) -> Result<(), FilesTrouble> {
    match fs::create_dir(rt, path) {
        Ok(()) => Ok(()),
        Err(error) if error.kind() == io::ErrorKind::NotFound => Err(FilesTrouble::FolderNotMade),
        Err(error) => Err(trouble_of(&error)),
    }
}

/// What is at a path. A link is followed.
fn found_at<R: Files<File = File>>(rt: &R, path: &str) -> Result<Found, FilesTrouble> {
    match fs::metadata(rt, path) {
        Ok(found) if found.is_dir() => Ok(Found::Folder),
        Ok(found) if found.is_file() => Ok(Found::File),
        Ok(_) => Ok(Found::Other),
        Err(error) if error.kind() == io::ErrorKind::NotFound => Ok(Found::Nothing),
        Err(error) => Err(trouble_of(&error)),
    }
}

/// Why a file can't be used, by what the system says.
fn trouble_of(error: &io::Error) -> FilesTrouble {
    match error.kind() {
        io::ErrorKind::PermissionDenied => FilesTrouble::NotAllowed,
        io::ErrorKind::ReadOnlyFilesystem => FilesTrouble::ReadOnly,
        io::ErrorKind::StorageFull | io::ErrorKind::QuotaExceeded => FilesTrouble::Full,
        io::ErrorKind::NotADirectory => FilesTrouble::NoFolder,
        io::ErrorKind::OutOfMemory => FilesTrouble::NoMemory,
        _ => FilesTrouble::Failed,
    }
}

impl FilesTrouble {
    /// What is wrong, and what to do.
    pub fn sentence(self) -> &'static str {
        match self {
            FilesTrouble::NoFolder =>
                "a file has this name, or one of the folders before it: name a folder",
            FilesTrouble::FolderNotMade =>
                "the folder that it would be in is not there: make that first",
            FilesTrouble::FirstMissing =>
                "ash.a is missing, and ash.b is there: put ash.a back; no new store is made beside the rest of one",
            FilesTrouble::SecondMissing =>
                "ash.b is missing, and ash.a is there: put ash.b back; no new store is made beside the rest of one",
            FilesTrouble::NotRegular => "ash.a or ash.b is no regular file",
            FilesTrouble::InUse =>
                "another process has the store open: end it, or wait for its end",
            FilesTrouble::ReadOnly =>
                "the file system is read-only: a store is written when it is opened",
            FilesTrouble::NotAllowed =>
                "permission is denied: the folder, ash.a and ash.b must be readable and writable",
            FilesTrouble::Full => "the disk is full, or a quota is reached: free some room",
            FilesTrouble::NoLocks =>
                "the file system has no locks, so that other processes could write at once",
            FilesTrouble::NoMemory => "there is no memory for it",
            FilesTrouble::Failed => "the system can't open or make the files",
        }
    }
}
