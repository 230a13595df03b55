//! A file of the system as a disk.
ghost use Rattle.std.specs.Prelude.{◌≡◌, ◌↔◌, false, ⊤, [], IfOk, IsErr};
ghost use Rattle.ash_disk.specs.Standard.{IsStandard};

use crate::failure::count_failure;
use crate::standard::{is_standard, take_closed_streams};
use crate::{DeviceFailed, Disk};
use std::fs::{File, Files, OpenOptions};
use std::io;
use std::os::unix::fs::{FileExt, MetadataExt};
use std::path::Path;

/// An open file of the system. Reads and writes are at positions, and a sync reaches the device. No contract can
/// say what a real device keeps, so it is never claimed honest. Its descriptor is not that of a standard stream, so
/// nothing that is meant for one is written to it, and nothing is read of it as input.
#[derive(Drop)]
pub struct FileDisk {
    file: File,
    failures: u64,
    ghost apart: { IsStandard file → ⊥ },
}

impl FileDisk {
    ghost use Rattle.ash_disk.specs.File.{file_failures, file_of};

    /// The disk of a file that is open for reading and writing. A file that stands where a standard stream belongs is
    /// refused.
    pub fn new(file: File) -> io::Result<FileDisk>
        ensures failures { IfOk result (λ disk. file_failures disk ≡ 0) }
        ensures same { IfOk result (λ disk. file_of disk ≡ file) }
        ensures refused { IsErr result ↔ IsStandard file }
    {
        if is_standard(&file) {
            return Err(io::Error::new(
                io::ErrorKind::Unsupported,
                "a file has the descriptor of a standard stream",
            ));
        }
        Ok(FileDisk { file, failures: 0 })
    }

    /// Opens a file that is there. The descriptors of standard streams that are closed are taken first.
    pub fn open<R: Files<File = File>>(files: &R, path: &str) -> io::Result<FileDisk>
        ensures failures { IfOk result (λ disk. file_failures disk ≡ 0) }
        ensures apart { IfOk result (λ disk. IsStandard (file_of disk) → ⊥) }
    {
        take_closed_streams(files);
        let file = OpenOptions::new().read(true).write(true).open(files, path)?;
        FileDisk::new(file)
    }

    /// Opens a file, or makes an empty one where there is none, and syncs its folder, so that a file which was just
    /// made is still there after a crash. What the file holds stays. The descriptors of standard streams that are
    /// closed are taken first.
    pub fn open_or_make<R: Files<File = File>>(files: &R, path: &str) -> io::Result<FileDisk>
        ensures failures { IfOk result (λ disk. file_failures disk ≡ 0) }
        ensures apart { IfOk result (λ disk. IsStandard (file_of disk) → ⊥) }
    {
        take_closed_streams(files);
        let mut options = OpenOptions::new();
        options.read(true).write(true).create(true);
        let disk = FileDisk::new(options.open(files, path)?)?;
        sync_folder(files, path)?;
        Ok(disk)
    }
}

// A path with no folder in it is in the current one.
fn sync_folder<R: Files<File = File>>(files: &R, path: &str) -> io::Result<()> {
    let folder = match Path::new(path).parent() {
        Some(folder) if !folder.as_str().is_empty() => folder.as_str(),
        _ => ".",
    };
    File::open(files, folder)?.sync_all()
}

/// Syncs a file. It is an error if no name leads to the file any more, as after it was removed or another was moved over
/// it: what was written would be lost once the file is closed.
fn sync_named(file: &File) -> io::Result<()> {
    file.sync_all()?;
    if file.metadata()?.nlink() == 0 {
        return Err(io::ErrorKind::NotFound.into());
    }
    Ok(())
}

impl Disk for FileDisk {
    ghost use Rattle.ash_disk.specs.File.{file_failures};

    ghost honest = { λ _. false };

    ghost seen = { λ _. [] };

    ghost clock = { λ _. 0 };

    ghost leaves = { λ _ _ _. ⊤ };

    ghost failures = { file_failures };

    ghost seen_may_stay = { λ _ _. tt };

    fn len(&mut self) -> Result<u64, DeviceFailed> {
        let metadata = count_failure(self.file.metadata(), &mut self.failures)?;
        Ok(metadata.len())
    }

    fn read(&mut self, at: u64, into: &mut [u8]) -> Result<(), DeviceFailed> {
        count_failure(self.file.read_exact_at(into, at), &mut self.failures)
    }

    fn write_at(&mut self, at: u64, bytes: &[u8]) -> Result<(), DeviceFailed> {
        count_failure(self.file.write_all_at(bytes, at), &mut self.failures)
    }

    fn sync(&mut self) -> Result<(), DeviceFailed> {
        count_failure(sync_named(&self.file), &mut self.failures)
    }
}
