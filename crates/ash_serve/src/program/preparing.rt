//! The program is prepared: its words are read, and the files that they name are opened.

use super::fault::ProgramFault;
use super::store::{NewStore, Store};
use super::task::{Limits, ProgramTask};
use crate::fault::RunFault;
use ash_disk::take_closed_streams;
use ash_lines::source::ReadFault;
use std::fs::File;
use std::rt::{Env, Files};
use std::{env, io};

/// What the words of the process ask for, with the files that they name.
#[derive(Drop)]
pub enum Prepared {
    /// The script in this file is checked.
    Check(File),
    /// A host is made or opened, with boxes of host objects.
    Host(HostTask),
}

/// What a host is made or opened for, and where its store is.
#[derive(Drop)]
pub enum HostTask {
    /// Serve standard input and output, with the store in memory.
    Try { limits: Limits },
    /// Make a store in these files.
    Create { store: NewStore },
    /// Serve standard input and output, with the store in these files.
    Serve { store: Store, limits: Limits },
}

impl HostTask {
    /// How many host objects of the kind Counter the host is handed, 4,096 at the most. A store is created without: no
    /// script runs then.
    pub fn counters(&self) -> u64 {
        match self {
            HostTask::Create { .. } => 0,
            HostTask::Try { limits } | HostTask::Serve { limits, .. } => limits.counters,
        }
    }
}

/// Reads the words of the process, and opens the files that they name. The descriptors of standard streams that are
/// closed are taken first: an input that was closed is empty, and a write to an output that was closed fails. Faults
/// come in this order: of the words, of the files.
pub fn prepare<R: Env + Files<File = File> + AllocGlobal>(
    rt: &R,
) -> Result<Prepared, ProgramFault> {
    take_closed_streams(rt);
    let words = words_of(rt)?;
    match ProgramTask::read(rt.alloc(), &words)? {
        ProgramTask::Try { limits } => Ok(Prepared::Host(HostTask::Try { limits })),
        ProgramTask::Create { folder } => Ok(Prepared::Host(HostTask::Create {
            store: NewStore::make(rt, folder)?,
        })),
        ProgramTask::Serve { folder, limits } => Ok(Prepared::Host(HostTask::Serve {
            store: Store::open(rt, folder)?,
            limits,
        })),
        ProgramTask::Check { file } => match File::open(rt, file) {
            Ok(file) => Ok(Prepared::Check(file)),
            Err(error) => Err(fault_of_file(error)),
        },
    }
}

/// The words of the process. Some that are not text ask for nothing.
fn words_of<R: Env + AllocGlobal>(rt: &R) -> Result<Vec<String>, ProgramFault> {
    match env::args(rt) {
        Ok(words) => Ok(words.collect(rt.alloc())?),
        Err(error) if error.kind() == io::ErrorKind::OutOfMemory => Err(ProgramFault::NoMemory),
        Err(_) => Err(ProgramFault::Usage),
    }
}

/// Why a script's file could not be opened.
fn fault_of_file(error: io::Error) -> ProgramFault {
    match error.kind() {
        io::ErrorKind::OutOfMemory => ProgramFault::NoMemory,
        _ => ProgramFault::Run(RunFault::Read(ReadFault::Failed)),
    }
}
