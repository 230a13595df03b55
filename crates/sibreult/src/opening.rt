//! Why a store is not made or not opened.

use ash_console::store::StorePaths;
use ash_durable::{CreateFault, OpenFault, StoreFault};
use ash_host::Counter;
use std::alloc::{AllocError, Global};
use std::fs;
use std::fs::{File, Files};

/// Removes the files that were made for a store, if that could not be made. A store that another process made in the
/// meantime stays.
pub fn remove_made<R: Files<File = File>>(rt: &R, paths: &StorePaths, fault: StoreFault) {
    if let StoreFault::Create(CreateFault::DeviceFailed | CreateFault::NoMemory) = fault {
        let _ = fs::remove_file(rt, paths.a.as_str());
        let _ = fs::remove_file(rt, paths.b.as_str());
    }
}

/// Why a store is not made or not opened, and what to do. `counters` live in it, as far as it could be read.
pub fn store_sentence(
    alloc: Global,
    folder: &str,
    fault: StoreFault,
    counters: usize,
) -> Result<String, AllocError> {
    match fault {
        StoreFault::Create(CreateFault::AlreadyThere) => {
            format!(in alloc; "{folder}: a store is there already")
        }
        StoreFault::Create(CreateFault::DeviceFailed) | StoreFault::Open(OpenFault::DeviceFailed) =>
            format!(in alloc;
                "{folder}: reading, writing or syncing ash.a or ash.b failed: the disk may be full or broken"
            ),
        StoreFault::Create(CreateFault::NoMemory) | StoreFault::Open(OpenFault::NoMemory) => {
            format!(in alloc; "{folder}: there is no memory for the store")
        }
        StoreFault::Open(OpenFault::NoGeneration) => format!(in alloc;
            "{folder}: neither file is open: if `sibreult verify {folder}` finds no store, remove both to make one"
        ),
        StoreFault::Open(OpenFault::Damaged(offset)) => format!(in alloc;
            "{folder}: the store is damaged at byte {offset}: `sibreult verify {folder}` says what is left"
        ),
        StoreFault::OtherInterface => format!(in alloc;
            "{folder}: a program with other registrations made the store: open it with that program"
        ),
        StoreFault::GenerationSpent => {
            format!(in alloc;
                "{folder}: the store is of version 1, and has the last generation that there is"
            )
        }
        StoreFault::PoolShort(Counter::KIND) => format!(in alloc;
            "{folder}: Counters that live in the store: {counters}. Fewer are given: use --counters {counters} or more"
        ),
        StoreFault::PoolShort(kind) => {
            format!(in alloc;
                "{folder}: the store has objects of kind {kind}, which this program has not"
            )
        }
        StoreFault::RestoreRefused(number) => {
            format!(in alloc;
                "{folder}: the host object {number} does not take the state that is stored of it"
            )
        }
    }
}
