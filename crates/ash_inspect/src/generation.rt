//! The generation that a file holds.

ghost use Rattle.std.specs.Prelude.{ℕ, List, [], IfOk, IfErr};
ghost use Rattle.ash_journal.specs.Opening.{FaultIs};
ghost use Rattle.ash_journal.specs.Layout.{IsFile, header_size};
ghost use Rattle.ash_journal.specs.Reading.{AreAt, bodies_of};
ghost use Rattle.std.specs.Prelude.{length, ◌+◌};
ghost use Rattle.ash_inspect.specs.Files.{FileFaultIs};

use crate::file_fault::FileFault;
use ash_disk::MemoryDisk;
use ash_journal::{Journal, OpenFault, OpenedJournal, Record};
use std::alloc::Global;

/// A generation: its number, its image and its open records.
#[derive(Drop)]
pub struct Generation {
    pub number: u64,
    pub image: Vec<u8>,
    pub records: Vec<Record>,
}

/// A fault of a journal over a file, and an empty one, in memory. No such disk fails but for want of memory.
#[tactic(auto, using(crate::proofs::FileLaws::damage_alone))]
fn fault_of(fault: OpenFault) -> FileFault
    ensures same { (file : List ℕ) → FaultIs fault file [] → FileFaultIs result file }
{
    match fault {
        OpenFault::NoGeneration => FileFault::Closed,
        OpenFault::Damaged(at) => FileFault::Damaged(at),
        OpenFault::DeviceFailed | OpenFault::NoMemory => FileFault::NoMemory,
    }
}

/// The generation that a file holds, read as the journal reads it.
pub fn read_generation(alloc: Global, file: &[u8]) -> Result<Generation, FileFault>
    ensures found { IfOk result (λ g.
        IsFile g.number g.image.items (bodies_of g.records.items) file.now) }
    ensures placed { IfOk result (λ g. AreAt (header_size + length g.image.items) g.records.items) }
    ensures fault { IfErr result (λ fault. FileFaultIs fault file.now) }
{
    let first = MemoryDisk::with_bytes(alloc, file)?;
    let second = MemoryDisk::new(alloc);
    match Journal::open(alloc, first, second) {
        Ok(
            OpenedJournal {
                journal,
                image,
                records,
            },
        ) => Ok(Generation {
            number: journal.generation(),
            image,
            records,
        }),
        Err(refused) => Err(fault_of(refused.fault)),
    }
}
