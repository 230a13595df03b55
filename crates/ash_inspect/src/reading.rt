//! What is read of an open file, also of one that is cut short.

ghost use Rattle.std.specs.Prelude.{◌≡◌, ◌++◌, ◌∷◌, [], List, ℕ, None, Some, IfOk, IfSome, slice_set};
ghost use Rattle.ash_journal.specs.Layout.{IsFile};
ghost use Rattle.ash_journal.specs.Reading.{AreAt, bodies_of};
ghost use Rattle.ash_replay.specs.ReplayFaults.{after_image};
ghost use Rattle.ash_inspect.specs.Files.{BeginsWith, FileFaultIs};

use crate::file_fault::FileFault;
use crate::generation::{Generation, read_generation};
use std::alloc::{AllocError, Global};

/// What is read of an open file.
#[derive(Drop)]
pub struct Reading {
    /// Its generation, with the records before the first that is cut short.
    pub generation: Generation,
    /// The offset of the gate before the record that is cut short.
    pub cut: Option<u64>,
}

/// What is read before an offset, at which a record is cut short.
#[tactic(auto, using(crate::proofs::FileLaws::front_begins))]
fn read_front(alloc: Global, file: &[u8], at: u64) -> Result<Reading, FileFault>
    ensures begins { IfOk result (λ r.
        BeginsWith r.generation.number r.generation.image.items (bodies_of r.generation.records.items) file.now) }
    ensures placed { IfOk result (λ r.
        AreAt (after_image r.generation.image.items) r.generation.records.items) }
    ensures cut { IfOk result (λ r. r.cut ≡ Some at) }
{
    if at >= file.len() as u64 {
        return Err(FileFault::Damaged(at));
    }
    let mut front = file[..at as usize].to_vec(alloc)?;
    front.push(0)?;
    let generation = read_generation(alloc, &front)?;
    Ok(Reading {
        generation,
        cut: Some(at),
    })
}

/// What is read of an open file, up to the first record that is cut short. A fault has 0 for its offset if no image is
/// there.
#[tactic(auto, using(crate::proofs::FileLaws::whole_begins))]
pub fn read_open(alloc: Global, file: &[u8]) -> Result<Reading, FileFault>
    ensures begins { IfOk result (λ r.
        BeginsWith r.generation.number r.generation.image.items (bodies_of r.generation.records.items) file.now) }
    ensures placed { IfOk result (λ r.
        AreAt (after_image r.generation.image.items) r.generation.records.items) }
    ensures damaged { IfOk result (λ r. IfSome r.cut (λ at. FileFaultIs (FileFault.Damaged at) file.now)) }
    ensures whole { IfOk result (λ r. r.cut ≡ None
        → IsFile r.generation.number r.generation.image.items (bodies_of r.generation.records.items) file.now) }
{
    match read_generation(alloc, file) {
        Ok(generation) => Ok(Reading {
            generation,
            cut: None,
        }),
        Err(FileFault::Damaged(at)) => read_front(alloc, file, at),
        Err(fault) => Err(fault),
    }
}

/// A file with its gate at an offset opened. What has no byte there stays as it is.
pub(crate) fn reopened(alloc: Global, file: &[u8], at: usize) -> Result<Vec<u8>, AllocError>
    ensures value { IfOk result (λ v. v.items ≡ slice_set file.now at 1) }
{
    let mut bytes = file.to_vec(alloc)?;
    if at < bytes.len() {
        bytes[at] = 1;
    }
    Ok(bytes)
}
