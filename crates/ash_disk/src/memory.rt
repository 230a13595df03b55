//! A disk in memory that has its first bytes and records its calls.
ghost use Rattle.std.specs.Prelude.{◌≡◌, ◌+◌, ◌≤◌, ◌∷◌, ◌++◌, ◌↔◌, []};
ghost use Rattle.std.specs.Prelude.{if◌then◌else◌, length, reverse, true, ℕ, List};
ghost use Rattle.std.specs.Prelude.{IfOk, OnOk, OnErr, IsOk, Ok, is_ok};
ghost use Rattle.ash_disk.specs.DiskCalls.{file_after, listed_may_stay};
ghost use Rattle.ash_disk.specs.Failures.{CountsFailure};
ghost use Rattle.ash_disk.specs.DiskImage.{after_write, bytes_at, Torn, TornFrom, LeavesOnly};
ghost use Rattle.ash_disk.specs.Moments.{HoldsDuring};

use crate::bytes::overwrite;
use crate::call::Call;
use crate::crash::{Survives, image_of_all, image_of_part, image_of_synced};
use crate::failure::count_failure;
use crate::{DeviceFailed, Disk};
use std::alloc::{AllocError, Global};

/// A file in memory, as honest as a disk can be. It has its first bytes, and records each write and sync that
/// succeeded, so that it can give an image that a crash at any of them may have left. A call that finds no memory
/// changes nothing and is a failure, and so is one beyond the file.
#[derive(Drop)]
pub struct MemoryDisk {
    alloc: Global,
    first: Vec<u8>,
    calls: Vec<Call>,
    bytes: Vec<u8>,
    failures: u64,
    ghost replayed: { bytes.items ≡ file_after first.items (reverse calls.items) },
}

impl MemoryDisk {
    ghost use Rattle.ash_disk.specs.Memory.{memory_bytes, memory_clock, memory_failures};
    ghost use Rattle.ash_disk.specs.Memory.{MemoryLeaves};
    ghost use Rattle.ash_disk.specs.Memory.{bytes_after, bytes_synced};

    /// An empty file.
    pub fn new(alloc: Global) -> MemoryDisk
        ensures bytes { memory_bytes result ≡ [] }
        ensures clock { memory_clock result ≡ 0 }
        ensures failures { memory_failures result ≡ 0 }
    {
        MemoryDisk {
            alloc,
            first: Vec::new(alloc),
            calls: Vec::new(alloc),
            bytes: Vec::new(alloc),
            failures: 0,
        }
    }

    /// A file that holds these bytes, all of them on the device.
    pub fn with_bytes(alloc: Global, bytes: &[u8]) -> Result<MemoryDisk, AllocError>
        ensures bytes { IfOk result (λ disk. memory_bytes disk ≡ bytes.now) }
        ensures clock { IfOk result (λ disk. memory_clock disk ≡ 0) }
        ensures failures { IfOk result (λ disk. memory_failures disk ≡ 0) }
    {
        Ok(MemoryDisk {
            alloc,
            first: bytes.to_vec(alloc)?,
            calls: Vec::new(alloc),
            bytes: bytes.to_vec(alloc)?,
            failures: 0,
        })
    }

    /// The bytes that a read gives.
    pub fn bytes(&self) -> &[u8]
        ensures bytes { result.now ≡ memory_bytes self.now }
    {
        self.bytes.as_slice()
    }

    /// How many writes and syncs have succeeded, which is the disk's time.
    pub fn calls(&self) -> usize
        ensures clock { result ≡ memory_clock self.now }
    {
        self.calls.len()
    }

    /// An image that a crash after so many writes and syncs may leave.
    pub fn crash_image(&self, calls: usize, survives: Survives) -> Result<Vec<u8>, AllocError>
        requires past { calls ≤ memory_clock self.now }
        ensures allowed { IfOk result (λ image. MemoryLeaves self.now calls image.items) }
        ensures nothing { survives ≡ Survives.Nothing
            → IfOk result (λ image. image.items ≡ bytes_synced self.now calls) }
        ensures everything { survives ≡ Survives.Everything
            → IfOk result (λ image. image.items ≡ bytes_after self.now calls) }
    {
        let calls = &self.calls[..calls];
        match survives {
            Survives::Nothing => image_of_synced(self.alloc, &self.first, calls),
            Survives::Everything => image_of_all(self.alloc, &self.first, calls),
            Survives::Part(seed) => image_of_part(self.alloc, &self.first, calls, seed),
        }
    }
}

// Writes, and records the call.
fn record_write(
    alloc: Global,
    calls: &mut Vec<Call>,
    file: &mut Vec<u8>,
    at: usize,
    bytes: &[u8],
) -> Result<(), AllocError>
    ensures written { OnOk result (file.new.items ≡ after_write file.old.items at bytes.now) }
    ensures recorded { OnOk result ((v : _) × (v.items ≡ bytes.now)
        × (calls.new.items ≡ calls.old.items ++ Call.Write at v ∷ [])) }
    ensures err { OnErr result (file.new.items ≡ file.old.items) }
    ensures none_recorded { OnErr result (calls.new.items ≡ calls.old.items) }
{
    let call = Call::Write {
        at,
        bytes: bytes.to_vec(alloc)?,
    };
    calls.reserve(1)?;
    overwrite(file, at, bytes)?;
    calls.push(call).unwrap();
    Ok(())
}

impl Disk for MemoryDisk {
    ghost use Rattle.ash_disk.specs.Memory.{memory_bytes, memory_clock, memory_failures};
    ghost use Rattle.ash_disk.specs.Memory.{MemoryLeaves};

    ghost honest = { λ _. true };

    ghost seen = { memory_bytes };

    ghost clock = { memory_clock };

    ghost leaves = { MemoryLeaves };

    ghost failures = { memory_failures };

    ghost seen_may_stay = { λ m _.
        listed_may_stay m.first.items m.bytes.items m.calls.items m.replayed };

    fn len(&mut self) -> Result<u64, DeviceFailed>
        ensures answer { result ≡ Ok (length (memory_bytes self.old)) }
        ensures same { self.new ≡ self.old }
    {
        Ok(self.bytes.len() as u64)
    }

    fn read(&mut self, at: u64, into: &mut [u8]) -> Result<(), DeviceFailed>
        ensures within { IsOk result ↔ (at + length into.old ≤ length (memory_bytes self.old)) }
        ensures answer { OnOk result (into.new
            ≡ bytes_at (memory_bytes self.old) at (length into.old)) }
        ensures same { OnOk result (self.new ≡ self.old) }
        ensures unchanged { memory_bytes self.new ≡ memory_bytes self.old }
        ensures moments { HoldsDuring (memory_clock self.old) (memory_clock self.new)
            (MemoryLeaves self.old) (MemoryLeaves self.new)
            (MemoryLeaves self.old (memory_clock self.old)) }
        ensures cause { CountsFailure result (memory_failures self.old) (memory_failures self.new) }
    {
        let at = at as usize;
        if at > self.bytes.len() || into.len() > self.bytes.len() - at {
            return count_failure(Err(DeviceFailed), &mut self.failures);
        }
        into.copy_from_slice(&self.bytes[at..at + into.len()]);
        Ok(())
    }

    fn write_at(&mut self, at: u64, bytes: &[u8]) -> Result<(), DeviceFailed>
        ensures within { OnOk result (at ≤ length (memory_bytes self.old)) }
        ensures written { OnOk result (memory_bytes self.new
            ≡ after_write (memory_bytes self.old) at bytes.now) }
        ensures unchanged { OnErr result (memory_bytes self.new ≡ memory_bytes self.old) }
        ensures in_part { Torn at (length bytes.now)
            (memory_bytes self.old) (memory_bytes self.new) }
        ensures one_more { memory_clock self.new
            ≡ memory_clock self.old + (if is_ok result then 1 else 0) }
        ensures moments { HoldsDuring (memory_clock self.old) (memory_clock self.new)
            (MemoryLeaves self.old) (MemoryLeaves self.new)
            (TornFrom at (length bytes.now) (MemoryLeaves self.old (memory_clock self.old))) }

        // It is the worst of the honest disks: a crash may leave each image that the model allows.
        ensures worst { OnOk result ((image : List ℕ)
            → TornFrom at (length bytes.now) (MemoryLeaves self.old (memory_clock self.old)) image
            → MemoryLeaves self.new (memory_clock self.new) image) }
        ensures cause { CountsFailure result (memory_failures self.old) (memory_failures self.new) }
    {
        let at = at as usize;
        if at > self.bytes.len() {
            return count_failure(Err(DeviceFailed), &mut self.failures);
        }
        let outcome = record_write(self.alloc, &mut self.calls, &mut self.bytes, at, bytes);
        count_failure(outcome, &mut self.failures)
    }

    fn sync(&mut self) -> Result<(), DeviceFailed>
        ensures durable { OnOk result (LeavesOnly (memory_bytes self.new)
            (MemoryLeaves self.new (memory_clock self.new))) }
        ensures unchanged { memory_bytes self.new ≡ memory_bytes self.old }
        ensures one_more { memory_clock self.new
            ≡ memory_clock self.old + (if is_ok result then 1 else 0) }
        ensures moments { HoldsDuring (memory_clock self.old) (memory_clock self.new)
            (MemoryLeaves self.old) (MemoryLeaves self.new)
            (MemoryLeaves self.old (memory_clock self.old)) }
        ensures cause { CountsFailure result (memory_failures self.old) (memory_failures self.new) }
    {
        count_failure(self.calls.push(Call::Sync), &mut self.failures)
    }
}
