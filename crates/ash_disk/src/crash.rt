//! What a crash may leave of a disk in memory, for tests.
ghost use Rattle.std.specs.Prelude.{◌≡◌, ◌<◌, ◌≤◌, ℕ, length, reverse, slice_index, IfOk, OnOk};
ghost use Rattle.ash_disk.specs.DiskCalls.{file_after, synced_after, MayLeave};
ghost use Rattle.ash_disk.specs.DiskImage.{IsOutside, Torn};

use crate::bytes::overwrite;
use crate::call::Call;
use std::alloc::{AllocError, Global};

/// How much of what was written since the last sync survives a crash.
#[derive(Clone, Copy, Debug, PartialEq, Eq)]
pub enum Survives {
    /// None of it.
    Nothing,
    /// All of it, as if there had been no crash.
    Everything,
    /// A part that the seed determines: of each write nothing, all, or a mix of old, new and other bytes, with the file
    /// grown by a part of what it would have grown.
    Part(u64),
}

// Numbers that a seed determines.
#[derive(Drop)]
struct SeededNumbers {
    state: u64,
}

impl SeededNumbers {
    fn next(&mut self) -> u64 {
        self.state = self
            .state
            .wrapping_mul(6_364_136_223_846_793_005)
            .wrapping_add(1_442_695_040_888_963_407);
        self.state >> 33
    }

    fn byte(&mut self) -> u8 {
        (self.next() & 0xff) as u8
    }

    fn up_to(&mut self, max: usize) -> usize
        ensures limit { result ≤ max }
    {
        let pick = self.next() as usize;
        if pick <= max { pick } else { pick % (max + 1) }
    }
}

// The bytes that a read gives after these calls.
pub(crate) fn image_of_all(
    alloc: Global,
    first: &[u8],
    calls: &[Call],
) -> Result<Vec<u8>, AllocError>
    ensures value { IfOk result (λ file. file.items ≡ file_after first.now (reverse calls.now)) }
{
    let mut file = first.to_vec(alloc)?;
    for call in calls {
        if let Call::Write { at, bytes } = call {
            overwrite(&mut file, *at, bytes)?;
        }
    }
    Ok(file)
}

// The bytes that the last sync wrote to the device.
pub(crate) fn image_of_synced(
    alloc: Global,
    first: &[u8],
    calls: &[Call],
) -> Result<Vec<u8>, AllocError>
    ensures value { IfOk result (λ image. image.items
        ≡ synced_after first.now (reverse calls.now)) }
{
    let mut file = first.to_vec(alloc)?;
    let mut synced = first.to_vec(alloc)?;
    for call in calls {
        match call {
            Call::Write { at, bytes } => overwrite(&mut file, *at, bytes)?,
            Call::Sync => synced = file.to_vec(alloc)?,
        }
    }
    Ok(synced)
}

// An image in which each write since the last sync may be torn.
pub(crate) fn image_of_part(
    alloc: Global,
    first: &[u8],
    calls: &[Call],
    seed: u64,
) -> Result<Vec<u8>, AllocError>
    ensures may_leave { IfOk result (λ image. MayLeave first.now (reverse calls.now) image.items) }
{
    let mut numbers = SeededNumbers { state: seed };
    let mut file = first.to_vec(alloc)?;
    let mut image = first.to_vec(alloc)?;
    for call in calls {
        match call {
            Call::Write { at, bytes } => {
                tear(&mut image, *at, bytes, &mut numbers)?;
                overwrite(&mut file, *at, bytes)?;
            }
            Call::Sync => image = file.to_vec(alloc)?,
        }
    }
    Ok(image)
}

// Writes nothing, all, or a part.
fn tear(
    image: &mut Vec<u8>,
    at: usize,
    bytes: &[u8],
    numbers: &mut SeededNumbers,
) -> Result<(), AllocError>
    ensures torn { OnOk result (Torn at (length bytes.now) image.old.items image.new.items) }
{
    match numbers.next() % 4 {
        0 => Ok(()),
        1 => overwrite(image, at, bytes),
        _ => tear_within(image, at, bytes, numbers),
    }
}

// Grows the file by a part of what the write would add, and mixes old, new and other bytes in the range.
fn tear_within(
    image: &mut Vec<u8>,
    at: usize,
    bytes: &[u8],
    numbers: &mut SeededNumbers,
) -> Result<(), AllocError>
    ensures torn { OnOk result (Torn at (length bytes.now) image.old.items image.new.items) }
{
    let len = image.len();
    let room = at.saturating_add(bytes.len()).saturating_sub(len);
    let grown = numbers.up_to(room);
    image.resize(len + grown, numbers.byte())?;
    mix(image, at, bytes, numbers);
    Ok(())
}

// Leaves each byte of the range as it is, or makes it the new one or any.
fn mix(image: &mut [u8], at: usize, bytes: &[u8], numbers: &mut SeededNumbers)
    ensures effect { (place : ℕ) → place < length image.old → IsOutside at (length bytes.now) place
        → slice_index image.new place ≡ slice_index image.old place }
{
    let start = at.min(image.len());
    let over = bytes.len().min(image.len() - start);
    for i in 0..over {
        match numbers.next() % 3 {
            0 => {}
            1 => image[start + i] = bytes[i],
            _ => image[start + i] = numbers.byte(),
        }
    }
}
