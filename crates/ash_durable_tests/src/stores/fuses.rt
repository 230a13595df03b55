//! Disks of which one fails first, and hosts over disks that fail.

use crate::hosts::{Disks, boxed_disks};
use ash_disk::{FuseDisk, MemoryDisk};
use ash_durable::{Host, OpenRefused, StoreFault};
use ash_host::Tally;
use ash_registry::Registry;
use ash_store_fixtures::hosts::{Boxes, closed, created, fuse, inner, no_boxes};
use ash_store_fixtures::lives::{HostStep, lived_on_fuses};
use std::alloc::{AllocError, Global};
use std::test::Fail;

/// The disk that fails.
#[derive(Clone, Copy)]
pub(crate) enum Failing {
    First,
    Second,
}

/// How many calls each disk may have where one of them fails after so many, and the other after `others`.
pub(crate) fn fuses(failing: Failing, calls: u64, others: u64) -> (u64, u64) {
    match failing {
        Failing::First => (calls, others),
        Failing::Second => (others, calls),
    }
}

/// A disk in memory that fails.
pub(crate) type Fused = FuseDisk<MemoryDisk>;

/// The two disks of a store, which fail. They are in a box, since they are large, and held by many tests.
pub(crate) type FusedDisks = Box<(Fused, Fused)>;

/// A host over such disks, in a box too.
pub(crate) type FusedHost = Box<Host<Fused, Tally>>;

/// Why a store on such disks is not made or not opened, and these, which are handed back.
pub(crate) type FusedRefused = (StoreFault, FusedDisks);

/// A host that was made or opened, or what was refused of that.
pub(crate) type Begun = Result<FusedHost, FusedRefused>;

/// Such disks in a box.
fn boxed_fused(alloc: Global, disks: (Fused, Fused)) -> Result<FusedDisks, AllocError> {
    Ok(Box::new(alloc, disks)?)
}

/// Such a host in a box.
fn boxed_host(alloc: Global, host: Host<Fused, Tally>) -> Result<FusedHost, AllocError> {
    Ok(Box::new(alloc, host)?)
}

/// What is refused, with the disks in a box.
fn refused_with_disks(
    alloc: Global,
    refused: OpenRefused<Fused>,
) -> Result<FusedRefused, AllocError> {
    let OpenRefused { fault, a, b } = refused;
    Ok((fault, boxed_fused(alloc, (a, b))?))
}

/// Disks that fail after so many calls.
pub(crate) fn fused_disks(
    alloc: Global,
    disks: (MemoryDisk, MemoryDisk),
    calls: (u64, u64),
) -> Result<FusedDisks, AllocError> {
    let first = FuseDisk::new(disks.0, calls.0);
    let second = FuseDisk::new(disks.1, calls.1);
    boxed_fused(alloc, (first, second))
}

/// The disks in those that fail.
pub(crate) fn inner_disks(alloc: Global, disks: FusedDisks) -> Result<Disks, AllocError> {
    let (first, second) = Box::into_inner(disks);
    boxed_disks(alloc, (inner(first), inner(second)))
}

/// What was begun, in a box.
fn boxed(
    alloc: Global,
    begun: Result<Host<Fused, Tally>, OpenRefused<Fused>>,
) -> Result<Begun, AllocError> {
    match begun {
        Ok(host) => Ok(Ok(boxed_host(alloc, host)?)),
        Err(refused) => Ok(Err(refused_with_disks(alloc, refused)?)),
    }
}

/// A host with a new store on these disks, or what was refused.
pub(crate) fn create_host(alloc: Global, disks: FusedDisks) -> Result<Begun, AllocError> {
    let (a, b) = Box::into_inner(disks);
    let registry = Registry::new(alloc);
    let Boxes { pool, services } = no_boxes(alloc);
    boxed(alloc, Host::create(alloc, a, b, registry, pool, services))
}

/// A host with the store on these disks, or what was refused.
pub(crate) fn open_host(alloc: Global, disks: FusedDisks) -> Result<Begun, AllocError> {
    let (a, b) = Box::into_inner(disks);
    let registry = Registry::new(alloc);
    let Boxes { pool, services } = no_boxes(alloc);
    boxed(alloc, Host::open(alloc, a, b, registry, pool, services))
}

/// The disks of a host that is closed.
pub(crate) fn close_host(alloc: Global, host: FusedHost) -> Result<FusedDisks, AllocError> {
    boxed_fused(alloc, closed(Box::into_inner(host)))
}

/// A host with a new store on disks that fail after so many calls, or why there is none.
fn created_on_fuses(alloc: Global, calls: (u64, u64)) -> Result<Host<Fused, Tally>, StoreFault> {
    let (a, b) = (fuse(alloc, calls.0), fuse(alloc, calls.1));
    created(alloc, a, b, Registry::new(alloc), no_boxes(alloc))
}

/// The same in a box.
pub(crate) fn fused_host(
    alloc: Global,
    calls: (u64, u64),
) -> Result<Result<FusedHost, StoreFault>, AllocError> {
    match created_on_fuses(alloc, calls) {
        Ok(host) => Ok(Ok(boxed_host(alloc, host)?)),
        Err(fault) => Ok(Err(fault)),
    }
}

/// What a new store answers to steps whose disks fail after so many calls, and the disks.
pub(crate) fn answers_on_fuses(
    alloc: Global,
    calls: (u64, u64),
    steps: &[HostStep],
) -> Result<(String, Disks), Fail> {
    let (answers, disks) = lived_on_fuses(alloc, calls, steps)?;
    Ok((answers, boxed_disks(alloc, disks)?))
}
