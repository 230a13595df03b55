//! Hosts over disks in memory, and what they reply. Each call of a host or a run is in a function of its own, which
//! promises nothing: so its contract is seen once, and not in every test.

use crate::checks::check_text;
use ash_disk::{Disk, MemoryDisk, Survives};
use ash_durable::{Host, OpenRefused, StoreFault};
use ash_host::{HostObject, Tally};
use ash_registry::Registry;
use ash_serve::RunFault;
use ash_serve::program::registrations::registrations;
use ash_serve::run::run;
use ash_states::state::HostReply;
use ash_store_fixtures::hosts::{
    Boxes, State, closed, created, found_state, image_after, load, need, no_boxes, opened, reopened,
};
use ash_store_fixtures::lives::Start;
use std::alloc::{AllocError, Global};
use std::io::{Read, Write};
use std::process::Abort;
use std::test::Fail;

/// A host over disks in memory. It is in a box, since it is large, and held by many tests.
pub type BoxedHost = Box<Host<MemoryDisk, Tally>>;

/// The two disks of a store in memory, in boxes too.
#[derive(Drop)]
pub struct Disks {
    pub first: Box<MemoryDisk>,
    pub second: Box<MemoryDisk>,
}

/// A host in a box.
fn boxed(alloc: Global, host: Host<MemoryDisk, Tally>) -> Result<BoxedHost, AllocError> {
    Ok(Box::new(alloc, host)?)
}

/// A disk in a box.
pub fn boxed_disk(alloc: Global, disk: MemoryDisk) -> Result<Box<MemoryDisk>, AllocError> {
    Ok(Box::new(alloc, disk)?)
}

/// Two disks in boxes.
pub fn boxed_disks(alloc: Global, disks: (MemoryDisk, MemoryDisk)) -> Result<Disks, AllocError> {
    let (first, second) = disks;
    let first = boxed_disk(alloc, first)?;
    let second = boxed_disk(alloc, second)?;
    Ok(Disks { first, second })
}

/// A disk in memory with these bytes.
fn disk_with(alloc: Global, bytes: &[u8]) -> Result<Box<MemoryDisk>, AllocError> {
    boxed_disk(alloc, MemoryDisk::with_bytes(alloc, bytes)?)
}

/// Why a store is not made or not opened, and its disks, which are handed back.
pub type Refused = (StoreFault, Disks);

/// What is refused, with the disks in boxes.
pub fn refused_with_disks(
    alloc: Global,
    refused: OpenRefused<MemoryDisk>,
) -> Result<Refused, AllocError> {
    let OpenRefused { fault, a, b } = refused;
    Ok((fault, boxed_disks(alloc, (a, b))?))
}

/// Disks in memory with these bytes.
pub fn disks_with(alloc: Global, first: &[u8], second: &[u8]) -> Result<Disks, AllocError> {
    let first = disk_with(alloc, first)?;
    let second = disk_with(alloc, second)?;
    Ok(Disks { first, second })
}

/// Two disks out of their boxes.
pub fn unboxed(disks: Disks) -> (MemoryDisk, MemoryDisk) {
    let Disks { first, second } = disks;
    (Box::into_inner(first), Box::into_inner(second))
}

/// A tally that is 0, for the service of the program. It is dropped where no service is registered.
pub fn one_tally(alloc: Global) -> Result<Boxes<Tally>, AllocError> {
    Ok(Boxes {
        pool: Vec::new(alloc),
        services: vec![in alloc; Tally::new()]?,
    })
}

/// A host over two empty disks in memory, with this registry.
pub fn new_host(alloc: Global, registry: Registry) -> Result<BoxedHost, Fail> {
    let (a, b) = (MemoryDisk::new(alloc), MemoryDisk::new(alloc));
    let host = created(alloc, a, b, registry, one_tally(alloc)?)?;
    Ok(boxed(alloc, host)?)
}

/// The same with nothing registered.
pub fn unregistered_host(alloc: Global) -> Result<BoxedHost, Fail> {
    new_host(alloc, Registry::new(alloc))
}

/// The same with what the program registers.
pub fn registered_host(alloc: Global) -> Result<BoxedHost, Fail> {
    new_host(alloc, registrations(alloc)?)
}

/// A host that is opened over these disks, with this registry.
pub fn opened_host(alloc: Global, disks: Disks, registry: Registry) -> Result<BoxedHost, Fail> {
    let (a, b) = unboxed(disks);
    let host = opened(alloc, a, b, registry, one_tally(alloc)?)?;
    Ok(boxed(alloc, host)?)
}

/// The same with nothing registered.
pub fn opened_unregistered(alloc: Global, disks: Disks) -> Result<BoxedHost, Fail> {
    opened_host(alloc, disks, Registry::new(alloc))
}

/// The same with what the program registers.
pub fn opened_registered(alloc: Global, disks: Disks) -> Result<BoxedHost, Fail> {
    opened_host(alloc, disks, registrations(alloc)?)
}

/// A host with nothing registered that is opened over disks with these bytes, or why there is none.
pub fn found_host(
    alloc: Global,
    first: &[u8],
    second: &[u8],
) -> Result<Result<BoxedHost, StoreFault>, AllocError> {
    let (a, b) = unboxed(disks_with(alloc, first, second)?);
    match opened(alloc, a, b, Registry::new(alloc), no_boxes(alloc)) {
        Ok(host) => Ok(Ok(boxed(alloc, host)?)),
        Err(fault) => Ok(Err(fault)),
    }
}

/// What is refused of opening these disks with this registry, if it is.
pub fn refused_opening(
    alloc: Global,
    disks: Disks,
    registry: Registry,
) -> Result<Option<Refused>, AllocError> {
    let (a, b) = unboxed(disks);
    let Boxes { pool, services } = one_tally(alloc)?;
    match Host::open(alloc, a, b, registry, pool, services) {
        Ok(_) => Ok(None),
        Err(refused) => Ok(Some(refused_with_disks(alloc, refused)?)),
    }
}

/// A host that was closed and opened again with the same registry.
pub fn reopened_host(alloc: Global, host: BoxedHost) -> Result<BoxedHost, Fail> {
    let boxes = one_tally(alloc)?;
    Ok(boxed(alloc, reopened(Box::into_inner(host), boxes)?)?)
}

/// The two disks of a host that is closed.
pub fn closed_disks(alloc: Global, host: BoxedHost) -> Result<Disks, AllocError> {
    boxed_disks(alloc, closed(Box::into_inner(host)))
}

/// What a crash after so many calls leaves of a disk, or after all calls where there are fewer.
fn crashed(
    alloc: Global,
    disk: &MemoryDisk,
    calls: usize,
    survives: Survives,
) -> Result<Box<MemoryDisk>, AllocError> {
    let image = disk.crash_image(calls.min(disk.calls()), survives)?;
    disk_with(alloc, &image)
}

/// What a crash leaves of two disks, where this survives of what was not synced, and the first has had so many calls.
pub fn both_crashed(
    alloc: Global,
    disks: &Disks,
    calls: usize,
    survives: Survives,
) -> Result<Disks, AllocError> {
    let first = crashed(alloc, &disks.first, calls, survives)?;
    let second = crashed(alloc, &disks.second, usize::MAX, survives)?;
    Ok(Disks { first, second })
}

/// A host that is opened, with nothing registered, over what a crash of another leaves that nothing survives.
pub fn unregistered_after_crash(alloc: Global, host: BoxedHost) -> Result<BoxedHost, Fail> {
    opened_unregistered(alloc, crashed_disks(alloc, Box::into_inner(host))?)
}

/// A host with what the program registers, and with these boxes, on these disks: made or opened.
pub fn begun_registered<B: HostObject>(
    alloc: Global,
    disks: Disks,
    start: Start,
    boxes: Boxes<B>,
) -> Result<Host<MemoryDisk, B>, Fail> {
    let (a, b) = unboxed(disks);
    let registry = registrations(alloc)?;
    match start {
        Start::Make => Ok(created(alloc, a, b, registry, boxes)?),
        Start::Open => Ok(opened(alloc, a, b, registry, boxes)?),
    }
}

/// What a crash leaves of the disks of a host that nothing survives.
pub fn crashed_disks<B: HostObject>(
    alloc: Global,
    host: Host<MemoryDisk, B>,
) -> Result<Disks, AllocError> {
    let disks = boxed_disks(alloc, closed(host))?;
    both_crashed(alloc, &disks, usize::MAX, Survives::Nothing)
}

/// How a run ends.
fn ending_within<D: Disk, B: HostObject, R: Read + Drop, W: Write>(
    alloc: Global,
    reader: R,
    writer: &mut W,
    host: &mut Host<D, B>,
    budget: u64,
) -> Result<(), RunFault> {
    run(alloc, reader, writer, host, budget)
}

/// The same of a host in a box, with 1,000 ticks for each request.
pub fn ending<R: Read + Drop, W: Write>(
    alloc: Global,
    reader: R,
    writer: &mut W,
    host: &mut BoxedHost,
) -> Result<(), RunFault> {
    ending_within(alloc, reader, writer, host, 1000)
}

/// What a host over any disks replies in a run that ends well, with so many ticks for each request.
pub fn replies_of<D: Disk, B: HostObject>(
    alloc: Global,
    host: &mut Host<D, B>,
    budget: u64,
    requests: &[u8],
) -> Result<String, Fail> {
    let mut replies = Vec::new(alloc);
    ending_within(alloc, requests, &mut replies, host, budget)?;
    Ok(String::from_utf8(replies)?)
}

/// The same of a host in a box.
pub fn replies_within(
    alloc: Global,
    host: &mut BoxedHost,
    budget: u64,
    requests: &[u8],
) -> Result<String, Fail> {
    replies_of(alloc, host, budget, requests)
}

/// The same with 1,000 ticks.
pub fn replies(alloc: Global, host: &mut BoxedHost, requests: &[u8]) -> Result<String, Fail> {
    replies_within(alloc, host, 1000, requests)
}

/// The same of a host that goes then.
pub fn replies_once(alloc: Global, mut host: BoxedHost, requests: &[u8]) -> Result<String, Fail> {
    replies(alloc, &mut host, requests)
}

/// The two disks of a host that is closed after requests.
pub fn disks_after(alloc: Global, mut host: BoxedHost, requests: &[u8]) -> Result<Disks, Fail> {
    replies(alloc, &mut host, requests)?;
    Ok(closed_disks(alloc, host)?)
}

/// A host, where it has replied this and did what it was asked for.
pub fn when_done(alloc: Global, host: BoxedHost, reply: HostReply) -> Result<BoxedHost, Fail> {
    need(alloc, reply)?;
    Ok(host)
}

/// A host that has loaded this source as the module `m`.
pub fn with_module(alloc: Global, mut host: BoxedHost, source: &[u8]) -> Result<BoxedHost, Fail> {
    let reply = load(&mut host, source);
    when_done(alloc, host, reply)
}

/// The state that is found after a crash, where nothing is registered, and this survives of what was not synced.
pub fn state_after_crash(
    alloc: Global,
    disks: &Disks,
    survives: Survives,
) -> Result<Result<State, StoreFault>, Fail> {
    let first = image_after(&disks.first, usize::MAX, survives)?;
    let second = image_after(&disks.second, usize::MAX, survives)?;
    found_state(alloc, &first, &second)
}

/// The disks with these bytes after the store on them was opened, where nothing is registered.
pub fn disks_after_opening(alloc: Global, first: &[u8], second: &[u8]) -> Result<Disks, Fail> {
    let host = found_host(alloc, first, second)??;
    Ok(closed_disks(alloc, host)?)
}

/// How a run with a new host ends, where nothing is registered.
pub fn ending_of_new<R: Read + Drop, W: Write>(
    alloc: Global,
    reader: R,
    writer: &mut W,
) -> Result<Result<(), RunFault>, Fail> {
    let mut host = unregistered_host(alloc)?;
    Ok(ending(alloc, reader, writer, &mut host))
}

/// Compares what a host replies to requests, which is the second of the pair, and gives the host.
pub fn check_exchange(
    rt: &impl Abort,
    alloc: Global,
    mut host: BoxedHost,
    exchange: (&[u8], &str),
    what: &str,
) -> Result<BoxedHost, Fail> {
    let (requests, wanted) = exchange;
    let found = replies(alloc, &mut host, requests)?;
    check_text(rt, &found, wanted, what);
    Ok(host)
}
