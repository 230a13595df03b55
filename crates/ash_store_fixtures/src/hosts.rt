//! Hosts over disks in memory, and their calls. Each call of a host is in a function of its own, which promises
//! nothing: so its contract is seen once, and not in every test. What a host replies is compared as the line that is
//! written of it. A host without boxes of host objects is one whose boxes would be tallies.

use ash_disk::{Disk, FuseDisk, MemoryDisk, Survives};
use ash_durable::{Host, StoreFault};
use ash_host::{HostObject, Tally, Word};
use ash_lines::reply::{LineReply, write_line_reply};
use ash_lines::sink::{Sink, WriteFault};
use ash_lines::writer::Writer;
use ash_registry::Registry;
use ash_requests::{Arg, Reply, Request};
use ash_states::state::HostReply;
use std::alloc::{AllocError, Global};
use std::fmt::Debug;
use std::test::Fail;

/// A script with a global `n`, and a function that adds to it.
pub const SOURCE: &[u8] = b"int n = 2; int f(int k) { n += k; return n; }";

/// The file of a host that has no module, nothing registered, and has answered no request.
pub static EMPTY: [u8; 51] = [
    0x01, 0x41, 0x53, 0x48, 0x4f, 0x53, 0x54, 0x30, 0x31, 0x01, 0x00, 0x00, 0x00, 0x00, 0x00, 0x00,
    0x00, 0x1d, 0x00, 0x00, 0x00, 0x02, 0x00, 0x00, 0x00, 0x00, 0x00, 0x00, 0x00, 0x00, 0x00, 0x00,
    0x00, 0x00, 0x00, 0x00, 0x00, 0x00, 0x00, 0x00, 0x00, 0x00, 0x00, 0x00, 0x00, 0x00, 0x00, 0x00,
    0x00, 0x00, 0x00,
];

/// How many ticks a request has.
const BUDGET: u64 = 1000;

/// The most bytes of a line that are buffered, chosen to be as many as `ash_serve` buffers, which is above this crate.
const MAX_BUFFERED_BYTES: usize = 8192;

/// A value, written out.
pub fn shown<T: Debug>(alloc: Global, value: &T) -> Result<String, AllocError> {
    format!(in alloc; "{value:?}")
}

/// Writes what a host replies as a line.
fn write_reply(
    alloc: Global,
    bytes: &mut Vec<u8>,
    reply: HostReply,
) -> Result<Result<(), WriteFault>, AllocError> {
    let buffer = Vec::with_capacity(alloc, MAX_BUFFERED_BYTES)?;
    let mut writer = Writer::new(bytes, buffer);
    match write_line_reply(&mut writer, &LineReply::Host(reply)) {
        Ok(()) => Ok(writer.flush()),
        Err(fault) => Ok(Err(fault)),
    }
}

/// What a host replies, as the line that is written of it, with its line feed.
pub fn line_of(alloc: Global, reply: HostReply) -> Result<String, Fail> {
    let mut bytes = Vec::new(alloc);
    write_reply(alloc, &mut bytes, reply)??;
    Ok(String::from_utf8(bytes)?)
}

/// A disk in memory with these bytes.
pub fn disk(alloc: Global, bytes: &[u8]) -> Result<MemoryDisk, AllocError> {
    MemoryDisk::with_bytes(alloc, bytes)
}

/// An empty disk that fails after so many calls.
pub fn fuse(alloc: Global, calls: u64) -> FuseDisk<MemoryDisk> {
    FuseDisk::new(MemoryDisk::new(alloc), calls)
}

/// The disk in a failing one.
pub fn inner(disk: FuseDisk<MemoryDisk>) -> MemoryDisk {
    disk.into_inner()
}

/// What a crash after so many calls leaves of a disk, or after all calls where there are fewer.
pub fn image_after(
    disk: &MemoryDisk,
    calls: usize,
    survives: Survives,
) -> Result<Vec<u8>, AllocError> {
    disk.crash_image(calls.min(disk.calls()), survives)
}

/// What a crash leaves of a disk, where this survives of what was not synced.
pub fn crashed(
    alloc: Global,
    disk: &MemoryDisk,
    survives: Survives,
) -> Result<MemoryDisk, AllocError> {
    let image = disk.crash_image(disk.calls(), survives)?;
    MemoryDisk::with_bytes(alloc, &image)
}

/// The boxes that a host is handed: those that are free, and its services.
#[derive(Drop)]
pub struct Boxes<B> {
    pub pool: Vec<B>,
    pub services: Vec<B>,
}

/// No boxes.
pub fn no_boxes(alloc: Global) -> Boxes<Tally> {
    Boxes {
        pool: Vec::new(alloc),
        services: Vec::new(alloc),
    }
}

/// A host with a new store on these disks, or why there is none.
pub fn created<D: Disk + Drop, B: HostObject>(
    alloc: Global,
    a: D,
    b: D,
    registry: Registry,
    boxes: Boxes<B>,
) -> Result<Host<D, B>, StoreFault> {
    let Boxes { pool, services } = boxes;
    Host::create(alloc, a, b, registry, pool, services).map_err(|refused| refused.fault)
}

/// A host with the store on these disks, or why there is none.
pub fn opened<D: Disk + Drop, B: HostObject>(
    alloc: Global,
    a: D,
    b: D,
    registry: Registry,
    boxes: Boxes<B>,
) -> Result<Host<D, B>, StoreFault> {
    let Boxes { pool, services } = boxes;
    Host::open(alloc, a, b, registry, pool, services).map_err(|refused| refused.fault)
}

/// A host that was closed and opened again with the same registry, or why it can't be.
pub fn reopened<D: Disk + Drop, B: HostObject>(
    host: Host<D, B>,
    boxes: Boxes<B>,
) -> Result<Host<D, B>, StoreFault> {
    let Boxes { pool, services } = boxes;
    host.reopen(pool, services).map_err(|refused| refused.fault)
}

/// The two disks of a host that is closed.
pub fn closed<D: Disk, B: HostObject>(host: Host<D, B>) -> (D, D) {
    host.close()
}

/// What a host replies to a request.
pub fn reply_to<D: Disk, B: HostObject>(host: &mut Host<D, B>, request: &Request) -> HostReply {
    host.handle(request, BUDGET)
}

/// The same as a line.
pub fn line_for<D: Disk, B: HostObject>(
    alloc: Global,
    host: &mut Host<D, B>,
    request: &Request,
) -> Result<String, Fail> {
    line_of(alloc, reply_to(host, request))
}

/// What a host replies to requests that are handled together, a line each.
pub fn lines_for<D: Disk, B: HostObject>(
    alloc: Global,
    host: &mut Host<D, B>,
    requests: &[Request],
) -> Result<String, Fail> {
    let mut lines = String::new(alloc);
    for reply in host.handle_all(alloc, requests, BUDGET)? {
        lines.push_str(&line_of(alloc, reply)?)?;
    }
    Ok(lines)
}

/// Loads a source as a module of this name.
pub fn load_as<D: Disk, B: HostObject>(
    host: &mut Host<D, B>,
    module: &str,
    source: &[u8],
) -> HostReply {
    host.load(module, source, BUDGET)
}

/// Loads a source as the module `m`.
pub fn load<D: Disk, B: HostObject>(host: &mut Host<D, B>, source: &[u8]) -> HostReply {
    load_as(host, "m", source)
}

/// Calls the function `f` of a module.
pub fn call_in<D: Disk, B: HostObject>(
    host: &mut Host<D, B>,
    module: &str,
    arguments: &[Arg],
) -> HostReply {
    host.call(module, "f", arguments, BUDGET)
}

/// Calls the function `f` of the module `m`.
pub fn call<D: Disk, B: HostObject>(host: &mut Host<D, B>, arguments: &[Arg]) -> HostReply {
    call_in(host, "m", arguments)
}

/// Calls it with a number.
pub fn add<D: Disk, B: HostObject>(host: &mut Host<D, B>, number: i128) -> HostReply {
    call(host, &[Arg::Number(number)])
}

/// Removes a module.
pub fn discard_of<D: Disk, B: HostObject>(host: &mut Host<D, B>, module: &str) -> HostReply {
    host.discard(module)
}

/// Removes the module `m`.
pub fn discard<D: Disk, B: HostObject>(host: &mut Host<D, B>) -> HostReply {
    discard_of(host, "m")
}

/// Writes the whole state into a new generation.
pub fn snapshot<D: Disk, B: HostObject>(host: &mut Host<D, B>) -> HostReply {
    match host.snapshot() {
        Ok(()) => Reply::Done,
        Err(refusal) => Reply::Refused(refusal),
    }
}

/// What a global of a module holds.
pub fn get<D: Disk, B: HostObject>(host: &mut Host<D, B>, module: &str, name: &str) -> HostReply {
    host.global(module, name)
}

/// What a global of the module `m` holds.
pub fn global<D: Disk, B: HostObject>(host: &mut Host<D, B>, name: &str) -> HostReply {
    get(host, "m", name)
}

/// The object of a number.
pub fn object<D: Disk, B: HostObject>(host: &mut Host<D, B>, number: u64) -> HostReply {
    host.object(number)
}

/// How many requests have been answered.
pub fn seq<D: Disk, B: HostObject>(host: &Host<D, B>) -> u64 {
    host.seq()
}

/// Whether a host does what it was asked for.
pub fn is_done(reply: &HostReply) -> bool {
    !matches!(reply, Reply::Refused(_))
}

/// Ends a test whose request is refused, with the line of the reply.
pub fn need(alloc: Global, reply: HostReply) -> Result<(), Fail> {
    if is_done(&reply) {
        return Ok(());
    }
    Err(Fail::new(line_of(alloc, reply)?))
}

/// What is looked at of a host's state: its number, and the global `n` of the module `m`, if there is one.
pub type State = (u64, Option<i32>);

/// The state of a host, as far as it is looked at.
pub fn state<D: Disk, B: HostObject>(host: &mut Host<D, B>) -> State {
    match global(host, "n") {
        Reply::Value(Word::Int(number)) => (seq(host), Some(number)),
        _ => (seq(host), None),
    }
}

/// A host with a new store on such disks and nothing registered.
pub fn new_host(alloc: Global, a: &[u8], b: &[u8]) -> Result<Host<MemoryDisk, Tally>, Fail> {
    let (a, b) = (disk(alloc, a)?, disk(alloc, b)?);
    Ok(created(alloc, a, b, Registry::new(alloc), no_boxes(alloc))?)
}

/// What opening a store on such disks gives, where nothing is registered: its number, or why there is no host.
pub fn found(alloc: Global, a: &[u8], b: &[u8]) -> Result<Result<u64, StoreFault>, Fail> {
    let (a, b) = (disk(alloc, a)?, disk(alloc, b)?);
    Ok(opened(alloc, a, b, Registry::new(alloc), no_boxes(alloc)).map(|host| seq(&host)))
}

/// The same for the host's state.
pub fn found_state(alloc: Global, a: &[u8], b: &[u8]) -> Result<Result<State, StoreFault>, Fail> {
    let (a, b) = (disk(alloc, a)?, disk(alloc, b)?);
    match opened(alloc, a, b, Registry::new(alloc), no_boxes(alloc)) {
        Ok(mut host) => Ok(Ok(state(&mut host))),
        Err(fault) => Ok(Err(fault)),
    }
}

/// A host that has answered two requests, after which `n` is 7.
pub fn used(alloc: Global) -> Result<Host<MemoryDisk, Tally>, Fail> {
    let mut host = new_host(alloc, &[], &[])?;
    need(alloc, load(&mut host, SOURCE))?;
    need(alloc, add(&mut host, 5))?;
    Ok(host)
}

/// A host with a module without source for each of these names, loaded in this order.
pub fn with_modules(alloc: Global, names: &[&str]) -> Result<Host<MemoryDisk, Tally>, Fail> {
    let mut host = new_host(alloc, &[], &[])?;
    for name in names {
        need(alloc, load_as(&mut host, name, b""))?;
    }
    Ok(host)
}

/// The disk of the second generation, which holds the state of a host with a new store, and no record.
pub fn second_generation(
    alloc: Global,
    mut host: Host<MemoryDisk, Tally>,
) -> Result<MemoryDisk, Fail> {
    need(alloc, snapshot(&mut host))?;
    let (_, second) = closed(host);
    Ok(second)
}
