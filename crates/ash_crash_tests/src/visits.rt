//! A store that is made or opened with new boxes, and is asked lines.

use ash_disk::Disk;
use ash_durable::{CreateFault, Host, OpenFault, OpenRefused, StoreFault};
use ash_host::{Counter, HostObject, NoMemory, Tally};
use ash_lines::reply::{LineReply, write_line_reply};
use ash_lines::sink::{Sink, WriteFault};
use ash_lines::writer::Writer;
use ash_machine_fixtures::lines::{arguments_of, request_of};
use ash_machine_fixtures::registered::registry;
use ash_registry::Registry;
use ash_states::state::HostReply;
use ash_store_fixtures::hosts::{Boxes, closed, reply_to, shown};
use ash_store_fixtures::lives::Start;
use std::alloc::{AllocError, Global};

/// How many counters are free.
const COUNTERS: usize = 9;

/// What came of a visit: the fault, if there is no host; how many lines were answered before the first that was not
/// done for want of a disk or of memory; what was answered to each line; and the disks.
#[derive(Drop)]
pub struct Visited<D: Drop> {
    pub fault: Option<StoreFault>,
    pub done: usize,
    pub answers: String,
    pub disks: (D, D),
}

impl<D: Drop> Visited<D> {
    /// Whether only a disk kept the store from being made or opened, or nothing did.
    pub fn is_device(&self) -> bool {
        matches!(
            self.fault,
            None | Some(StoreFault::Create(CreateFault::DeviceFailed))
                | Some(StoreFault::Open(OpenFault::DeviceFailed))
        )
    }
}

/// A host, or what was refused.
pub fn begun<D: Disk, B: HostObject>(
    alloc: Global,
    disks: (D, D),
    registry: Registry,
    boxes: Boxes<B>,
    start: Start,
) -> Result<Host<D, B>, OpenRefused<D>> {
    let (a, b) = disks;
    let Boxes { pool, services } = boxes;
    match start {
        Start::Make => Host::create(alloc, a, b, registry, pool, services),
        Start::Open => Host::open(alloc, a, b, registry, pool, services),
    }
}

/// The most bytes of a line that are buffered.
const MAX_BUFFERED_BYTES: usize = 8192;

/// Writes a reply as a line.
fn write_reply(
    alloc: Global,
    bytes: &mut Vec<u8>,
    reply: HostReply,
) -> Result<Result<(), WriteFault>, AllocError> {
    let buffer = Vec::with_capacity(alloc, MAX_BUFFERED_BYTES)?;
    let mut writer = Writer::new(bytes, buffer);
    match write_line_reply(&mut writer, &LineReply::Host(reply)) {
        Ok(()) => Ok(writer.flush()),
        Err(fault) => Ok(Err(fault)),
    }
}

/// What a host replies, as the line that is written of it. A line that can't be written is as one for which there is no
/// memory.
fn line_of(alloc: Global, reply: HostReply) -> Result<String, NoMemory> {
    let mut bytes = Vec::new(alloc);
    let written = write_reply(alloc, &mut bytes, reply)?;
    if written.is_err() {
        return Err(NoMemory);
    }
    String::from_utf8(bytes).map_err(|_fault| NoMemory)
}

/// The registry of a store.
pub fn registered(alloc: Global) -> Result<Registry, NoMemory> {
    match registry(alloc) {
        Ok(registry) => Ok(registry),
        Err(_) => Err(NoMemory),
    }
}

/// What a host answers to a line.
pub fn answer_to<D: Disk, B: HostObject>(
    alloc: Global,
    host: &mut Host<D, B>,
    line: &str,
) -> Result<String, NoMemory> {
    let arguments = arguments_of(alloc, line)?;
    let reply = reply_to(host, &request_of(line, &arguments));
    line_of(alloc, reply)
}

/// Whether an answer says that a request was not done for want of a disk or of memory.
fn is_failure(answer: &str) -> bool {
    answer.starts_with("refused 50")
}

/// Asks a host lines.
fn asked<D: Disk + Drop, B: HostObject>(
    alloc: Global,
    mut host: Host<D, B>,
    lines: &[&str],
) -> Result<Visited<D>, NoMemory> {
    let mut answers = String::new(alloc);
    let mut done: usize = 0;
    let mut is_failed = false;
    for line in lines {
        let answer = answer_to(alloc, &mut host, line)?;
        is_failed = is_failed || is_failure(&answer);
        if !is_failed {
            done = done.saturating_add(1);
        }
        answers.push_str(&answer)?;
    }
    Ok(Visited {
        fault: None,
        done,
        answers,
        disks: closed(host),
    })
}

/// Visits a store with these boxes.
fn visit_with<D: Disk + Drop, B: HostObject>(
    alloc: Global,
    disks: (D, D),
    start: Start,
    boxes: Boxes<B>,
    lines: &[&str],
) -> Result<Visited<D>, NoMemory> {
    match begun(alloc, disks, registered(alloc)?, boxes, start) {
        Ok(host) => asked(alloc, host, lines),
        Err(OpenRefused { fault, a, b }) => Ok(Visited {
            done: 0,
            answers: shown(alloc, &fault)?,
            fault: Some(fault),
            disks: (a, b),
        }),
    }
}

/// New boxes: counters that are free, and a tally as the service.
pub fn new_boxes(alloc: Global) -> Result<Boxes<Box<dyn HostObject>>, NoMemory> {
    let mut pool: Vec<Box<dyn HostObject>> = Vec::new(alloc);
    for _ in 0..COUNTERS {
        pool.push(Box::new(alloc, Counter::new())?)?;
    }
    let mut services: Vec<Box<dyn HostObject>> = Vec::new(alloc);
    services.push(Box::new(alloc, Tally::new())?)?;
    Ok(Boxes { pool, services })
}

/// Visits a store with new boxes.
pub fn visit<D: Disk + Drop>(
    alloc: Global,
    disks: (D, D),
    start: Start,
    lines: &[&str],
) -> Result<Visited<D>, NoMemory> {
    visit_with(alloc, disks, start, new_boxes(alloc)?, lines)
}
