//! Lives of a store as data: what is asked of a host from the making or the opening of its store until it is closed,
//! and the files by hand that it then leaves. What is answered is written out, so that a test compares a text.

use crate::deltas::{ModuleDelta, add_delta, delta_of_modules};
use crate::files::{ImageModule, add_image, generation, image_in};
use crate::hosts::{
    EMPTY, SOURCE, State, add, call_in, closed, created, discard, discard_of, disk, fuse, get,
    global, inner, line_of, load, load_as, no_boxes, object, opened, reopened, seq, shown,
    snapshot, state,
};
use ash_disk::{Disk, MemoryDisk};
use ash_durable::{Host, StoreFault};
use ash_host::{HostObject, Tally};
use ash_registry::Registry;
use std::alloc::{AllocError, Global};
use std::fmt::Debug;
use std::test::Fail;

/// What is asked of a host.
#[derive(Clone, Copy)]
pub enum HostStep {
    /// The module `m` is loaded.
    Load,
    /// The function `f` of `m` is called with a number.
    Call(i128),
    /// The function `f` of this module is called with nothing.
    CallIn(&'static str),
    /// The module `m` is removed.
    Discard,
    /// The state is put into a new generation.
    Snapshot,
    /// A global of `m` is read.
    Global(&'static str),
    /// How many requests have been answered.
    Seq,
    /// That number, and what the global `n` of `m` holds.
    State,
    /// A module is loaded from a source.
    LoadAs(&'static str, &'static [u8]),
    /// A module is removed.
    DiscardOf(&'static str),
    /// A global of a module is read.
    Get(&'static str, &'static str),
    /// The object of a number is looked at.
    Object(u64),
}

/// A value, written out as a line.
fn line<T: Debug>(alloc: Global, value: &T) -> Result<String, Fail> {
    Ok(format!(in alloc; "{value:?}\n")?)
}

/// Takes a step, and writes out what is answered, as a line.
fn answer<D: Disk, B: HostObject>(
    alloc: Global,
    host: &mut Host<D, B>,
    step: HostStep,
) -> Result<String, Fail> {
    match step {
        HostStep::Load => line_of(alloc, load(host, SOURCE)),
        HostStep::Call(number) => line_of(alloc, add(host, number)),
        HostStep::CallIn(module) => line_of(alloc, call_in(host, module, &[])),
        HostStep::Discard => line_of(alloc, discard(host)),
        HostStep::Snapshot => line_of(alloc, snapshot(host)),
        HostStep::Global(name) => line_of(alloc, global(host, name)),
        HostStep::Seq => line(alloc, &seq(host)),
        HostStep::State => line(alloc, &state(host)),
        HostStep::LoadAs(module, source) => line_of(alloc, load_as(host, module, source)),
        HostStep::DiscardOf(module) => line_of(alloc, discard_of(host, module)),
        HostStep::Get(module, name) => line_of(alloc, get(host, module, name)),
        HostStep::Object(number) => line_of(alloc, object(host, number)),
    }
}

/// What is answered to each step, a line each.
pub fn answers<D: Disk, B: HostObject>(
    alloc: Global,
    host: &mut Host<D, B>,
    steps: &[HostStep],
) -> Result<String, Fail> {
    let mut all = String::new(alloc);
    for step in steps {
        let answer = answer(alloc, host, *step)?;
        all.push_str(answer.as_str())?;
    }
    Ok(all)
}

/// A file of a store by hand.
#[derive(Clone, Copy)]
pub enum File {
    /// These bytes.
    Bytes(&'static [u8]),
    /// That of a host that has no module, nothing registered, and has answered no request.
    Empty,
    /// The generation of a number: the state in its image, the states to which its records lead, each by what it
    /// changes, and what is left after them of what was longer.
    Written(u64, State, &'static [State], &'static [u8]),
    /// The generation of a number: the state in its image, those in its first records, which have whole states, and the
    /// states to which the records after them lead.
    Whole(u64, State, &'static [State], &'static [State]),
    /// The generation of a number in version 1, whose records have whole states: the state in its image, and those in
    /// its records.
    Older(u64, State, &'static [State]),
    /// The generation of a number with a state in its image, over the first one, which had an empty image and records
    /// of what leads to these states, and was longer.
    Over(u64, State, &'static [State]),
}

/// The image of a host in a state, in a version. Its module has the source that steps load.
pub fn image_of(alloc: Global, version: u8, state: State) -> Result<Vec<u8>, AllocError> {
    let (seq, global) = state;
    let module = ImageModule {
        name: "m",
        source: SOURCE,
        global,
    };
    match global {
        Some(_) => image_in(alloc, version, seq, &[module]),
        None => image_in(alloc, version, seq, &[]),
    }
}

/// The generation of a number, in a version, whose records have whole states.
fn whole(
    alloc: Global,
    version: u8,
    number: u64,
    first: State,
    records: &[State],
) -> Result<Vec<u8>, AllocError> {
    let image = image_of(alloc, version, first)?;
    let mut file = generation(alloc, number, image.as_slice())?;
    for state in records {
        let image = image_of(alloc, version, *state)?;
        add_image(&mut file, image.as_slice())?;
    }
    Ok(file)
}

/// What became of the modules between two states. What `n` holds after them is handed over, as a global.
fn change_between<'a>(before: State, after: State, global: &'a [(u16, i32)]) -> ModuleDelta<'a> {
    let module = ImageModule {
        name: "m",
        source: SOURCE,
        global: after.1,
    };
    match (before.1, after.1) {
        (None, None) => ModuleDelta::Unchanged,
        (None, Some(_)) => ModuleDelta::Added(module),
        (Some(_), None) => ModuleDelta::Removed("m"),
        (Some(old), Some(new)) if old == new => ModuleDelta::Unchanged,
        (Some(_), Some(_)) => ModuleDelta::Globals("m", global),
    }
}

/// Adds a record of what leads from one state to the next.
fn add_between(
    alloc: Global,
    file: &mut Vec<u8>,
    before: State,
    after: State,
) -> Result<(), AllocError> {
    let global: [(u16, i32); 1] = [(0, after.1.unwrap_or(0))];
    let modules = change_between(before, after, &global);
    add_delta(alloc, file, &delta_of_modules(after.0, modules))
}

/// Adds records that lead from a state to these, one after the other.
fn add_changes(
    alloc: Global,
    file: &mut Vec<u8>,
    first: State,
    records: &[State],
) -> Result<(), AllocError> {
    let mut before = first;
    for state in records {
        add_between(alloc, file, before, *state)?;
        before = *state;
    }
    Ok(())
}

/// The generation of a number, whose records lead from state to state.
fn written(
    alloc: Global,
    number: u64,
    first: State,
    records: &[State],
) -> Result<Vec<u8>, AllocError> {
    let image = image_of(alloc, 2, first)?;
    let mut file = generation(alloc, number, image.as_slice())?;
    add_changes(alloc, &mut file, first, records)?;
    Ok(file)
}

/// The bytes of a file.
pub fn bytes_of(alloc: Global, file: File) -> Result<Vec<u8>, AllocError> {
    match file {
        File::Bytes(bytes) => Vec::from_slice(alloc, bytes),
        File::Empty => Vec::from_slice(alloc, &EMPTY),
        File::Written(number, first, records, rest) => {
            let mut file = written(alloc, number, first, records)?;
            file.extend_from_slice(rest)?;
            Ok(file)
        }
        File::Whole(number, first, wholes, records) => {
            let mut file = whole(alloc, 2, number, first, wholes)?;
            let before = wholes.last().copied().unwrap_or(first);
            add_changes(alloc, &mut file, before, records)?;
            Ok(file)
        }
        File::Older(number, first, records) => whole(alloc, 1, number, first, records),
        File::Over(number, state, records) => {
            let old = written(alloc, 1, (0, None), records)?;
            let mut file = written(alloc, number, state, &[])?;
            let rest = old.as_slice().get(file.len()..).unwrap_or_default();
            file.extend_from_slice(rest)?;
            Ok(file)
        }
    }
}

/// The disks of two files.
pub fn disks_of(
    alloc: Global,
    first: File,
    second: File,
) -> Result<(MemoryDisk, MemoryDisk), Fail> {
    let first = bytes_of(alloc, first)?;
    let second = bytes_of(alloc, second)?;
    let first = disk(alloc, first.as_slice())?;
    Ok((first, disk(alloc, second.as_slice())?))
}

/// How a run begins.
#[derive(Clone, Copy, Debug, PartialEq)]
pub enum Start {
    /// A store is made.
    Make,
    /// The store is opened.
    Open,
}

/// What is asked of a host until it is closed: what that is called, how it begins, the steps with what is answered,
/// whether the host is opened again after them, the files that it leaves, and how many writes and syncs each disk has
/// had by then.
pub struct Run {
    pub what: &'static str,
    pub start: Start,
    pub steps: &'static [HostStep],
    pub answers: &'static str,
    pub is_reopened: bool,
    pub first: File,
    pub second: File,
    pub calls: (usize, usize),
}

/// The host with which a run begins.
fn begun(
    alloc: Global,
    disks: (MemoryDisk, MemoryDisk),
    start: Start,
) -> Result<Host<MemoryDisk, Tally>, StoreFault> {
    let (a, b) = disks;
    match start {
        Start::Make => created(alloc, a, b, Registry::new(alloc), no_boxes(alloc)),
        Start::Open => opened(alloc, a, b, Registry::new(alloc), no_boxes(alloc)),
    }
}

/// Handles a run: what is answered, and the disks.
pub fn lived(
    alloc: Global,
    disks: (MemoryDisk, MemoryDisk),
    run: &Run,
) -> Result<(String, (MemoryDisk, MemoryDisk)), Fail> {
    let mut host = begun(alloc, disks, run.start)?;
    let answers = answers(alloc, &mut host, run.steps)?;
    if run.is_reopened {
        host = reopened(host, no_boxes(alloc))?;
    }
    Ok((answers, closed(host)))
}

/// What a store that these disks hold answers to steps, or why it isn't opened.
pub fn found_answers(
    alloc: Global,
    a: MemoryDisk,
    b: MemoryDisk,
    steps: &[HostStep],
) -> Result<String, Fail> {
    match opened(alloc, a, b, Registry::new(alloc), no_boxes(alloc)) {
        Ok(mut host) => answers(alloc, &mut host, steps),
        Err(fault) => Ok(shown(alloc, &fault)?),
    }
}

/// What a new store answers to steps whose disks fail after so many calls, and the disks.
pub fn lived_on_fuses(
    alloc: Global,
    calls: (u64, u64),
    steps: &[HostStep],
) -> Result<(String, (MemoryDisk, MemoryDisk)), Fail> {
    let (a, b) = (fuse(alloc, calls.0), fuse(alloc, calls.1));
    let mut host = created(alloc, a, b, Registry::new(alloc), no_boxes(alloc))?;
    let answers = answers(alloc, &mut host, steps)?;
    let (a, b) = closed(host);
    Ok((answers, (inner(a), inner(b))))
}
