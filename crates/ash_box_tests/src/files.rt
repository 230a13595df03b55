//! The files of stores with services, written by hand after their layout.

use ash_disk::MemoryDisk;
use ash_store_fixtures::deltas::{ModuleDelta, StoreDelta, add_delta, delta_of_modules};
use ash_store_fixtures::files::{ImageModule, StoreImage, add_image, generation, image_bytes};
use ash_store_fixtures::hosts::{EMPTY, disk};
use std::alloc::{AllocError, Global};

/// The text of a service of the kind 2 and one of the kind 3.
const TWO: &str = "service 2\nservice 3\n";

/// The text of what the program registers.
const PROGRAM: &str = "type Counter 1\nfactory Counter (int)\nmethod Counter 1 int add(int)\n\
    method Counter 2 void fail(int)\nproperty Counter 1 int value\nservice 2\n\
    function 0 1 int tally(int)\nfunction 0 2 int total()\n";

/// The states of the service of the kind 2 and of the one of the kind 3.
pub type States = (i32, i32);

/// A file of a store.
#[derive(Clone, Copy)]
pub enum File {
    /// These bytes.
    Bytes(&'static [u8]),
    /// That of a host that has no module, nothing registered, and has answered no request.
    Empty,
    /// The generation of a number with the two services, in an image before any request with these states.
    Made(u64, States),
    /// The same, and a record of a load of the module `m` with no source, after which the services have these states;
    /// and the next gate. The services are in the record whose state is another than before.
    Loaded(u64, States, States, u8),
    /// The same in version 1, with the whole state in the record.
    Older(u64, States, States, u8),
    /// A generation in whose image the module `m` with no source is, with these states.
    Installed(u64, States),
    /// A generation with the two services in the other order.
    Swapped,
    /// A generation with both in the text, and the first of them in the image.
    First,
    /// A generation of the program, with these services.
    Program(&'static [(u16, i32)]),
    /// A generation of the program, in which a counter lives; and the next gate.
    Living(u8),
}

const MODULE: ImageModule<'static> = ImageModule {
    name: "m",
    source: b"",
    global: None,
};

/// The image with the two services, and so many modules `m`, after as many requests.
fn served(
    alloc: Global,
    version: u8,
    modules: &[ImageModule],
    states: States,
) -> Result<Vec<u8>, AllocError> {
    let image = StoreImage {
        version,
        text: TWO,
        seq: modules.len() as u64,
        services: &[(2, states.0), (3, states.1)],
        modules,
    };
    image_bytes(alloc, &image)
}

/// A file with this byte in the place of its last gate.
fn with_gate(mut file: Vec<u8>, gate: u8) -> Vec<u8> {
    if let Some(last) = file.as_mut_slice().last_mut() {
        *last = gate;
    }
    file
}

/// The services whose state is another than before: each its index and its state.
fn changed_services(
    alloc: Global,
    before: States,
    after: States,
) -> Result<Vec<(u16, i32)>, AllocError> {
    let mut services = Vec::new(alloc);
    if before.0 != after.0 {
        services.push((0, after.0))?;
    }
    if before.1 != after.1 {
        services.push((1, after.1))?;
    }
    Ok(services)
}

/// A generation with an image before any request, and a record of a load after it.
fn loaded(
    alloc: Global,
    number: u64,
    states: (States, States),
    gate: u8,
) -> Result<Vec<u8>, AllocError> {
    let image = served(alloc, 2, &[], states.0)?;
    let mut file = generation(alloc, number, &image)?;
    let services = changed_services(alloc, states.0, states.1)?;
    let load = delta_of_modules(1, ModuleDelta::Added(MODULE));
    let delta = StoreDelta {
        services: &services,
        ..load
    };
    add_delta(alloc, &mut file, &delta)?;
    Ok(with_gate(file, gate))
}

/// The same in version 1, with the whole state in the record.
fn older(
    alloc: Global,
    number: u64,
    states: (States, States),
    gate: u8,
) -> Result<Vec<u8>, AllocError> {
    let image = served(alloc, 1, &[], states.0)?;
    let mut file = generation(alloc, number, &image)?;
    add_image(&mut file, &served(alloc, 1, &[MODULE], states.1)?)?;
    Ok(with_gate(file, gate))
}

/// The first generation with a text and services, before any request.
fn first_with(alloc: Global, text: &str, services: &[(u16, i32)]) -> Result<Vec<u8>, AllocError> {
    let image = StoreImage {
        version: 2,
        text,
        seq: 0,
        services,
        modules: &[],
    };
    generation(alloc, 1, &image_bytes(alloc, &image)?)
}

/// What follows the text in the image of a program's host in which the load of `Counter@ g = Counter(7);` was answered:
/// one answer, one number that was given, a tally of 0, the module `m` with its source, whose global has the object 1,
/// and this object, a host object of the kind 1 with the state 7.
const LIVING: &[u8] = b"\
    \x01\x00\x00\x00\x00\x00\x00\x00\
    \x01\x00\x00\x00\x00\x00\x00\x00\
    \x01\x00\
    \x02\x00\x04\x00\x00\x00\x00\x00\
    \x01\
    \x01m\
    \x18\x00\x00\x00Counter@ g = Counter(7);\
    \x01\x00\
    \x06\x01\x00\x00\x00\x00\x00\x00\x00\
    \x01\x00\x00\x00\
    \x01\x00\x00\x00\x00\x00\x00\x00\
    \x02\x01\x00\
    \x04\x00\x07\x00\x00\x00";

/// A generation of the program in which a counter lives.
fn living(alloc: Global, gate: u8) -> Result<Vec<u8>, AllocError> {
    let mut image = Vec::from_slice(alloc, b"\x02\x00\xbf\x00\x00\x00")?;
    image.extend_from_slice(PROGRAM.as_bytes())?;
    image.extend_from_slice(LIVING)?;
    Ok(with_gate(generation(alloc, 1, &image)?, gate))
}

/// The bytes of a file.
pub fn bytes_of(alloc: Global, file: File) -> Result<Vec<u8>, AllocError> {
    match file {
        File::Bytes(bytes) => Vec::from_slice(alloc, bytes),
        File::Empty => Vec::from_slice(alloc, &EMPTY),
        File::Made(number, states) => generation(alloc, number, &served(alloc, 2, &[], states)?),
        File::Loaded(number, first, then, gate) => loaded(alloc, number, (first, then), gate),
        File::Older(number, first, then, gate) => older(alloc, number, (first, then), gate),
        File::Installed(number, states) => {
            generation(alloc, number, &served(alloc, 2, &[MODULE], states)?)
        }
        File::Swapped => first_with(alloc, TWO, &[(3, -2), (2, 5)]),
        File::First => first_with(alloc, TWO, &[(2, 5)]),
        File::Program(services) => first_with(alloc, PROGRAM, services),
        File::Living(gate) => living(alloc, gate),
    }
}

/// Disks with these files.
pub fn disks_of(
    alloc: Global,
    files: (File, File),
) -> Result<(MemoryDisk, MemoryDisk), AllocError> {
    let first = bytes_of(alloc, files.0)?;
    let second = bytes_of(alloc, files.1)?;
    Ok((disk(alloc, &first)?, disk(alloc, &second)?))
}
