//! Images at their limits, and one step past these.

use crate::stored::compare::{ReadAs, check_read_as, image_read_as};
use crate::stored::images::{ONE, TWO};
use std::alloc::{AllocError, Global};
use std::process::Abort;
use std::test::Fail;

/// An image that is made up: what it is called, the length of its text, how many spaces there are, how many modules of
/// one letter each, from `A` on, and what it is read as.
type MadeUp = (&'static str, u32, usize, u8, ReadAs);

const MADE_UP: [MadeUp; 7] = [
    (
        "a text at its limit",
        1_048_576,
        1_048_576,
        0,
        ReadAs::Image,
    ),
    (
        "a text beyond its limit",
        1_048_577,
        1_048_577,
        0,
        ReadAs::Nothing,
    ),
    // A length that is one byte more, and one less, than there is.
    ("a length of 4 and 3 spaces", 4, 3, 0, ReadAs::Nothing),
    ("a length of 3 and 4 spaces", 3, 4, 0, ReadAs::Nothing),
    ("a length of 3 and 3 spaces", 3, 3, 0, ReadAs::Image),
    // As many modules as a host has, and one more.
    ("16 modules", 0, 0, 16, ReadAs::Image),
    ("17 modules", 0, 0, 17, ReadAs::Nothing),
];

/// Adds so many modules of one letter each, from `A` on, with no source and no globals.
fn add_modules(image: &mut Vec<u8>, count: u8) -> Result<(), AllocError> {
    image.push(count)?;
    for place in 0..count {
        image.extend_from_slice(&[1, b'A'.wrapping_add(place), 0, 0, 0, 0, 0, 0])?;
    }
    Ok(())
}

/// Adds a byte so many times.
fn add_times(image: &mut Vec<u8>, byte: u8, count: usize) -> Result<(), AllocError> {
    image.resize(image.len().saturating_add(count), byte)
}

/// The image of a state before any request, whose text is so many spaces, with a length of its own, and so many modules
/// with no source and no globals.
fn made_up(alloc: Global, version: &[u8], row: &MadeUp) -> Result<Vec<u8>, AllocError> {
    let (_, length, spaces, count, _) = *row;
    let mut image = Vec::from_slice(alloc, version)?;
    image.extend_from_slice(&length.to_le_bytes())?;
    add_times(&mut image, b' ', spaces)?;
    add_times(&mut image, 0, 18)?;
    add_modules(&mut image, count)?;
    add_times(&mut image, 0, 4)?;
    Ok(image)
}

/// Compares what bytes are read as.
fn check_image(
    rt: &impl Abort,
    alloc: Global,
    image: &[u8],
    wanted: ReadAs,
    what: &str,
) -> Result<(), Fail> {
    check_read_as(rt, image_read_as(alloc, image)?, wanted, what);
    Ok(())
}

fn check_made_up(rt: &impl Abort, alloc: Global, row: &MadeUp) -> Result<(), Fail> {
    for version in [ONE, TWO] {
        let image = made_up(alloc, version, row)?;
        check_image(rt, alloc, &image, row.4, row.0)?;
    }
    Ok(())
}

#[test]
fn texts_and_modules_at_their_limits(rt: HostRuntime) -> Result<(), Fail> {
    for row in &MADE_UP {
        check_made_up(&rt, rt.alloc(), row)?;
    }
    Ok(())
}

/// Adds a module `m` with a source of so many spaces, and so many globals that are null.
fn add_module(image: &mut Vec<u8>, spaces: u32, globals: u16) -> Result<(), AllocError> {
    image.extend_from_slice(b"\x01m")?;
    image.extend_from_slice(&spaces.to_le_bytes())?;
    add_times(image, b' ', spaces as usize)?;
    image.extend_from_slice(&globals.to_le_bytes())?;
    add_times(image, 5, usize::from(globals))
}

/// The image of a state before any request that has such a module.
fn one_module(alloc: Global, spaces: u32, globals: u16) -> Result<Vec<u8>, AllocError> {
    let mut image = Vec::from_slice(alloc, TWO)?;
    add_times(&mut image, 0, 22)?;
    image.push(1)?;
    add_module(&mut image, spaces, globals)?;
    add_times(&mut image, 0, 4)?;
    Ok(image)
}

/// A module: what it is called, the length of its source, how many globals it has, and what its image is read as.
type Sized = (&'static str, u32, u16, ReadAs);

const SIZED: [Sized; 4] = [
    ("a source at its limit", 65_536, 0, ReadAs::Image),
    ("a source beyond its limit", 65_537, 0, ReadAs::Nothing),
    ("256 globals", 0, 256, ReadAs::Image),
    ("257 globals", 0, 257, ReadAs::Nothing),
];

fn check_sized(rt: &impl Abort, alloc: Global, row: Sized) -> Result<(), Fail> {
    let (what, spaces, globals, wanted) = row;
    let image = one_module(alloc, spaces, globals)?;
    check_image(rt, alloc, &image, wanted, what)
}

#[test]
fn sources_and_globals_at_their_limits(rt: HostRuntime) -> Result<(), Fail> {
    for row in &SIZED {
        check_sized(&rt, rt.alloc(), *row)?;
    }
    Ok(())
}

/// Adds what comes before the objects: no text, no request, this last number of an object, no services, a module `m` with
/// no source, whose global has the object 1, and how many objects there are.
fn add_beginning(image: &mut Vec<u8>, last: u16, objects: u16) -> Result<(), AllocError> {
    add_times(image, 0, 12)?;
    image.extend_from_slice(&u64::from(last).to_le_bytes())?;
    add_times(image, 0, 2)?;
    image.extend_from_slice(b"\x01\x01m\x00\x00\x00\x00")?;
    image.extend_from_slice(b"\x01\x00\x06\x01\x00\x00\x00\x00\x00\x00\x00")?;
    image.extend_from_slice(&u32::from(objects).to_le_bytes())
}

/// What such an image has before its objects.
fn before_objects(alloc: Global, last: u16, objects: u16) -> Result<Vec<u8>, AllocError> {
    let mut image = Vec::from_slice(alloc, TWO)?;
    add_beginning(&mut image, last, objects)?;
    Ok(image)
}

/// The image of such a module, where the object 1 is this.
fn one_object(alloc: Global, object: &[u8]) -> Result<Vec<u8>, AllocError> {
    let mut image = before_objects(alloc, 1, 1)?;
    image.extend_from_slice(&1_u64.to_le_bytes())?;
    image.extend_from_slice(object)?;
    Ok(image)
}

/// An object: what it is called, its bytes up to how many parts it has, that number, each part, and what its image is
/// read as.
type Filled = (&'static str, &'static [u8], usize, &'static [u8], ReadAs);

const FILLED: [Filled; 6] = [
    // Fields that are null, elements of `int`, and the state of a host object.
    ("32 fields", &[1, 0, 0, 0, 32], 32, &[5], ReadAs::Image),
    ("33 fields", &[1, 0, 0, 0, 33], 33, &[5], ReadAs::Nothing),
    (
        "4,096 elements",
        &[3, 1, 0x00, 0x10],
        4096,
        &[1, 0, 0, 0, 0],
        ReadAs::Image,
    ),
    (
        "4,097 elements",
        &[3, 1, 0x01, 0x10],
        4097,
        &[1, 0, 0, 0, 0],
        ReadAs::Nothing,
    ),
    (
        "a state of 1,024 bytes",
        &[2, 1, 0, 0x00, 0x04],
        1024,
        &[0],
        ReadAs::Image,
    ),
    (
        "a state of 1,025 bytes",
        &[2, 1, 0, 0x01, 0x04],
        1025,
        &[0],
        ReadAs::Nothing,
    ),
];

fn check_filled(rt: &impl Abort, alloc: Global, row: Filled) -> Result<(), Fail> {
    let (what, first, count, part, wanted) = row;
    let mut object = Vec::from_slice(alloc, first)?;
    for _ in 0..count {
        object.extend_from_slice(part)?;
    }
    let image = one_object(alloc, &object)?;
    check_image(rt, alloc, &image, wanted, what)
}

#[test]
fn objects_as_long_as_they_may_be(rt: HostRuntime) -> Result<(), Fail> {
    for row in &FILLED {
        check_filled(&rt, rt.alloc(), *row)?;
    }
    Ok(())
}

/// Adds handles to the objects up to this number, from 2 on.
fn add_handles(image: &mut Vec<u8>, last: u16) -> Result<(), AllocError> {
    for number in 2..=last {
        image.push(6)?;
        image.extend_from_slice(&u64::from(number).to_le_bytes())?;
    }
    Ok(())
}

/// Adds these objects, which have no fields.
fn add_objects(image: &mut Vec<u8>, last: u16) -> Result<(), AllocError> {
    for number in 2..=last {
        image.extend_from_slice(&u64::from(number).to_le_bytes())?;
        image.extend_from_slice(&[1, 0, 0, 0, 0])?;
    }
    Ok(())
}

/// Adds the object 1, an array with handles to all others.
fn add_array(image: &mut Vec<u8>, last: u16) -> Result<(), AllocError> {
    image.extend_from_slice(&1_u64.to_le_bytes())?;
    image.extend_from_slice(&[3, 5, 0, 0, 0])?;
    image.extend_from_slice(&last.saturating_sub(1).to_le_bytes())?;
    add_handles(image, last)
}

/// The image of so many objects, of which the first is an array with handles to all others.
fn objects_in_an_array(alloc: Global, last: u16) -> Result<Vec<u8>, AllocError> {
    let mut image = before_objects(alloc, last, last)?;
    add_array(&mut image, last)?;
    add_objects(&mut image, last)?;
    Ok(image)
}

/// Adds so many services that have no state.
fn add_services(image: &mut Vec<u8>, count: u8) -> Result<(), AllocError> {
    image.extend_from_slice(&[count, 0])?;
    for kind in 0..count {
        image.extend_from_slice(&[kind, 0, 0, 0])?;
    }
    Ok(())
}

/// The image of a state before any request with so many services that have no state.
fn services(alloc: Global, count: u8) -> Result<Vec<u8>, AllocError> {
    let mut image = Vec::from_slice(alloc, TWO)?;
    add_times(&mut image, 0, 20)?;
    add_services(&mut image, count)?;
    add_times(&mut image, 0, 5)?;
    Ok(image)
}

/// Objects in an array: what they are called, how many there are, and what their image is read as.
type Objects = (&'static str, u16, ReadAs);

const OBJECTS: [Objects; 2] = [
    ("4,096 objects", 4096, ReadAs::Image),
    ("4,097 objects", 4097, ReadAs::Nothing),
];

fn check_objects(rt: &impl Abort, alloc: Global, row: Objects) -> Result<(), Fail> {
    let (what, count, wanted) = row;
    let image = objects_in_an_array(alloc, count)?;
    check_image(rt, alloc, &image, wanted, what)
}

/// Services: what they are called, how many there are, and what their image is read as.
type Services = (&'static str, u8, ReadAs);

const SERVICES: [Services; 2] = [
    ("16 services", 16, ReadAs::Image),
    ("17 services", 17, ReadAs::Nothing),
];

fn check_services(rt: &impl Abort, alloc: Global, row: Services) -> Result<(), Fail> {
    let (what, count, wanted) = row;
    let image = services(alloc, count)?;
    check_image(rt, alloc, &image, wanted, what)
}

#[test]
fn objects_at_their_limit(rt: HostRuntime) -> Result<(), Fail> {
    for row in &OBJECTS {
        check_objects(&rt, rt.alloc(), *row)?;
    }
    Ok(())
}

#[test]
fn services_at_their_limit(rt: HostRuntime) -> Result<(), Fail> {
    for row in &SERVICES {
        check_services(&rt, rt.alloc(), *row)?;
    }
    Ok(())
}
