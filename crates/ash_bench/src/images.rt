//! How fast the image of a whole state is read, restored and written: `ash_bench image`.
//!
//! The state has as much as a host may have: 16 modules and 4,096 objects. In each module a global has an array,
//! which has 254 objects of 32 fields, and each of these fields has a handle of the last object of the module. So
//! 130,048 handles are followed where the objects are looked for that can be reached.

use crate::rates::Timing;
use anyhow::{Result, bail};
use ash_host::MAX_OBJECTS;
use ash_image::image::read_image;
use ash_registry::Registry;
use ash_states::state::HostState;
use std::alloc::Global;
use std::io;

/// The name of each module, by ascending name.
const NAMES: &[u8; 16] = b"abcdefghijklmnop";

/// How many objects there are.
const OBJECTS: u32 = MAX_OBJECTS as u32;

/// How many objects each module has.
const OBJECTS_OF_A_MODULE: u64 = 256;

/// How many fields an object of the class has.
const FIELDS: u8 = 32;

/// The class of the objects of a module, that of the last of them, and the global that has the array of the others.
const SOURCE: &str =
    "class C { B@ a, b, c, d, e, f, g, h, i, j, k, l, m, n, o, p, q, r, s, t, u, v, w, x, y, z; \
B@ a1, a2, a3, a4, a5, a6; } class B { } array<C@>@ all;";

fn write_u8(out: &mut Vec<u8>, value: u8) -> Result<()> {
    out.push(value)?;
    Ok(())
}

fn write_u16(out: &mut Vec<u8>, value: u16) -> Result<()> {
    out.extend_from_slice(&value.to_le_bytes())?;
    Ok(())
}

fn write_u32(out: &mut Vec<u8>, value: u32) -> Result<()> {
    out.extend_from_slice(&value.to_le_bytes())?;
    Ok(())
}

fn write_u64(out: &mut Vec<u8>, value: u64) -> Result<()> {
    out.extend_from_slice(&value.to_le_bytes())?;
    Ok(())
}

/// Writes the handle of an object.
fn write_handle(out: &mut Vec<u8>, number: u64) -> Result<()> {
    write_u8(out, 6)?;
    write_u64(out, number)?;
    Ok(())
}

/// Writes a module whose global has the array of this number.
fn write_module(out: &mut Vec<u8>, name: u8, first: u64) -> Result<()> {
    write_u8(out, 1)?;
    write_u8(out, name)?;
    write_u32(out, SOURCE.len() as u32)?;
    out.extend_from_slice(SOURCE.as_bytes())?;
    write_u16(out, 1)?;
    write_handle(out, first)
}

/// Writes the array of the module at this place, which has all objects of the module but the last.
fn write_array(out: &mut Vec<u8>, place: u8, first: u64, last: u64) -> Result<()> {
    write_u64(out, first)?;
    write_u8(out, 3)?;
    write_u8(out, 5)?;
    write_u8(out, place)?;
    write_u16(out, 0)?;
    write_u16(out, 254)?;
    for number in first.wrapping_add(1)..last {
        write_handle(out, number)?;
    }
    Ok(())
}

/// Writes an object of the module at this place, whose fields have handles of the last.
fn write_object(out: &mut Vec<u8>, place: u8, number: u64, last: u64) -> Result<()> {
    write_u64(out, number)?;
    write_u8(out, 1)?;
    write_u8(out, place)?;
    write_u16(out, 0)?;
    write_u8(out, FIELDS)?;
    for _ in 0..FIELDS {
        write_handle(out, last)?;
    }
    Ok(())
}

/// Writes the last object of the module at this place, which has no fields.
fn write_last(out: &mut Vec<u8>, place: u8, number: u64) -> Result<()> {
    write_u64(out, number)?;
    write_u8(out, 1)?;
    write_u8(out, place)?;
    write_u16(out, 1)?;
    write_u8(out, 0)
}

/// The number of the first object of the module at a place.
fn first_of(place: u8) -> u64 {
    u64::from(place)
        .wrapping_mul(OBJECTS_OF_A_MODULE)
        .wrapping_add(1)
}

/// Writes the objects of the module at a place.
fn write_objects(out: &mut Vec<u8>, place: u8) -> Result<()> {
    let first = first_of(place);
    let last = first.wrapping_add(OBJECTS_OF_A_MODULE).wrapping_sub(1);
    write_array(out, place, first, last)?;
    for number in first.wrapping_add(1)..last {
        write_object(out, place, number, last)?;
    }
    write_last(out, place, last)
}

/// The image of the state: version 2, nothing registered, no request, so many objects, no service.
fn image(alloc: Global) -> Result<Vec<u8>> {
    let mut out = Vec::new(alloc);
    write_u16(&mut out, 2)?;
    write_u32(&mut out, 0)?;
    write_u64(&mut out, 0)?;
    write_u64(&mut out, u64::from(OBJECTS))?;
    write_u16(&mut out, 0)?;
    write_u8(&mut out, NAMES.len() as u8)?;
    for (place, name) in NAMES.iter().enumerate() {
        write_module(&mut out, *name, first_of(place as u8))?;
    }
    write_u32(&mut out, OBJECTS)?;
    for place in 0..NAMES.len() as u8 {
        write_objects(&mut out, place)?;
    }
    Ok(out)
}

/// The host that has this image, with nothing registered, in a box, since it is large.
fn restored(alloc: Global, image: &[u8]) -> Result<Box<HostState>> {
    let stored = match read_image(alloc, image)? {
        Some(stored) => HostState::restore(alloc, Registry::new(alloc), stored.state)?,
        None => None,
    };
    match stored {
        Some(host) => Ok(Box::new(alloc, host)?),
        None => bail!("no host has this image"),
    }
}

/// Does a piece of work so many times, and prints how long it took once.
fn measure<F: FnMut() -> Result<()>>(
    rt: &HostRuntime,
    work: &str,
    rounds: u64,
    run: F,
) -> Result<()>
    requires always_callable { F.IsAlwaysCallable run }
{
    let mut timing = Timing::zero();
    timing.measure(rt, rounds, run)?;
    println!(rt; "  {work}: {} microseconds each", timing.microseconds())?;
    Ok(())
}

/// Whether the host writes this image.
fn writes(host: &HostState, image: &[u8]) -> Result<bool> {
    Ok(host.image()?.as_slice() == image)
}

/// A host with this image, which it also writes.
fn checked(alloc: Global, image: &[u8]) -> Result<Box<HostState>> {
    let host = restored(alloc, image)?;
    if !writes(&host, image)? {
        bail!("another image is written");
    }
    Ok(host)
}

fn measure_reading(rt: &HostRuntime, image: &[u8], rounds: u64) -> Result<()> {
    measure(rt, "read by its shape", rounds, || {
        read_image(rt.alloc(), image)?;
        Ok(())
    })
}

fn measure_restoring(rt: &HostRuntime, image: &[u8], rounds: u64) -> Result<()> {
    measure(rt, "read and restored", rounds, || {
        restored(rt.alloc(), image)?;
        Ok(())
    })
}

fn measure_writing(rt: &HostRuntime, host: &HostState, rounds: u64) -> Result<()> {
    measure(rt, "written", rounds, || {
        host.image()?;
        Ok(())
    })
}

/// Writes the image of a host that has this one.
fn write(rt: &HostRuntime, image: &[u8], rounds: Option<u64>) -> Result<()> {
    let host = checked(rt.alloc(), image)?;
    match rounds {
        Some(rounds) => measure_writing(rt, &host, rounds),
        None => Ok(()),
    }
}

/// Reads, restores and writes the image.
pub fn run(rt: &HostRuntime, rounds: Option<u64>) -> Result<()> {
    let image = image(rt.alloc())?;
    println!(rt; "16 modules, 4096 objects: {} bytes", image.len())?;
    if let Some(rounds) = rounds {
        measure_reading(rt, &image, rounds)?;
        measure_restoring(rt, &image, rounds)?;
    }
    write(rt, &image, rounds)
}
