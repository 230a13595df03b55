//! Records of what a request changed, written by hand after their layout.

use crate::files::{ImageModule, add_name, add_record, add_services, add_source};
use std::alloc::{AllocError, Global};

/// What became of the modules. Each global is an `int`.
#[derive(Clone, Copy)]
pub enum ModuleDelta<'a> {
    /// Nothing.
    Unchanged,
    /// A module was added.
    Added(ImageModule<'a>),
    /// The module of a name was removed.
    Removed(&'static str),
    /// Globals of the module of a name hold something else: each the place of one, and what it holds.
    Globals(&'static str, &'a [(u16, i32)]),
}

/// What a request changed: the number of the state after it, the last number of an object, the services that were
/// called, each its index and an `int` as its state, the modules, the numbers of objects that went, and the objects
/// that were put, each its number and its bytes after that.
#[derive(Clone, Copy)]
pub struct StoreDelta<'a> {
    pub seq: u64,
    pub last: u64,
    pub services: &'a [(u16, i32)],
    pub modules: ModuleDelta<'a>,
    pub gone: &'a [u64],
    pub put: &'a [(u64, &'a [u8])],
}

/// What a request changed that had no objects and called no services.
pub fn delta_of_modules<'a>(seq: u64, modules: ModuleDelta<'a>) -> StoreDelta<'a> {
    StoreDelta {
        seq,
        last: 0,
        services: &[],
        modules,
        gone: &[],
        put: &[],
    }
}

/// Adds how many globals there are, and each of them: its place, and an `int`.
fn add_globals(delta: &mut Vec<u8>, globals: &[(u16, i32)]) -> Result<(), AllocError> {
    let count = u16::try_from(globals.len()).unwrap_or(u16::MAX);
    delta.extend_from_slice(&count.to_le_bytes())?;
    for global in globals {
        let (place, number) = *global;
        delta.extend_from_slice(&place.to_le_bytes())?;
        delta.push(1)?;
        delta.extend_from_slice(&number.to_le_bytes())?;
    }
    Ok(())
}

/// Adds a module with all of its globals.
fn add_added(delta: &mut Vec<u8>, module: ImageModule) -> Result<(), AllocError> {
    add_source(delta, &module)?;
    match module.global {
        Some(number) => add_globals(delta, &[(0, number)]),
        None => add_globals(delta, &[]),
    }
}

/// Adds what became of the modules, after its tag.
fn add_modules(delta: &mut Vec<u8>, modules: ModuleDelta) -> Result<(), AllocError> {
    match modules {
        ModuleDelta::Unchanged => Ok(delta.push(0)?),
        ModuleDelta::Added(module) => {
            delta.push(1)?;
            add_added(delta, module)
        }
        ModuleDelta::Removed(name) => {
            delta.push(2)?;
            add_name(delta, name)
        }
        ModuleDelta::Globals(name, globals) => {
            delta.push(3)?;
            add_name(delta, name)?;
            add_globals(delta, globals)
        }
    }
}

/// Adds how many numbers there are, and each of them.
fn add_numbers(delta: &mut Vec<u8>, numbers: &[u64]) -> Result<(), AllocError> {
    let count = u32::try_from(numbers.len()).unwrap_or(u32::MAX);
    delta.extend_from_slice(&count.to_le_bytes())?;
    for number in numbers {
        let number = *number;
        delta.extend_from_slice(&number.to_le_bytes())?;
    }
    Ok(())
}

/// Adds how many objects there are, and each of them.
fn add_objects(delta: &mut Vec<u8>, objects: &[(u64, &[u8])]) -> Result<(), AllocError> {
    let count = u32::try_from(objects.len()).unwrap_or(u32::MAX);
    delta.extend_from_slice(&count.to_le_bytes())?;
    for object in objects {
        let (number, bytes) = *object;
        delta.extend_from_slice(&number.to_le_bytes())?;
        delta.extend_from_slice(bytes)?;
    }
    Ok(())
}

/// The bytes of a delta, without the tag of a record.
pub fn delta_bytes(alloc: Global, of: &StoreDelta) -> Result<Vec<u8>, AllocError> {
    let mut delta = Vec::from_slice(alloc, &of.seq.to_le_bytes())?;
    delta.extend_from_slice(&of.last.to_le_bytes())?;
    add_services(&mut delta, of.services)?;
    add_modules(&mut delta, of.modules)?;
    add_numbers(&mut delta, of.gone)?;
    add_objects(&mut delta, of.put)?;
    Ok(delta)
}

/// Adds a record of what a request changed to a file.
pub fn add_delta(alloc: Global, file: &mut Vec<u8>, delta: &StoreDelta) -> Result<(), AllocError> {
    add_record(file, 2, &delta_bytes(alloc, delta)?)
}
