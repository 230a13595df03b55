//! Records of what a request changed in modules and services, written by hand, of which most lead nowhere.

use crate::checks::check;
use ash_durable::{OpenFault, StoreFault};
use ash_store_fixtures::deltas::{ModuleDelta, StoreDelta, add_delta, delta_of_modules};
use ash_store_fixtures::files::{ImageModule, add_image, generation, image};
use ash_store_fixtures::hosts::{SOURCE, State, found_state};
use ash_store_fixtures::lives::{File, bytes_of, image_of};
use std::alloc::{AllocError, Global};
use std::process::Abort;
use std::test::Fail;

/// A record that changes nothing.
pub const NOTHING: StoreDelta<'static> = StoreDelta {
    seq: 2,
    last: 0,
    services: &[],
    modules: ModuleDelta::Unchanged,
    gone: &[],
    put: &[],
};

/// What a record is called, what it makes of the modules, and the state that is found.
type ModuleRow = (&'static str, ModuleDelta<'static>, Result<State, OpenFault>);

/// The gate before the record is at 21 + 87, after an image with the module `m`, in which `n` is 2.
const DAMAGED: Result<State, OpenFault> = Err(OpenFault::Damaged(108));

static MODULE_ROWS: [ModuleRow; 11] = [
    ("nothing", ModuleDelta::Unchanged, Ok((2, Some(2)))),
    (
        "a global",
        ModuleDelta::Globals("m", &[(0, 9)]),
        Ok((2, Some(9))),
    ),
    (
        "a global that is not there",
        ModuleDelta::Globals("m", &[(1, 9)]),
        DAMAGED,
    ),
    (
        "a global twice",
        ModuleDelta::Globals("m", &[(0, 8), (0, 9)]),
        DAMAGED,
    ),
    (
        "a global of a module that is not there",
        ModuleDelta::Globals("k", &[(0, 9)]),
        DAMAGED,
    ),
    (
        "no globals of a module that is not there",
        ModuleDelta::Globals("k", &[]),
        DAMAGED,
    ),
    (
        "a module that is removed",
        ModuleDelta::Removed("m"),
        Ok((2, None)),
    ),
    (
        "a module that is removed and was not there",
        ModuleDelta::Removed("k"),
        Ok((2, Some(2))),
    ),
    (
        "a module in the place of one of its name",
        ModuleDelta::Added(MODULE),
        Ok((2, Some(7))),
    ),
    (
        "a module with a global too few",
        ModuleDelta::Added(ImageModule {
            global: None,
            ..MODULE
        }),
        DAMAGED,
    ),
    (
        "a source that would not be loaded",
        ModuleDelta::Added(ImageModule {
            source: b"int n = ;",
            ..MODULE
        }),
        DAMAGED,
    ),
];

const MODULE: ImageModule<'static> = ImageModule {
    name: "m",
    source: SOURCE,
    global: Some(7),
};

/// What a record is called, the record, and the state that is found.
type Row = (&'static str, StoreDelta<'static>, Result<State, OpenFault>);

static ROWS: [Row; 5] = [
    (
        "a service that is not there",
        StoreDelta {
            services: &[(0, 5)],
            ..NOTHING
        },
        DAMAGED,
    ),
    (
        "an object that is gone and was not there",
        StoreDelta {
            gone: &[9],
            ..NOTHING
        },
        Ok((2, Some(2))),
    ),
    (
        "objects that are gone, out of order",
        StoreDelta {
            gone: &[9, 8],
            ..NOTHING
        },
        DAMAGED,
    ),
    (
        "an object that is gone twice",
        StoreDelta {
            gone: &[9, 9],
            ..NOTHING
        },
        DAMAGED,
    ),
    (
        "the number 0, which no object has, among those gone",
        StoreDelta {
            gone: &[0, 9],
            ..NOTHING
        },
        DAMAGED,
    ),
];

/// A file with one record more.
pub fn with_record(
    alloc: Global,
    file: &[u8],
    delta: &StoreDelta<'static>,
) -> Result<Vec<u8>, AllocError> {
    let mut file = Vec::from_slice(alloc, file)?;
    add_delta(alloc, &mut file, delta)?;
    Ok(file)
}

/// Compares the state that is found after a record.
fn check_row(rt: &impl Abort, alloc: Global, file: &[u8], row: &Row) -> Result<(), Fail> {
    let (what, delta, wanted) = *row;
    let file = with_record(alloc, file, &delta)?;
    let found = found_state(alloc, &file, &[0])?;
    check(rt, &found, &wanted.map_err(StoreFault::Open), what);
    Ok(())
}

/// The same of a record that changes the modules.
fn check_module_row(
    rt: &impl Abort,
    alloc: Global,
    file: &[u8],
    row: &ModuleRow,
) -> Result<(), Fail> {
    let (what, modules, wanted) = *row;
    let delta = StoreDelta { modules, ..NOTHING };
    check_row(rt, alloc, file, &(what, delta, wanted))
}

#[test]
fn records_of_modules(rt: HostRuntime) -> Result<(), Fail> {
    let file = bytes_of(rt.alloc(), File::Written(1, (1, Some(2)), &[], &[]))?;
    for row in &MODULE_ROWS {
        check_module_row(&rt, rt.alloc(), &file, row)?;
    }
    Ok(())
}

#[test]
fn records_of_services_and_numbers(rt: HostRuntime) -> Result<(), Fail> {
    let file = bytes_of(rt.alloc(), File::Written(1, (1, Some(2)), &[], &[]))?;
    for row in &ROWS {
        check_row(&rt, rt.alloc(), &file, row)?;
    }
    Ok(())
}

/// The records of a load, of a whole state in which `n` is 5, and of a call after that.
fn whole_state_between(alloc: Global) -> Result<Vec<u8>, AllocError> {
    let mut file = bytes_of(alloc, File::Written(1, (0, None), &[(1, Some(2))], &[]))?;
    add_image(&mut file, &image_of(alloc, 2, (2, Some(5)))?)?;
    let call = delta_of_modules(3, ModuleDelta::Globals("m", &[(0, 6)]));
    add_delta(alloc, &mut file, &call)?;
    Ok(file)
}

#[test]
fn a_whole_state_between_two_changes(rt: HostRuntime) -> Result<(), Fail> {
    let file = whole_state_between(rt.alloc())?;
    let found = found_state(rt.alloc(), &file, &[0])?;
    check(&rt, &found, &Ok((3, Some(6))), "records of both sorts");
    Ok(())
}

static SIXTEEN: [&str; 16] = [
    "A", "B", "C", "D", "E", "F", "G", "H", "I", "J", "K", "L", "M", "N", "O", "P",
];

/// The file of a store with as many modules as there may be, none of which has a source.
fn sixteen_modules(alloc: Global) -> Result<Vec<u8>, AllocError> {
    let mut modules = Vec::new(alloc);
    for name in &SIXTEEN {
        modules.push(ImageModule {
            name: *name,
            source: b"",
            global: None,
        })?;
    }
    generation(alloc, 1, &image(alloc, 16, &modules)?)
}

// The image has 29 + 16 * 8 bytes.
static SEVENTEENTH: [ModuleRow; 2] = [
    (
        "one of their names",
        ModuleDelta::Added(ImageModule {
            name: "P",
            ..MODULE
        }),
        Ok((2, None)),
    ),
    (
        "one more",
        ModuleDelta::Added(MODULE),
        Err(OpenFault::Damaged(178)),
    ),
];

#[test]
fn a_seventeenth_module(rt: HostRuntime) -> Result<(), Fail> {
    let file = sixteen_modules(rt.alloc())?;
    for row in &SEVENTEENTH {
        check_module_row(&rt, rt.alloc(), &file, row)?;
    }
    Ok(())
}
