//! Records of what a request changed in objects, written by hand, of which most lead nowhere.

use crate::checks::check_text;
use crate::stores::damage::changed;
use crate::stores::deltas::{NOTHING, with_record};
use ash_store_fixtures::deltas::{ModuleDelta, StoreDelta};
use ash_store_fixtures::files::ImageModule;
use ash_store_fixtures::hosts::{disk, load_as, new_host, second_generation};
use ash_store_fixtures::lives::{HostStep, found_answers};
use std::alloc::Global;
use std::process::Abort;
use std::test::Fail;

/// A module whose global holds the object 1. Its field is 0.
const OBJECT_SOURCE: &[u8] = b"class A { int v; } A@ a = A();";

/// An object of the first class of the first module, whose one field is the `int` 7.
const SEVEN: &[u8] = b"\x01\x00\x00\x00\x01\x01\x07\x00\x00\x00";

/// The same of the second module.
const OF_THE_SECOND_MODULE: &[u8] = b"\x01\x01\x00\x00\x01\x01\x07\x00\x00\x00";

/// The same of the second class.
const OF_THE_SECOND_CLASS: &[u8] = b"\x01\x00\x01\x00\x01\x01\x07\x00\x00\x00";

/// An object of the first class without fields.
const WITHOUT_FIELDS: &[u8] = b"\x01\x00\x00\x00\x00";

/// An object of the first class whose one field is `true`.
const WITH_A_TRUTH: &[u8] = b"\x01\x00\x00\x00\x01\x00\x01";

/// The bytes of objects after their numbers, beside these.
type Put = &'static [(u64, &'static [u8])];

/// What a record is called, the number that it has as the last, the objects that are gone and put, and what is found.
type ObjectRow = (&'static str, u64, &'static [u64], Put, &'static str);

/// The gate before the record is at 21 + 94.
const NO_STATE: &str = "Open(Damaged(115))";

static OBJECT_ROWS: [ObjectRow; 12] = [
    ("nothing", 1, &[], &[], "ok object 1 m.A count 1 v 0\n2\n"),
    (
        "an object",
        1,
        &[],
        &[(1, SEVEN)],
        "ok object 1 m.A count 1 v 7\n2\n",
    ),
    (
        "an object, and one that is gone and was not there",
        9,
        &[2],
        &[(1, SEVEN)],
        "ok object 1 m.A count 1 v 7\n2\n",
    ),
    (
        "an object both gone and put",
        1,
        &[1],
        &[(1, SEVEN)],
        NO_STATE,
    ),
    ("an object that is gone, and held", 1, &[1], &[], NO_STATE),
    (
        "an object that nothing holds",
        2,
        &[],
        &[(2, SEVEN)],
        NO_STATE,
    ),
    ("a number above the last", 0, &[], &[(1, SEVEN)], NO_STATE),
    (
        "an object twice",
        1,
        &[],
        &[(1, SEVEN), (1, SEVEN)],
        NO_STATE,
    ),
    (
        "an object of a module that is not there",
        1,
        &[],
        &[(1, OF_THE_SECOND_MODULE)],
        NO_STATE,
    ),
    (
        "an object of a class that is not there",
        1,
        &[],
        &[(1, OF_THE_SECOND_CLASS)],
        NO_STATE,
    ),
    (
        "an object without its fields",
        1,
        &[],
        &[(1, WITHOUT_FIELDS)],
        NO_STATE,
    ),
    (
        "an object with a field of another type",
        1,
        &[],
        &[(1, WITH_A_TRUTH)],
        NO_STATE,
    ),
];

/// The file of a store whose image has the module `m` of a source, beside modules with no source.
fn file_with(alloc: Global, beside: &[&str], source: &[u8]) -> Result<Vec<u8>, Fail> {
    let mut host = new_host(alloc, &[], &[])?;
    for name in beside {
        load_as(&mut host, *name, b"");
    }
    load_as(&mut host, "m", source);
    let second = second_generation(alloc, host)?;
    Ok(Vec::from_slice(alloc, second.bytes())?)
}

/// Compares what is found of the object of a number after a record.
fn check_found(
    rt: &impl Abort,
    alloc: Global,
    file: &[u8],
    delta: &StoreDelta<'static>,
    number: u64,
    row: (&str, &str),
) -> Result<(), Fail> {
    let (what, wanted) = row;
    let file = with_record(alloc, file, delta)?;
    let (a, b) = (disk(alloc, &file)?, disk(alloc, &[0])?);
    let found = found_answers(alloc, a, b, &[HostStep::Object(number), HostStep::Seq])?;
    check_text(rt, found.as_str(), wanted, what);
    Ok(())
}

/// Compares what is found after a record of objects.
fn check_object_row(
    rt: &impl Abort,
    alloc: Global,
    file: &[u8],
    row: &ObjectRow,
) -> Result<(), Fail> {
    let (what, last, gone, put, wanted) = *row;
    let delta = StoreDelta {
        last,
        gone,
        put,
        ..NOTHING
    };
    check_found(rt, alloc, file, &delta, 1, (what, wanted))
}

#[test]
fn records_of_objects(rt: HostRuntime) -> Result<(), Fail> {
    let file = file_with(rt.alloc(), &[], OBJECT_SOURCE)?;
    for row in &OBJECT_ROWS {
        check_object_row(&rt, rt.alloc(), &file, row)?;
    }
    Ok(())
}

/// What a record is called that changes the modules, the modules beside `m` before it, what becomes of them, the
/// objects that are put, and what is found. The index of a module is that in the list after the request.
type ShiftRow = (
    &'static str,
    &'static [&'static str],
    ModuleDelta<'static>,
    Put,
    &'static str,
);

const ADDED: ModuleDelta<'static> = ModuleDelta::Added(ImageModule {
    name: "a",
    source: b"",
    global: None,
});

const REMOVED: ModuleDelta<'static> = ModuleDelta::Removed("a");

static SHIFT_ROWS: [ShiftRow; 6] = [
    (
        "a module is added before that of an object",
        &[],
        ADDED,
        &[],
        "ok object 1 m.A count 1 v 0\n2\n",
    ),
    (
        "an object with the new index of its module",
        &[],
        ADDED,
        &[(1, OF_THE_SECOND_MODULE)],
        "ok object 1 m.A count 1 v 7\n2\n",
    ),
    (
        "an object with the old index of its module",
        &[],
        ADDED,
        &[(1, SEVEN)],
        NO_STATE,
    ),
    (
        "a module is removed before that of an object",
        &["a"],
        REMOVED,
        &[],
        "ok object 1 m.A count 1 v 0\n2\n",
    ),
    (
        "an object with the new index, lower than before",
        &["a"],
        REMOVED,
        &[(1, SEVEN)],
        "ok object 1 m.A count 1 v 7\n2\n",
    ),
    // The image has 8 bytes more, for the module `a`.
    (
        "an object with the old index, higher than there is",
        &["a"],
        REMOVED,
        &[(1, OF_THE_SECOND_MODULE)],
        "Open(Damaged(123))",
    ),
];

/// Compares what is found after a record that changes the modules.
fn check_shift_row(rt: &impl Abort, alloc: Global, row: &ShiftRow) -> Result<(), Fail> {
    let (what, beside, modules, put, wanted) = *row;
    let file = file_with(alloc, beside, OBJECT_SOURCE)?;
    let delta = StoreDelta {
        last: 1,
        modules,
        put,
        ..NOTHING
    };
    check_found(rt, alloc, &file, &delta, 1, (what, wanted))
}

#[test]
fn modules_that_shift_others(rt: HostRuntime) -> Result<(), Fail> {
    for row in &SHIFT_ROWS {
        check_shift_row(&rt, rt.alloc(), row)?;
    }
    Ok(())
}

/// A module whose global holds the object 1. Its field is null.
const ARRAY_SOURCE: &[u8] = b"class A { array<int>@ l; } A@ a = A();";

/// A record that puts an array of `int` with the one element 5 as the object 2, and a handle to it into that field.
const ARRAY: StoreDelta<'static> = StoreDelta {
    last: 2,
    put: &[
        (
            1,
            b"\x01\x00\x00\x00\x01\x06\x02\x00\x00\x00\x00\x00\x00\x00",
        ),
        (2, b"\x03\x01\x01\x00\x01\x05\x00\x00\x00"),
    ],
    ..NOTHING
};

// The image has 29 bytes, 8 and 38 of the module, 9 of its global and 14 of the object.
const ARRAY_IN_VERSION_ONE: &str = "Open(Damaged(119))";

#[test]
fn an_array_in_a_record_of_each_version(rt: HostRuntime) -> Result<(), Fail> {
    let file = file_with(rt.alloc(), &[], ARRAY_SOURCE)?;
    let row = ("version 2", "ok object 2 array count 1 5\n2\n");
    check_found(&rt, rt.alloc(), &file, &ARRAY, 2, row)?;
    let older = changed(rt.alloc(), &file, 21, 1)?;
    let row = ("version 1", ARRAY_IN_VERSION_ONE);
    check_found(&rt, rt.alloc(), &older, &ARRAY, 2, row)
}
