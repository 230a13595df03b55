//! How faults are written.

use crate::checks::expect_all;
use ash_host::NoMemory;
use ash_integers::DivisionFault;
use ash_objects::{IndexOutOfBounds, LengthFault, MakeFault, TableFault};
use std::alloc::Global;
use std::fmt::Display;

// Whether a fault is written so.
fn is_written<F: Display>(alloc: Global, fault: &F, sentence: &str) -> Result<bool, NoMemory> {
    let text = format!(in alloc; "{fault}")?;
    Ok(text.as_str() == sentence)
}

// The place of the first fault that is not written as the sentence beside it.
fn first_unmet<F: Display>(alloc: Global, rows: &[(F, &str)]) -> Result<Option<usize>, NoMemory> {
    for place in 0..rows.len() {
        let row = &rows[place];
        if !is_written(alloc, &row.0, row.1)? {
            return Ok(Some(place));
        }
    }
    Ok(None)
}

static OF_INTEGERS: [(DivisionFault, &str); 2] = [
    (DivisionFault::ByZero, "division by zero"),
    (
        DivisionFault::Overflow,
        "division of the least number of a type by -1",
    ),
];

#[test]
fn faults_of_integers_are_sentences(rt: HostRuntime) {
    expect_all(&rt, first_unmet(rt.alloc(), &OF_INTEGERS));
}

static OF_MAKING: [(MakeFault, &str); 5] = [
    (MakeFault::ObjectLimit, "as many objects live as may"),
    (MakeFault::NumbersSpent, "every number was given"),
    (MakeFault::PoolEmpty, "no free box is of the kind"),
    (
        MakeFault::ArrayLimit,
        "the array would be longer than it may be",
    ),
    (MakeFault::NoMemory, "memory was refused"),
];

#[test]
fn faults_of_making_are_sentences(rt: HostRuntime) {
    expect_all(&rt, first_unmet(rt.alloc(), &OF_MAKING));
}

static OF_INDEXES: [(IndexOutOfBounds, &str); 1] = [(
    IndexOutOfBounds,
    "the index is not below the length of the array",
)];

static OF_LENGTHS: [(LengthFault, &str); 2] = [
    (
        LengthFault::TooLong,
        "the array would have more elements than it may",
    ),
    (LengthFault::NoMemory, "memory was refused"),
];

#[test]
fn faults_of_arrays_are_sentences(rt: HostRuntime) {
    expect_all(&rt, first_unmet(rt.alloc(), &OF_INDEXES));
    expect_all(&rt, first_unmet(rt.alloc(), &OF_LENGTHS));
}

static OF_TABLES: [(TableFault, &str); 3] = [
    (
        TableFault::PoolShort(3),
        "there are too few free boxes of kind 3",
    ),
    (
        TableFault::RestoreRefused(5),
        "the host object numbered 5 (a service, if 0) does not take its state",
    ),
    (TableFault::NoMemory, "memory was refused"),
];

#[test]
fn faults_of_tables_are_sentences(rt: HostRuntime) {
    expect_all(&rt, first_unmet(rt.alloc(), &OF_TABLES));
}
