//! Runs over stores, compared with what they are to answer and to leave.

use crate::checks::check_text;
use crate::hosts::{Disks, boxed_disks, closed_disks, opened_unregistered, unboxed};
use ash_disk::MemoryDisk;
use ash_store_fixtures::lives::{File, HostStep, Run, answers, bytes_of, disks_of, lived};
use std::alloc::Global;
use std::process::Abort;
use std::test::Fail;

/// Compares how many writes and syncs two disks have had.
pub fn check_calls(rt: &impl Abort, disks: &Disks, wanted: (usize, usize), what: &str) {
    let found = (disks.first.calls(), disks.second.calls());
    if found != wanted {
        panic!(rt; "{what}: found {found:?} calls of the disks, wanted {wanted:?}");
    }
}

/// Compares the bytes of a disk with a file by hand.
pub fn check_file(
    rt: &impl Abort,
    alloc: Global,
    disk: &MemoryDisk,
    file: File,
    what: (&str, &str),
) -> Result<(), Fail> {
    let wanted = bytes_of(alloc, file)?;
    let (found, wanted) = (disk.bytes(), wanted.as_slice());
    if found != wanted {
        let (run, disk) = what;
        panic!(rt; "{run}, {disk} disk: found {found:?}, wanted {wanted:?}");
    }
    Ok(())
}

/// The disks of two files.
pub fn boxed_disks_of(alloc: Global, first: File, second: File) -> Result<Disks, Fail> {
    Ok(boxed_disks(alloc, disks_of(alloc, first, second)?)?)
}

/// What the store on these disks answers to steps, and its disks.
pub fn answers_in(
    alloc: Global,
    disks: Disks,
    steps: &[HostStep],
) -> Result<(String, Disks), Fail> {
    let mut host = opened_unregistered(alloc, disks)?;
    let answers = answers(alloc, &mut host, steps)?;
    Ok((answers, closed_disks(alloc, host)?))
}

/// Handles a run: what is answered, and the disks.
fn lived_in_boxes(alloc: Global, disks: Disks, run: &Run) -> Result<(String, Disks), Fail> {
    let (answers, disks) = lived(alloc, unboxed(disks), run)?;
    Ok((answers, boxed_disks(alloc, disks)?))
}

/// Compares the files that a run leaves, and the calls of both disks.
fn check_left(rt: &impl Abort, alloc: Global, disks: &Disks, run: &Run) -> Result<(), Fail> {
    check_file(rt, alloc, &disks.first, run.first, (run.what, "the first"))?;
    check_file(
        rt,
        alloc,
        &disks.second,
        run.second,
        (run.what, "the second"),
    )?;
    check_calls(rt, disks, run.calls, run.what);
    Ok(())
}

/// Handles a run, and compares what is answered, the files that it leaves, and the calls of both disks.
pub fn check_run(rt: &impl Abort, alloc: Global, disks: Disks, run: &Run) -> Result<Disks, Fail> {
    let (answers, disks) = lived_in_boxes(alloc, disks, run)?;
    check_text(rt, answers.as_str(), run.answers, run.what);
    check_left(rt, alloc, &disks, run)?;
    Ok(disks)
}

/// Runs, one after the other, over disks that begin with two files.
pub type RunSeries = (File, File, &'static [Run]);

/// Handles the runs of a life.
pub fn check_life(rt: &impl Abort, alloc: Global, life: &RunSeries) -> Result<(), Fail> {
    let (first, second, runs) = *life;
    let mut disks = boxed_disks_of(alloc, first, second)?;
    for run in runs {
        disks = check_run(rt, alloc, disks, run)?;
    }
    Ok(())
}

/// Handles lives.
pub fn check_lives(rt: &impl Abort, alloc: Global, lives: &[RunSeries]) -> Result<(), Fail> {
    for life in lives {
        check_life(rt, alloc, life)?;
    }
    Ok(())
}
