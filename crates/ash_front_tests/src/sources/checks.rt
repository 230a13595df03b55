//! Sources as bytes, and how checking and reading them end: `ok`, or the fault as `Debug` prints it, with offsets
//! counted by hand.

use crate::compare::{NO_MEMORY, check_text, expect_memory, expect_text};
use crate::registrations::empty;
use ash_check::ScriptFault;
use ash_registry::Registry;
use ash_sources::checking::check_source;
use ash_sources::fault::{SourceError, SourceFault};
use ash_sources::sources::Sources;
use std::alloc::{AllocError, Global};
use std::fmt::Debug;
use std::panic::Expect;
use std::process::Abort;

/// A value as `Debug` prints it.
fn debugged<T: Debug>(alloc: Global, value: &T) -> Result<String, AllocError> {
    format!(in alloc; "{value:?}")
}

/// A fault of the check as `Debug` prints it, without the layer that finds it.
fn printed_script_fault(alloc: Global, fault: &ScriptFault) -> Result<String, AllocError> {
    match fault {
        ScriptFault::Broken(fault) => {
            format!(in alloc; "{:?} {{ at: {} }}", fault.rule, fault.at)
        }
        ScriptFault::Cyclic(names) => debugged(alloc, names),
    }
}

/// A fault as `Debug` prints it, without the layer that finds it.
fn printed_fault(alloc: Global, fault: &SourceFault) -> Result<String, AllocError> {
    match fault {
        SourceFault::Lexical(fault) => debugged(alloc, fault),
        SourceFault::Syntactic(fault) => debugged(alloc, fault),
        SourceFault::Checked(fault) => printed_script_fault(alloc, fault),
    }
}

fn printed<T: Drop>(alloc: Global, ended: Result<T, SourceError>) -> Result<String, AllocError> {
    match ended {
        Ok(_) => String::from_str(alloc, "ok"),
        Err(SourceError::Fault(fault)) => printed_fault(alloc, &fault),
        Err(SourceError::NoMemory) => String::from_str(alloc, "no memory"),
    }
}

/// How checking a source ends.
fn checked(alloc: Global, registry: &Registry, source: &[u8]) -> Result<String, AllocError> {
    printed(alloc, check_source(alloc, registry, source))
}

/// How reading a source ends.
fn read(alloc: Global, registry: &Registry, source: &[u8]) -> Result<String, AllocError> {
    printed(alloc, Sources { registry }.read_tree(alloc, source))
}

/// Compares how checking a source ends, and how reading it does, with what is wanted.
pub(crate) fn check_source_with(
    rt: &impl Abort,
    alloc: Global,
    registry: &Registry,
    source: &[u8],
    wanted: &str,
) {
    let text = expect_text(rt, String::from_utf8_lossy(alloc, source));
    let found = expect_text(rt, checked(alloc, registry, source));
    check_text(rt, found.as_str(), wanted, text.as_str());
    let found = expect_text(rt, read(alloc, registry, source));
    check_text(rt, found.as_str(), wanted, text.as_str());
}

/// The same, where nothing is registered.
pub(crate) fn check_source_of(rt: &impl Abort, alloc: Global, source: &[u8], wanted: &str) {
    let registry = empty(alloc).expect(rt, NO_MEMORY);
    check_source_with(rt, alloc, &registry, source, wanted);
}

/// The parts of a row: how its source ends, and the source.
pub(crate) fn parts_of(row: &str) -> (&str, &str) {
    row.trim()
        .split_once(" | ")
        .unwrap_or((row, "no bar in this row"))
}

/// Each row has how checking and reading end, a bar, and the source.
pub(crate) fn check_rows(rt: &impl Abort, alloc: Global, rows: &str) {
    for row in rows.trim().lines() {
        let (wanted, source) = parts_of(row);
        check_source_of(rt, alloc, source.as_bytes(), wanted);
    }
}

/// Each row has a source, and how checking and reading it end.
pub(crate) fn check_sources(rt: &impl Abort, alloc: Global, rows: &[(&[u8], &str)]) {
    for (source, wanted) in rows {
        check_source_of(rt, alloc, source, wanted);
    }
}

/// So many times this byte.
fn push_times(source: &mut Vec<u8>, byte: u8, times: usize) -> Result<(), AllocError> {
    for _ in 0..times {
        source.push(byte)?;
    }
    Ok(())
}

/// `text`, and so many blanks after it.
fn with_blanks(rt: &impl Abort, alloc: Global, text: &[u8], count: usize) -> Vec<u8> {
    let mut source = Vec::from_slice(alloc, text).expect(rt, NO_MEMORY);
    expect_memory(rt, push_times(&mut source, b' ', count));
    source
}

/// Compares how `text`, with so many blanks after it, ends with what is wanted.
pub(crate) fn check_with_blanks(
    rt: &impl Abort,
    alloc: Global,
    text: &[u8],
    count: usize,
    wanted: &str,
) {
    let source = with_blanks(rt, alloc, text, count);
    check_source_of(rt, alloc, source.as_slice(), wanted);
}

/// `prefix`, a 1 in so many brackets, and `suffix`.
pub(crate) fn bracketed(
    rt: &impl Abort,
    alloc: Global,
    prefix: &[u8],
    count: usize,
    suffix: &[u8],
) -> Vec<u8> {
    let mut source = Vec::from_slice(alloc, prefix).expect(rt, NO_MEMORY);
    expect_memory(rt, push_times(&mut source, b'(', count));
    expect_memory(rt, push_times(&mut source, b'1', 1));
    expect_memory(rt, push_times(&mut source, b')', count));
    expect_memory(rt, source.extend_from_slice(suffix));
    source
}
