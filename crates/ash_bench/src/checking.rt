//! How fast scripts are cut into tokens, parsed and checked: `ash_bench check`.
//!
//! The scripts have several shapes, each in 16, 32 and 64 KiB: where twice the script takes twice the time, checking
//! takes linear time. Each has one fault, which is at its very end, so that all the work is done and no tree results.
//! The time of the lexer and the parser alone is printed too.

use crate::parsing::count;
use crate::rates::Timing;
use crate::sources::{LENGTHS, SHAPES, Shape, script};
use anyhow::Result;
use ash_check::ScriptFault;
use ash_registry::Registry;
use ash_sources::checking::check_source;
use ash_sources::fault::{SourceError, SourceFault};
use std::alloc::{AllocError, Global};
use std::io;

/// The fault of a source, if there is one.
fn fault(alloc: Global, registry: &Registry, text: &str) -> Result<Option<SourceFault>> {
    match check_source(alloc, registry, text.as_bytes()) {
        Ok(()) => Ok(None),
        Err(SourceError::Fault(fault)) => Ok(Some(fault)),
        Err(SourceError::NoMemory) => Err(AllocError.into()),
    }
}

/// Prints how the check of a source ends.
fn print_end(rt: &HostRuntime, fault: Option<SourceFault>) -> Result<()> {
    match fault {
        Some(SourceFault::Checked(ScriptFault::Broken(fault))) => {
            println!(rt; "  {} {}", fault.rule.code(), fault.at)?
        }
        Some(fault) => println!(rt; "  {}", fault.code())?,
        None => println!(rt; "  ok")?,
    }
    Ok(())
}

/// Prints what a source has.
fn describe(rt: &HostRuntime, registry: &Registry, name: &str, text: &str) -> Result<()> {
    let (tokens, items) = count(rt.alloc(), text)?;
    println!(rt;
        "{name}: {} bytes, {tokens} tokens, {items} items",
        text.len()
    )?;
    print_end(rt, fault(rt.alloc(), registry, text)?)
}

/// Prints how long a piece of work took on a source of so many bytes.
fn print_timing(rt: &HostRuntime, work: &str, timing: &Timing, bytes: usize) -> Result<()> {
    let (one, speed) = (timing.microseconds(), timing.per_second(bytes as u64));
    println!(rt; "  {work}: {one} microseconds each, {speed} bytes per second")?;
    Ok(())
}

/// Reads a source so many times, without the check, and prints how long it took.
fn measure_parser(rt: &HostRuntime, text: &str, rounds: u64) -> Result<()> {
    let mut timing = Timing::zero();
    timing.measure(rt, rounds, || {
        count(rt.alloc(), text)?;
        Ok(())
    })?;
    print_timing(rt, "lexer and parser", &timing, text.len())
}

/// The same with the check.
fn measure_checker(rt: &HostRuntime, registry: &Registry, text: &str, rounds: u64) -> Result<()> {
    let mut timing = Timing::zero();
    timing.measure(rt, rounds, || {
        fault(rt.alloc(), registry, text)?;
        Ok(())
    })?;
    print_timing(rt, "with the checker", &timing, text.len())
}

/// Checks a script of this shape with so many bytes.
fn check_script(
    rt: &HostRuntime,
    registry: &Registry,
    shape: Shape,
    bytes: usize,
    rounds: Option<u64>,
) -> Result<()> {
    let text = script(rt.alloc(), shape, bytes)?;
    describe(rt, registry, shape.name, text.as_str())?;
    if let Some(rounds) = rounds {
        measure_parser(rt, text.as_str(), rounds)?;
        measure_checker(rt, registry, text.as_str(), rounds)?;
    }
    Ok(())
}

/// Checks scripts of each shape, of three lengths.
fn check_scripts(rt: &HostRuntime, registry: &Registry, rounds: Option<u64>) -> Result<()> {
    for shape in SHAPES {
        for bytes in LENGTHS {
            check_script(rt, registry, shape, bytes, rounds)?;
        }
    }
    Ok(())
}

/// Checks the scripts with nothing registered.
pub fn run(rt: &HostRuntime, rounds: Option<u64>) -> Result<()> {
    check_scripts(rt, &Registry::new(rt.alloc()), rounds)
}
