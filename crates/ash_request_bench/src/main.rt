//! Serves standard input and output from an engine that stores nothing: what requests cost without their records.
#![tactic(auto)]

mod unstored;

use anyhow::Result;
use ash_host::{Counter, HostObject, Tally};
use std::io;
use unstored::run;

/// How many free host objects of the kind Counter there are.
const COUNTERS: u32 = 4096;

fn main(rt: HostRuntime) -> Result<()> {
    let mut pool: Vec<Box<dyn HostObject>> = Vec::new(rt.alloc());
    for _ in 0..COUNTERS {
        pool.push(Box::new(rt.alloc(), Counter::new())?)?;
    }
    let mut services: Vec<Box<dyn HostObject>> = Vec::new(rt.alloc());
    services.push(Box::new(rt.alloc(), Tally::new())?)?;
    run(
        rt.alloc(),
        rt.reader(),
        &mut io::writer(&rt),
        pool,
        services,
    )
}
