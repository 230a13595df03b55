//! How long compiled scripts take: `ash_script_bench NAME NUMBER` calls a function of `scripts.as` with a number twice,
//! and prints its name, its value, and the seconds of the second call.
#![tactic(auto)]

mod running;
mod scripts;

use anyhow::Result;
use ash_host::{Counter, HostObject};
use std::env;
use std::process::ExitCode;

const USAGE: &str = "usage: ash_script_bench NAME NUMBER";

fn main(rt: HostRuntime) -> Result<ExitCode> {
    let alloc = rt.alloc();
    let words: Vec<String> = env::args(&rt)?.collect(alloc)?;
    let mut pool: Vec<Box<dyn HostObject>> = Vec::new(alloc);
    for _ in 0..2 {
        pool.push(Box::new(alloc, Counter::new())?)?;
    }
    let services: Vec<Box<dyn HostObject>> = Vec::new(alloc);
    match words.as_slice() {
        [_, name, number] => running::measure(&rt, alloc, pool, services, name, number),
        _ => {
            eprintln!(rt; "{USAGE}")?;
            Ok(ExitCode::from(2))
        }
    }
}
