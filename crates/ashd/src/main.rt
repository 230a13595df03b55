//! The program `ashd`. What it does is in `ash_serve::program`; here it makes the host objects that it hands over, since
//! only who makes their boxes can name the type of these.

#![tactic(auto)]

use ash_host::{Counter, HostObject, Tally};
use ash_serve::program::ending::ProgramEnd;
use ash_serve::program::fault::ProgramFault;
use ash_serve::program::preparing::{Prepared, prepare};
use ash_serve::program::{check_script, exit, run_host};
use std::process::ExitCode;

fn main(rt: HostRuntime) -> ExitCode {
    let end = match perform(&rt) {
        Ok(end) => end,
        Err(fault) => ProgramEnd::by(Err(fault)),
    };
    exit(&rt, &end)
}

/// Does what the words of the process ask for, and returns how the program ends. A host is handed Tally, as the service
/// that is registered, and as many free counters as the words say.
fn perform(rt: &HostRuntime) -> Result<ProgramEnd, ProgramFault> {
    let task = match prepare(rt)? {
        Prepared::Check(file) => return check_script(rt, file),
        Prepared::Host(task) => task,
    };
    let mut pool: Vec<Box<dyn HostObject>> = Vec::new(rt.alloc());
    for _ in 0..task.counters() {
        pool.push(Box::new(rt.alloc(), Counter::new())?)?;
    }
    let mut services: Vec<Box<dyn HostObject>> = Vec::new(rt.alloc());
    services.push(Box::new(rt.alloc(), Tally::new())?)?;
    Ok(ProgramEnd::by(run_host(rt, task, pool, services)))
}
