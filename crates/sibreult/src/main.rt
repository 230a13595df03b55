//! The program `sibreult`: scripts and stores for people. `words` reads the command line, each command is in a file of
//! its own, and `ending` has the statuses. What is printed of a source is made by `ash_reports`.

#![tactic(auto)]

mod check;
mod ending;
mod opening;
mod run;
mod shell;
mod show;
mod verify;
mod words;

use ash_disk::take_closed_streams;
use ash_host::{Counter, HostObject, Tally};
use ending::{Ending, ending_of_words};
use std::env;
use std::process::ExitCode;
use words::{Limits, RunTask, Task, read_task};

fn main(rt: HostRuntime) -> ExitCode {
    match perform(&rt) {
        Ok(ending) => ExitCode::from(ending.status()),
        Err(error) => {
            let _ = eprintln!(rt; "sibreult: {error}");
            ExitCode::from(Ending::Impossible.status())
        }
    }
}

/// Does what the words of the process ask for.
fn perform(rt: &HostRuntime) -> anyhow::Result<Ending> {
    let alloc = rt.alloc();
    take_closed_streams(rt);
    let words: Vec<String> = env::args(rt)?.collect(alloc)?;
    match read_task(alloc, &words) {
        Err(error) => {
            error.print(rt)?;
            Ok(ending_of_words(&error))
        }
        Ok(Task::Check { files }) => check::check(rt, &files),
        Ok(Task::Run(task)) => run_script(rt, &task),
        Ok(Task::Show { folder, json }) => show::show(rt, folder, json),
        Ok(Task::Verify { folder }) => verify::verify(rt, folder),
        Ok(Task::Shell { folder, limits }) => run_shell(rt, folder, limits),
    }
}

/// Loads a script and calls a function of it. The host is handed Tally, as the service that is registered, and as many
/// free Counters as the words say.
fn run_script(rt: &HostRuntime, task: &RunTask<'_>) -> anyhow::Result<Ending> {
    let mut pool: Vec<Box<dyn HostObject>> = Vec::new(rt.alloc());
    for _ in 0..task.limits.counters {
        pool.push(Box::new(rt.alloc(), Counter::new())?)?;
    }
    let mut services: Vec<Box<dyn HostObject>> = Vec::new(rt.alloc());
    services.push(Box::new(rt.alloc(), Tally::new())?)?;
    run::run(rt, task, pool, services)
}

/// Reads commands. The host is handed what it is for `run`.
fn run_shell(rt: &HostRuntime, folder: Option<&str>, limits: Limits) -> anyhow::Result<Ending> {
    let mut pool: Vec<Box<dyn HostObject>> = Vec::new(rt.alloc());
    for _ in 0..limits.counters {
        pool.push(Box::new(rt.alloc(), Counter::new())?)?;
    }
    let mut services: Vec<Box<dyn HostObject>> = Vec::new(rt.alloc());
    services.push(Box::new(rt.alloc(), Tally::new())?)?;
    shell::shell(rt, folder, limits, pool, services)
}
