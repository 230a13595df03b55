//! The machine beside the plain evaluator.

use crate::machine::{Machine, Ran};
use crate::noted::{Log, Notes, take_notes};
use crate::numbering::{number_boxes, numbers_of, starved, with_numbers};
use crate::plain::{Task, run};
use crate::texts::{NAME, machine_text, plain_text};
use ash_context::outcome::{Outcome, RunFault};
use ash_host::{HostObject, NoMemory};
use ash_plain_data::classes::Program;
use ash_plain_data::host_call::HostRecord;
use ash_plain_data::run_error::RunError;
use ash_plain_scripts::ends::RunEnd;
use ash_plain_world::activity::World;
use ash_requests::Outcome as PlainOutcome;
use ash_typed::Module;
use std::alloc::{AllocError, Global};
use std::collections::VecDeque;

/// Both, after the same runs, and the numbers that boxes got, each after the name of the box.
#[derive(Drop)]
pub struct Pair<B: HostObject> {
    pub machine: Machine<B>,
    pub world: World,
    pub numbers: Vec<(u64, u64)>,
}

/// What the last run left, by the machine and by the plain evaluator.
#[derive(Drop)]
pub struct Compared {
    pub found: String,
    pub wanted: String,
    /// Whether the run was aborted.
    pub is_aborted: bool,
    /// Whether it ended otherwise than by a fault.
    pub is_ended: bool,
}

fn is_aborted(outcome: Result<Outcome, RunFault>) -> bool {
    matches!(outcome, Ok(Outcome::Aborted { .. }))
}

/// What a run of the machine did: how it ended, and what it left; what hosts answered in it; and whether one of them
/// had no memory.
#[derive(Drop)]
struct MachineRun {
    outcome: Result<Outcome, RunFault>,
    found: String,
    records: VecDeque<HostRecord>,
    is_starved: bool,
}

/// What a run did that has ended so, by what boxes noted.
fn noted_run<B: HostObject>(
    alloc: Global,
    tree: &Module,
    machine: &Machine<B>,
    outcome: Result<Outcome, RunFault>,
    numbers: &mut Vec<(u64, u64)>,
    log: &Log,
) -> Result<MachineRun, NoMemory> {
    let Notes {
        records,
        gone,
        is_short,
        ..
    } = take_notes(alloc, log);
    number_boxes(numbers, &records, &machine.parts().events)?;
    let gone = numbers_of(alloc, &gone, numbers)?;
    let mut found = machine_text(alloc, tree, outcome, machine.parts(), &gone)?;
    if is_short {
        found.push_str(" (a note is missing)")?;
    }
    let is_starved = starved(&records);
    Ok(MachineRun {
        outcome,
        found,
        records: with_numbers(alloc, records, numbers)?,
        is_starved,
    })
}

/// What a run of the plain evaluator left, which ended so.
fn wanted_text(alloc: Global, outcome: &PlainOutcome, world: &World) -> Result<String, AllocError> {
    let mut wanted = plain_text(alloc, outcome, world)?;
    if !world.answers.is_empty() {
        wanted.push_str(" (answers are left)")?;
    }
    Ok(wanted)
}

/// What is wanted of a run of which the plain evaluator says nothing: an error, but if a host had no memory what was
/// found, which is that too.
fn wanted_of_none(
    alloc: Global,
    error: RunError,
    is_starved: bool,
    outcome: Result<Outcome, RunFault>,
    found: &str,
) -> Result<String, AllocError> {
    match (is_starved, outcome) {
        (true, Err(RunFault::NoMemory)) => String::from_str(alloc, found),
        _ => format!(in alloc; "plain error {error:?}"),
    }
}

/// Runs a task by the plain evaluator, where hosts answer what they answered the machine. The world is the one that it
/// leaves, if it says what becomes of the task.
fn run_plain(
    alloc: Global,
    tree: &Module,
    world: World,
    did: MachineRun,
    task: Task<'_>,
    budget: u64,
) -> Result<(Option<World>, Compared), NoMemory> {
    let MachineRun {
        outcome,
        found,
        records,
        is_starved,
    } = did;
    let program = Program {
        alloc,
        name: NAME,
        tree,
    };
    match run(&program, task, budget, world, records) {
        Ok(
            RunEnd {
                outcome: end,
                world,
            },
        ) => {
            let compared = Compared {
                wanted: wanted_text(alloc, &end, &world)?,
                found,
                is_aborted: is_aborted(outcome),
                is_ended: outcome.is_ok(),
            };
            Ok((Some(world), compared))
        }
        Err(error) => {
            let compared = Compared {
                wanted: wanted_of_none(alloc, error, is_starved, outcome, found.as_str())?,
                found,
                is_aborted: false,
                is_ended: false,
            };
            Ok((None, compared))
        }
    }
}

fn run_machine<B: HostObject>(machine: Machine<B>, task: Task<'_>, budget: u64) -> Ran<B> {
    match task {
        Task::Load => machine.load(budget),
        Task::Call(place, args) => machine.run(place, args, budget),
    }
}

/// Runs a task on both.
pub fn run_both<B: HostObject>(
    alloc: Global,
    tree: &Module,
    pair: Pair<B>,
    log: &Log,
    task: Task<'_>,
    budget: u64,
) -> Result<(Option<Pair<B>>, Compared), NoMemory> {
    let Pair {
        machine,
        world,
        mut numbers,
    } = pair;
    let (machine, outcome) = run_machine(machine, task, budget);
    let did = noted_run(alloc, tree, &machine, outcome, &mut numbers, log)?;
    let (world, compared) = run_plain(alloc, tree, world, did, task, budget)?;
    let pair = match world {
        Some(world) => Some(Pair {
            machine,
            world,
            numbers,
        }),
        None => None,
    };
    Ok((pair, compared))
}
