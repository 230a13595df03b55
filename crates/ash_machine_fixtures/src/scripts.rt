//! Scripts whose calls run on the machine and by the plain evaluator, with every budget.

use crate::boxes::{Pool, boxes_of, services_of};
use crate::machine::Machine;
use crate::noted::{Log, new_log};
use crate::pairs::{Compared, Pair, run_both};
use crate::plain::{Task, new_world};
use crate::registered::ODD;
use ash_example_kind::Buffer;
use ash_host::{Counter, HostObject, NoMemory, Word};
use ash_integers::word_from;
use ash_objects::Objects;
use ash_plain_world::activity::World;
use ash_typed::{Function, Module, VarType};
use std::alloc::{AllocError, Global};

/// What came of a script with some budget.
#[derive(Drop)]
pub struct Played {
    /// The first run whose ends differ, if there is one.
    pub fault: Option<String>,
    /// Whether some run was aborted.
    pub is_aborted: bool,
    /// What the last run left by the machine.
    pub last: String,
}

/// The kinds of free boxes, in their order.
pub fn kinds_of(alloc: Global, pool: Pool) -> Result<Vec<u16>, AllocError> {
    let mut kinds = Vec::new(alloc);
    for _ in 0..pool.counters {
        kinds.push(Counter::KIND)?;
    }
    for _ in 0..pool.buffers {
        kinds.push(Buffer::KIND)?;
    }
    for _ in 0..pool.odds {
        kinds.push(ODD)?;
    }
    Ok(kinds)
}

/// A text as a word of a type.
fn word_of(var_type: VarType, text: &str) -> Word {
    let number = text.parse::<i128>().unwrap_or(0);
    match var_type {
        VarType::Bool => Word::Bool(text == "true"),
        VarType::Integer(int_type) => word_from(int_type, number),
        VarType::Object(_) | VarType::Handle(_) => Word::Null,
    }
}

/// The function of a name, with its place.
pub fn function_of<'a>(tree: &'a Module, name: &str) -> Option<(usize, &'a Function)> {
    for (place, function) in tree.functions.iter().enumerate() {
        if function.name.as_str() == name {
            return Some((place, function));
        }
    }
    None
}

/// The function that a call names, with its place.
pub fn called_function<'a>(tree: &'a Module, call: &str) -> Option<(usize, &'a Function)> {
    let name = call.split(' ').next()?;
    function_of(tree, name)
}

/// The words of the arguments after the name of a function.
pub fn arguments_of(
    alloc: Global,
    function: &Function,
    call: &str,
) -> Result<Vec<Word>, AllocError> {
    let mut words = Vec::new(alloc);
    let mut texts = call.split(' ').skip(1);
    for parameter in &function.parameters {
        words.push(word_of(*parameter, texts.next().unwrap_or("")))?;
    }
    Ok(words)
}

fn fault_of(alloc: Global, call: &str, compared: &Compared) -> Result<Option<String>, AllocError> {
    if compared.found == compared.wanted {
        return Ok(None);
    }
    let text = format!(in alloc;
        "{call}\n  found  {}\n  wanted {}",
        compared.found, compared.wanted
    )?;
    Ok(Some(text))
}

/// What is compared of a call of a function that is not there.
fn no_function(alloc: Global, call: &str) -> Result<Compared, AllocError> {
    Ok(Compared {
        found: format!(in alloc; "no function {call}")?,
        wanted: String::new(alloc),
        is_aborted: false,
        is_ended: false,
    })
}

/// Runs one call on both.
fn call_both<B: HostObject>(
    alloc: Global,
    tree: &Module,
    pair: Pair<B>,
    log: &Log,
    call: &str,
    budget: u64,
) -> Result<(Option<Pair<B>>, Compared), NoMemory> {
    match called_function(tree, call) {
        Some((place, function)) => {
            let args = arguments_of(alloc, function, call)?;
            run_both(alloc, tree, pair, log, Task::Call(place, &args), budget)
        }
        None => Ok((None, no_function(alloc, call)?)),
    }
}

/// What has come of a script after a run, if some run before it was aborted or none.
fn played_of(
    alloc: Global,
    call: &str,
    was_aborted: bool,
    compared: Compared,
) -> Result<Played, AllocError> {
    Ok(Played {
        fault: fault_of(alloc, call, &compared)?,
        is_aborted: was_aborted || compared.is_aborted,
        last: compared.found,
    })
}

/// Runs the initializers on both. If they come to their end, calls can follow.
fn load_both<B: HostObject>(
    alloc: Global,
    tree: &Module,
    pair: Pair<B>,
    log: &Log,
    budget: u64,
) -> Result<(Option<Pair<B>>, Played), NoMemory> {
    let (pair, compared) = run_both(alloc, tree, pair, log, Task::Load, budget)?;
    let can_follow = compared.is_ended
        && !compared.is_aborted
        && !compared.found.starts_with("exception");
    let played = played_of(alloc, "load", false, compared)?;
    match can_follow && played.fault.is_none() {
        true => Ok((pair, played)),
        false => Ok((None, played)),
    }
}

/// Runs the initializers on both, and then calls, up to one whose ends differ.
fn play_both<B: HostObject>(
    alloc: Global,
    tree: &Module,
    pair: Pair<B>,
    log: &Log,
    calls: &[&str],
    budget: u64,
) -> Result<Played, NoMemory> {
    let (mut pair, mut played) = load_both(alloc, tree, pair, log, budget)?;
    for call in calls {
        let Some(both) = pair else {
            return Ok(played);
        };
        if played.fault.is_some() {
            return Ok(played);
        }
        let (after, compared) = call_both(alloc, tree, both, log, call, budget)?;
        pair = after;
        played = played_of(alloc, call, played.is_aborted, compared)?;
    }
    Ok(played)
}

/// What comes of a module that is not compiled.
fn not_compiled(alloc: Global) -> Result<Played, AllocError> {
    Ok(Played {
        fault: Some(String::from_str(alloc, "it is not compiled")?),
        is_aborted: false,
        last: String::new(alloc),
    })
}

/// Runs the initializers of a module, and then calls, on both, over a table and a world.
fn play_over<B: HostObject>(
    alloc: Global,
    tree: &Module,
    table: Objects<B>,
    world: World,
    log: &Log,
    calls: &[&str],
    budget: u64,
) -> Result<Played, NoMemory> {
    let Ok(machine) = Machine::new(alloc, tree, table) else {
        return Ok(not_compiled(alloc)?);
    };
    let pair = Pair {
        machine,
        world,
        numbers: Vec::new(alloc),
    };
    play_both(alloc, tree, pair, log, calls, budget)
}

/// Runs the initializers of a module, and then calls, on both with a budget for each.
pub fn play(
    alloc: Global,
    tree: &Module,
    pool: Pool,
    calls: &[&str],
    budget: u64,
) -> Result<Played, NoMemory> {
    let log = new_log(alloc)?;
    let boxes = boxes_of(alloc, &log, pool)?;
    let services = services_of(alloc, &log)?;
    let world = new_world(alloc, &kinds_of(alloc, pool)?)?;
    let table = Objects::new(alloc, boxes, services);
    play_over(alloc, tree, table, world, &log, calls, budget)
}
