//! Scripts that are compiled and called.
ghost use Rattle.std.specs.Prelude.{◌≡◌, ◌++◌, ◌∷◌, [], All, IsTrue, IfOk};
ghost use Rattle.ash_host.specs.Objects.{handles};
ghost use Rattle.ash_run_steps.specs.RunStates.{HoldsRoots};

use crate::scripts::SCRIPTS;
use anyhow::Result;
use ash_code::code::Code;
use ash_compile::module::compile;
use ash_context::context::{Context, Left};
use ash_context::outcome::{Outcome, RunFault};
use ash_host::{HostObject, Word};
use ash_objects::Objects;
use ash_registry::Registry;
use ash_run_steps::beginning::Parts;
use ash_sources::sources::Sources;
use ash_typed::Module;
use std::alloc::{AllocError, Global};
use std::process::ExitCode;
use std::time::{Duration, Instant};

/// So many ticks that no script takes them all.
const BUDGET: u64 = u64::MAX;

/// What the scripts use of the host.
fn register(registry: &mut Registry) -> Result<()> {
    registry.object_type("Counter", 1)?;
    registry.factory("Counter", "Counter@ f(int)")?;
    registry.method("Counter", "int add(int)", 1)?;
    Ok(())
}

/// The scripts, if they are sound.
fn tree(alloc: Global) -> Option<Module> {
    let mut registry = Registry::new(alloc);
    register(&mut registry).ok()?;
    let sources = Sources {
        registry: &registry,
    };
    sources.read_tree(alloc, SCRIPTS.as_bytes()).ok()
}

/// The place of a function by its name.
fn place_of(tree: &Module, name: &str) -> Option<usize> {
    for (place, function) in tree.functions.iter().enumerate() {
        if function.name.as_str() == name {
            return Some(place);
        }
    }
    None
}

/// A number on the command line.
fn number_of(text: &str) -> Option<i32> {
    text.parse::<i32>().ok()
}

/// What the first run finds: the host objects, and the one global of the scripts.
fn beginning<B: HostObject>(
    alloc: Global,
    pool: Vec<B>,
    services: Vec<B>,
) -> Result<Parts<B>, AllocError>
    ensures held { IfOk result (λ parts. HoldsRoots parts.table
        (parts.outside.items ++ handles parts.globals.items)) }
{
    let mut globals = Vec::new(alloc);
    globals.push(Word::Int(0))?;
    Ok(Parts {
        table: Objects::new(alloc, pool, services),
        globals,
        outside: Vec::new(alloc),
        events: Vec::new(alloc),
    })
}

/// Calls a function with a number.
fn call<B: HostObject>(
    context: &mut Context,
    code: &Code,
    parts: Parts<B>,
    function: usize,
    number: i32,
) -> Left<B>
    requires held { HoldsRoots parts.table (parts.outside.items ++ handles parts.globals.items) }
    ensures held { HoldsRoots result.parts.table
        (result.parts.outside.items ++ handles result.parts.globals.items) }
{
    context.run(code, parts, function, &[Word::Int(number)], BUDGET)
}

/// Calls a function twice. How the second call ended, and how long it took.
fn call_twice<B: HostObject>(
    rt: &HostRuntime,
    context: &mut Context,
    code: &Code,
    parts: Parts<B>,
    function: usize,
    number: i32,
) -> Result<(Result<Outcome, RunFault>, Duration)>
    requires held { HoldsRoots parts.table (parts.outside.items ++ handles parts.globals.items) }
{
    let first = call(context, code, parts, function, number);
    let start = Instant::now(rt)?;
    let second = call(context, code, first.parts, function, number);
    let took = start.elapsed(rt)?;
    Ok((second.outcome, took))
}

/// Prints the name of a script, its value, how many seconds it took, and how many instructions it was.
fn report(
    rt: &HostRuntime,
    name: &str,
    outcome: Result<Outcome, RunFault>,
    took: Duration,
    steps: u128,
) -> Result<ExitCode> {
    let nanoseconds = took.as_nanos();
    let (seconds, rest) = (nanoseconds / 1_000_000_000, nanoseconds % 1_000_000_000);
    match outcome {
        Ok(Outcome::Finished(Some(Word::Int(value)))) => {
            println!(rt; "{name} {value} {seconds}.{rest:09} {steps}")?;
            Ok(ExitCode::SUCCESS)
        }
        _ => Ok(ExitCode::from(5)),
    }
}

/// Calls a function of the scripts with a number twice, and tells of the second call.
pub fn measure<B: HostObject>(
    rt: &HostRuntime,
    alloc: Global,
    pool: Vec<B>,
    services: Vec<B>,
    name: &str,
    number: &str,
) -> Result<ExitCode> {
    let Some(tree) = tree(alloc) else {
        return Ok(ExitCode::from(3));
    };
    let (Some(place), Some(number)) = (place_of(&tree, name), number_of(number)) else {
        return Ok(ExitCode::from(4));
    };
    let code = compile(alloc, &tree, 0)?;
    let mut context = Context::new(alloc, &code)?;
    let parts = beginning(alloc, pool, services)?;
    let (outcome, took) = call_twice(rt, &mut context, &code, parts, place, number)?;
    report(rt, name, outcome, took, context.steps())
}
