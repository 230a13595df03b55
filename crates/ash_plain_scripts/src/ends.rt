//! How a run of a function, or of the initializers of a module, ends, and what it leaves.

ghost use Rattle.std.specs.Prelude.{◌≡◌, ◌++◌, map, IfOk, OnOk, Option};
ghost use Rattle.ash_host.specs.declared.word.Word.{Word as WordData};
ghost use Rattle.ash_typed.specs.BodyViews.{value_of as variable_of};
ghost use Rattle.ash_typed.specs.Modules.{variables_of};
ghost use Rattle.ash_typed.specs.Signatures.{type_declared, types_of_globals};
ghost use Rattle.ash_meaning.specs.OperatorMeaning.{zero_of};
ghost use Rattle.ash_meaning.specs.Activity.{Activity as ActivityData};
ghost use Rattle.ash_meaning.specs.Runs.{Progress};
ghost use Rattle.ash_meaning.specs.Ends.{outcome_of, begun, call_function, load_module};
ghost use Rattle.ash_plain_data.specs.ClassViews.{program_seen, callee_seen};
ghost use Rattle.ash_plain_data.specs.CallRuns.{RunsAs};
ghost use Rattle.ash_plain_world.specs.ActivityViews.{world_seen, frame_seen, activity_seen};
ghost use Rattle.ash_plain_scripts.specs.Entering.{function_run, without_value};
ghost use Rattle.ash_plain_scripts.specs.EndViews.{HasEnd, EndsAs};

use crate::functions::{body, initialize};
use ash_host::Word;
use ash_plain_data::classes::{ModuleCallee, Program, entry_of};
use ash_plain_data::operators::zero_of;
use ash_plain_data::run_error::{RunError, RunResult};
use ash_plain_world::activity::{Activity, Frame, World};
use ash_requests::Outcome;
use ash_typed::{Initialization, Variables};
use std::alloc::{AllocError, Global};

/// How a run ends, and the world that it leaves.
#[derive(Drop)]
pub struct RunEnd {
    pub outcome: Outcome,
    pub world: World,
}

/// How a run ends whose innermost frame is this one.
fn outcome_of(frame: Frame, value: RunResult<Option<Word>>) -> RunResult<Outcome>
    ensures outcome { (p : Progress (Option WordData)) (activity : ActivityData) → frame_seen frame
        ≡ activity.frame
        → RunsAs (λ v. v) value activity p → HasEnd result activity.world (outcome_of p) }
{
    match value {
        Ok(value) => Ok(Outcome::Finished(value)),
        Err(RunError::Raising(exception)) => Ok(Outcome::Exception {
            code: exception,
            function: frame.function,
            line: frame.line,
        }),
        Err(RunError::OutOfTicks) => Ok(Outcome::Aborted {
            function: frame.function,
            line: frame.line,
        }),
        Err(RunError::NoStep) => Err(RunError::NoStep),
        Err(RunError::NoMemory) => Err(RunError::NoMemory),
    }
}

/// How a run ends that came so far, and the world that it leaves. What was done before stays.
#[tactic(auto, unfolding(ash_plain_world::specs::ActivityViews::activity_seen))]
fn finish(activity: Activity, value: RunResult<Option<Word>>) -> RunResult<RunEnd>
    ensures outcome { (p : Progress (Option WordData))
        → RunsAs (λ v. v) value (activity_seen activity) p
        → EndsAs result (outcome_of p) }
{
    let Activity {
        alloc,
        mut world,
        ticks: _,
        frame,
        callers: _,
    } = activity;
    let outcome = outcome_of(frame, value)?;
    world.give_up_frames(alloc)?;
    Ok(RunEnd { outcome, world })
}

/// One frame, and no callers.
#[tactic(auto, unfolding(ash_plain_world::specs::ActivityViews::activity_seen))]
fn begun(alloc: Global, world: World, budget: u64, frame: Frame) -> Activity
    ensures value { activity_seen result ≡ begun (world_seen world) budget (frame_seen frame) }
{
    Activity {
        alloc,
        world,
        ticks: budget,
        frame,
        callers: Vec::new(alloc),
    }
}

/// Runs a function from its entry on.
fn run_function(
    program: &Program<'_>,
    budget: u64,
    activity: &mut Activity,
    line: usize,
    callee: ModuleCallee,
) -> RunResult<Option<Word>>
    ensures run { RunsAs (λ v. v) result (activity_seen activity.new)
        (function_run (program_seen program.now) budget line (callee_seen callee)
        (activity_seen activity.old)) }
{
    activity.tick(line)?;
    body(program, budget, activity, callee)
}

/// Calls the function at a place from outside, with the words of its arguments, and gives how that ends and the world
/// that it leaves.
#[tactic(auto, using(crate::proofs::Calling::call_is, crate::proofs::Calling::no_function))]
pub fn call_function(
    program: &Program<'_>,
    place: usize,
    args: Vec<Word>,
    budget: u64,
    world: World,
) -> RunResult<RunEnd>
    ensures outcome { EndsAs result
        (call_function (program_seen program.now) place args.items budget (world_seen world)) }
{
    let callee = ModuleCallee::Function(place);
    let Some(entry) = entry_of(program.alloc, program.tree, callee)? else {
        return Err(RunError::NoStep);
    };
    let line = entry.line;
    let frame = Frame {
        function: entry.name,
        line,
        this: Word::Null,
        locals: args,
        held: Vec::new(program.alloc),
    };
    let mut activity = begun(program.alloc, world, budget, frame);
    let value = run_function(program, budget, &mut activity, line, callee);
    finish(activity, value)
}

/// What the globals of a module are before its initializers run.
fn zeros(alloc: Global, declarations: &[Variables]) -> Result<Vec<Word>, AllocError>
    ensures value { IfOk result (λ words. words.items
        ≡ map zero_of (types_of_globals (map variables_of declarations.now))) }
{
    let mut words = Vec::new(alloc);
    for declaration in declarations {
        push_zeros(&mut words, &declaration.initializations)?;
    }
    Ok(words)
}

fn push_zeros(words: &mut Vec<Word>, globals: &[Initialization]) -> Result<(), AllocError>
    ensures value { OnOk result (words.new.items
        ≡ words.old.items ++ map zero_of (map type_declared (map variable_of globals.now))) }
{
    for global in globals {
        words.push(zero_of(global.of))?;
    }
    Ok(())
}

/// Runs the initializers of a module, and gives how that ends and the world that it leaves, with the globals of the
/// module.
pub fn load_module(program: &Program<'_>, budget: u64, world: World) -> RunResult<RunEnd>
    ensures outcome { EndsAs result
        (load_module (program_seen program.now) budget (world_seen world)) }
{
    let mut world = world;
    world.globals = zeros(program.alloc, &program.tree.globals)?;
    let frame = Frame {
        function: String::from_str(program.alloc, "(init)")?,
        line: 1,
        this: Word::Null,
        locals: Vec::new(program.alloc),
        held: Vec::new(program.alloc),
    };
    let mut activity = begun(program.alloc, world, budget, frame);
    let run = initialize(program, budget, &mut activity);
    finish(activity, no_value(run))
}

/// The same run, whose value is none.
fn no_value(run: RunResult<()>) -> RunResult<Option<Word>>
    ensures outcome { (p : Progress (Unit {0})) (activity : ActivityData)
        → RunsAs (λ _. tt) run activity p
        → RunsAs (λ v. v) result activity (without_value p) }
{
    run?;
    Ok(None)
}
