//! The machine, with the memory that its runs use.
ghost use Rattle.std.specs.Prelude.{◌≡◌, ◌<◌, ◌≤◌, ◌++◌, ◌+◌, ◌↔◌, [], List, All, IsTrue, length, map, slice_get};
ghost use Rattle.std.specs.Prelude.{Option, Some, Err, IfOk, IfSome, OnOk};
ghost use Rattle.ash_code.specs.CompiledCode as compiled;
ghost use Rattle.ash_code.specs.CompiledCode.{IsCodeOf, IsSetFor, env_of};
ghost use Rattle.ash_code.specs.Performing.{Setting};
ghost use Rattle.ash_code.specs.Running as running;
ghost use Rattle.ash_code.specs.Sizes as sizes;
ghost use Rattle.ash_code.specs.Validity.{is_valid};
ghost use Rattle.ash_context.specs.Bounds as bounds;
ghost use Rattle.ash_context.specs.Outcomes.{Compiles, Says, Takes, TakesFromEntry, world_in};
ghost use Rattle.ash_context.specs.Positions.{control_of};
ghost use Rattle.ash_context.specs.RanOut.{CallRanOut, IsShort, LoadRanOut, RanOut};
ghost use Rattle.ash_host.specs.Objects.{handles};
ghost use Rattle.ash_host.specs.declared.word.Word.{Word};
ghost use Rattle.ash_host.specs.declared.word.Word.TheVariants as words;
ghost use Rattle.ash_meaning.specs.Activity.{World};
ghost use Rattle.ash_meaning.specs.Classes.{entry_of_function};
ghost use Rattle.ash_meaning.specs.Ends.{begun, call_entry, load_module, outcome_of};
ghost use Rattle.ash_meaning.specs.OperatorMeaning.{zero_of};
ghost use Rattle.ash_meaning.specs.Runs.{Run};
ghost use Rattle.ash_run_steps.specs.FrameChanges.{beginning_over};
ghost use Rattle.ash_run_steps.specs.RunStates.{HoldsRoots, frame_shown, is_alive_in};
ghost use Rattle.ash_run_steps.specs.Stacks.{locals_of};
ghost use Rattle.ash_soundness.specs.WellFormed as well_formed;
ghost use Rattle.ash_soundness.specs.WellFormed.{IsContext, IsWellFormed};
ghost use Rattle.ash_typed.specs.Modules.{Function};
ghost use Rattle.ash_typed.specs.Signatures.{types_of_globals};

use crate::ending::{Ended, finish};
use crate::looping;
use crate::outcome::{Outcome, RunFault};
use ash_code::code::{Code, CodeParts, FunctionCode};
use ash_host::{HostObject, NoMemory, Word};
use ash_run_steps::beginning::Parts;
use ash_run_steps::calling::MAX_FRAMES;
use ash_run_steps::stack::Stack;
use ash_run_steps::state::RunState;
use std::alloc::Global;
use std::marker::Model;
use std::mem::replace;

/// What a run leaves. Of a run that had no memory to begin it is what the run found.
#[derive(Drop)]
pub struct Left<B: HostObject = Box<dyn HostObject>> {
    pub parts: Parts<B>,
    pub outcome: Result<Outcome, RunFault>,
}

/// The machine that runs code: its stack, and how many instructions the last run did.
#[derive(Drop)]
pub struct Context {
    alloc: Global,
    stack: Stack,
    steps: u128,
}

impl Model for Context {
    ghost use Rattle.std.specs.Prelude.{ℕ};

    ghost Value = { ℕ };

    ghost view = { λ c. c.steps };
}

// The code of a function, or of the initializers.
fn code_of(code: &CodeParts, function: usize) -> &FunctionCode
    ensures code { result.now ≡ running.code_of code.now function }
{
    match code.functions.get(function) {
        Some(found) => found,
        None => &code.init,
    }
}

// How many slots all frames together use, if there are so many numbers.
fn slots_of_frames(code: &Code) -> Option<usize>
    ensures slots { IfSome result (λ slots. slots ≡ sizes.slots_of_frames code.now) }
{
    MAX_FRAMES.checked_mul(code.most_slots())
}

// The most instructions of a run with so many ticks.
fn bound(code: &Code, budget: u64) -> u128
    ensures bound { result ≡ bounds.bound code.now budget }
{
    (2 * budget as u128 + 2) * code.longest() as u128
}

// A run that has ended, and how many instructions it did.
#[derive(Drop)]
struct Done<B: HostObject> {
    ended: Ended<B>,
    steps: u128,
}

// Runs code on a stack whose only frame has been begun.
fn run_on<B: HostObject>(code: &Code, parts: Parts<B>, stack: Stack, budget: u64) -> Done<B>
    requires held { HoldsRoots parts.table (parts.outside.items ++ handles parts.globals.items) }
    requires first { stack.callers ≡ [] }
    requires this { stack.frame.this ≡ words.Null }
    requires bare { stack.frame.held ≡ [] }
    requires alive { All (λ word. IsTrue (is_alive_in word parts.table)) (locals_of stack.frame) }
    ensures says { (s : Setting) (run : Run (Option Word)) → s.code ≡ code.now
        → Compiles B.HostObject s (control_of 0 stack)
        (λ (world : World). begun world budget (frame_shown s.names stack.frame)) run parts
        → Says B.HostObject s.names
        (λ (world : World). outcome_of (run (begun world budget (frame_shown s.names stack.frame))))
        (λ (world : World). Takes s (control_of 0 stack)
        (begun world budget (frame_shown s.names stack.frame)) result.steps) parts
        result.ended.outcome result.ended.parts }
    ensures held { HoldsRoots result.ended.parts.table
        (result.ended.parts.outside.items ++ handles result.ended.parts.globals.items) }
    ensures begun { result.ended.outcome ≡ Err RunFault.NotBegun → ⊥ }
    ensures bounded { result.steps ≤ bounds.bound code.now budget }
    ensures some { 0 < result.steps }
    ensures ran_out { (s : Setting) (run : Run (Option Word)) → s.code ≡ code.now
        → Compiles B.HostObject s (control_of 0 stack)
        (λ (world : World). begun world budget (frame_shown s.names stack.frame)) run parts
        → result.ended.outcome ≡ Err RunFault.NoMemory
        → RanOut B.HostObject s.names (λ (world : World). IsShort s (control_of 0 stack)
        (begun world budget (frame_shown s.names stack.frame)) result.steps) parts }
{
    code.facts();
    let mut state = RunState::begin(parts, stack, budget);
    let ran = looping::run(code, &mut state, 0, bound(code, budget));
    Done {
        ended: finish(state, ran.end),
        steps: ran.steps,
    }
}

// Begins a stack with the frame of a function of the code, and slots for all frames.
fn begin_on(stack: &mut Stack, code: &Code, function: usize, args: &[Word]) -> Result<(), NoMemory>
    ensures begun { OnOk result ((rest : List Word)
        × (stack.new ≡ beginning_over function (running.code_of code.now function).line args.now rest)
        × (sizes.slots_of_frames code.now ≤ length args.now + length rest)) }
    ensures valid { IsTrue (is_valid code.now) }
{
    let parts = code.parts();
    let slots = slots_of_frames(code).ok_or(NoMemory)?;
    let line = code_of(parts, function).line;
    stack.begin(function, line, args, slots)
}

impl Context {
    /// A machine with memory for the deepest run of the code: for as many frames as there may be, each as wide as the
    /// widest. Objects that frames hold may still take memory while it runs.
    pub fn new(alloc: Global, code: &Code) -> Result<Context, NoMemory>
        ensures none { IfOk result (λ context. context ≡ 0) }
    {
        let slots = slots_of_frames(code).ok_or(NoMemory)?;
        Ok(Context {
            alloc,
            stack: Stack::reserve(alloc, slots, MAX_FRAMES - 1)?,
            steps: 0,
        })
    }

    /// How many instructions the last run did; none before the first.
    pub fn steps(&self) -> u128
        ensures steps { result ≡ self.now }
    {
        self.steps
    }

    /// Runs a function of the code with these arguments and so many ticks; the place behind the last function is that
    /// of the initializers. If the code is that of a sound module, the outcome is the one that its meaning says, and so
    /// is the world that is left, and the code comes to them in as many instructions as are counted. If memory ran out
    /// after the first was begun, the one in which it ran out is counted too.
    pub fn run<B: HostObject>(
        &mut self,
        code: &Code,
        parts: Parts<B>,
        function: usize,
        args: &[Word],
        budget: u64,
    ) -> Left<B>
        requires held { HoldsRoots parts.table (parts.outside.items ++ handles parts.globals.items) }
        requires alive { All (λ word. IsTrue (is_alive_in word parts.table)) args.now }
        ensures called { (c : well_formed.Context) (s : Setting) (f : Function) → IsContext c
            → IsCodeOf code.now c → IsSetFor code.now c s
            → slice_get c.program.tree.functions function ≡ Some f
            → IsWellFormed c (env_of c f.parameters) []
            (compiled.first_of_function f args.now budget (world_in B.HostObject s.names [] parts))
            → Says B.HostObject s.names
            (λ (world : World). call_entry c.program args.now budget world (entry_of_function f))
            (λ (world : World). TakesFromEntry s function args.now
            (compiled.first_of_function f args.now budget world) self.new) parts
            result.outcome result.parts }
        ensures loaded { (c : well_formed.Context) (s : Setting) → IsContext c → IsCodeOf code.now c
            → IsSetFor code.now c s → function ≡ length code.now.functions.items → args.now ≡ []
            → parts.globals.items ≡ map zero_of (types_of_globals c.program.tree.globals)
            → IsWellFormed c (env_of c []) []
            (compiled.first_of_load c.program.tree budget (world_in B.HostObject s.names [] parts))
            → Says B.HostObject s.names (λ (world : World). load_module c.program budget world)
            (λ (world : World). TakesFromEntry s function []
            (compiled.first_of_load c.program.tree budget world) self.new) parts
            result.outcome result.parts }
        ensures unchanged { result.outcome ≡ Err RunFault.NotBegun → (result.parts ≡ parts) × (self.new ≡ 0) }
        ensures held { HoldsRoots result.parts.table
            (result.parts.outside.items ++ handles result.parts.globals.items) }
        ensures bounded { self.new ≤ bounds.bound code.now budget }
        // A run that began did an instruction, or began one in which memory ran out.
        ensures begun { result.outcome ≡ Err RunFault.NotBegun ↔ self.new ≡ 0 }
        // If memory ran out, the run means no fewer instructions than are counted.
        ensures call_ran_out { result.outcome ≡ Err RunFault.NoMemory
            → CallRanOut B.HostObject code.now parts function args.now budget self.new }
        ensures load_ran_out { result.outcome ≡ Err RunFault.NoMemory
            → LoadRanOut B.HostObject code.now parts function args.now budget self.new }
    {
        self.steps = 0;
        match begin_on(&mut self.stack, code, function, args) {
            Ok(()) => {
                let stack = replace(&mut self.stack, Stack::new(self.alloc));
                let Done { ended, steps } = run_on(code, parts, stack, budget);
                let Ended {
                    outcome,
                    parts,
                    stack,
                } = ended;
                self.stack = stack;
                self.steps = steps;
                Left { parts, outcome }
            }
            Err(_) => Left {
                parts,
                outcome: Err(RunFault::NotBegun),
            },
        }
    }
}
