//! Calls.
ghost use Rattle.std.specs.Prelude.{◌≡◌, ◌<◌, ◌≤◌, ◌+◌, ◌&&◌, ℕ, nat_le, length, slice_get, option_map};
ghost use Rattle.ash_code.specs.Performing.{Setting, perform, call, enter_at};
ghost use Rattle.ash_context.specs.Calls.{entry_in, enter_entry};
ghost use Rattle.ash_context.specs.Turns.{Does, DoesIn};
ghost use Rattle.ash_host.specs.declared.word.Word.TheVariants as words;

use crate::storing::word_at;
use crate::turning::{Turn, going_on};
use ash_code::code::{CodeParts, FunctionCode};
use ash_code::instruction::Instruction;
use ash_host::{HostObject, Word};
use ash_run_steps::state::RunState;
use ash_run_steps::stop::Stop;

/// What a call knows of a function: the line of its entry, and how many parameters it has.
#[derive(Clone, Copy)]
pub(crate) struct Entry {
    pub(crate) line: u32,
    pub(crate) parameters: usize,
}

// The entry of a function, if there is one.
#[inline(always)]
fn entry_of(functions: &[FunctionCode], function: usize) -> Option<Entry>
    ensures entry { result ≡ option_map entry_in (slice_get functions.now function) }
{
    match functions.get(function) {
        Some(callee) => Some(Entry {
            line: callee.line,
            parameters: callee.parameters,
        }),
        None => None,
    }
}

// Whether arguments are in slots of the frame that are no locals.
#[inline(always)]
fn has_room<B: HostObject>(state: &RunState<B>, first: usize, parameters: usize) -> bool
    ensures room { result ≡ nat_le state.now.frames.frame.count first
        && nat_le (first + parameters) (length state.now.frames.frame.slots) }
{
    let slots = state.slot_count();
    state.local_count() <= first && first <= slots && parameters <= slots - first
}

// Enters a function, if its arguments are in slots that are no locals.
#[inline(always)]
fn enter<B: HostObject>(
    entry: Entry,
    state: &mut RunState<B>,
    at: usize,
    function: usize,
    this: Word,
    first: usize,
) -> Result<Turn, Stop>
    requires within { at < usize.MAX }
    ensures entered { Does B.HostObject (λ s c. enter_entry s function this first c entry) at state.old
        result state.new }
{
    if !has_room(state, first, entry.parameters) {
        return Err(Stop::Unsound);
    }
    let step = state.enter(function, entry.line, this, at + 1, first, entry.parameters);
    going_on(step, 0)
}

/// Enters a function, if there is one.
#[inline(always)]
pub(crate) fn enter_at<B: HostObject>(
    code: &CodeParts,
    state: &mut RunState<B>,
    at: usize,
    function: usize,
    this: Word,
    first: usize,
) -> Result<Turn, Stop>
    requires within { at < usize.MAX }
    ensures entered { DoesIn B.HostObject code.now (λ s. enter_at s function this first) at state.old
        result state.new }
{
    match entry_of(&code.functions, function) {
        Some(entry) => enter(entry, state, at, function, this, first),
        None => Err(Stop::Unsound),
    }
}

/// Calls a function or a method.
#[inline(always)]
pub(crate) fn call_with<B: HostObject>(
    code: &CodeParts,
    state: &mut RunState<B>,
    at: usize,
    function: usize,
    this: Word,
    first: usize,
) -> Result<Turn, Stop>
    requires within { at < usize.MAX }
    ensures called { DoesIn B.HostObject code.now (λ s. call s function this first) at state.old
        result state.new }
{
    match state.demand_frame() {
        Ok(()) => enter_at(code, state, at, function, this, first),
        Err(stop) => Err(stop),
    }
}

/// Calls a function.
#[inline(always)]
pub(crate) fn call<B: HostObject>(
    code: &CodeParts,
    state: &mut RunState<B>,
    at: usize,
    function: usize,
    first: usize,
) -> Result<Turn, Stop>
    requires within { at < usize.MAX }
    ensures does { DoesIn B.HostObject code.now (λ s. perform s (Instruction.Call function first)) at
        state.old result state.new }
{
    call_with(code, state, at, function, Word::Null, first)
}

/// Calls a method of an object.
#[inline(always)]
pub(crate) fn call_method<B: HostObject>(
    code: &CodeParts,
    state: &mut RunState<B>,
    at: usize,
    function: usize,
    object: usize,
    first: usize,
) -> Result<Turn, Stop>
    requires within { at < usize.MAX }
    ensures does { DoesIn B.HostObject code.now
        (λ s. perform s (Instruction.CallMethod function object first)) at state.old result state.new }
{
    match state.object_of(word_at(state, object)) {
        Ok(number) => call_with(code, state, at, function, Word::Object(number), first),
        Err(stop) => Err(stop),
    }
}
