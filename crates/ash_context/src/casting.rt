//! Instructions that ask for the class of an object: casts, and calls by an interface.
ghost use Rattle.std.specs.Prelude.{◌≡◌, ◌<◌};
ghost use Rattle.ash_code.specs.Performing.{perform};
ghost use Rattle.ash_context.specs.Asked.{call_through};
ghost use Rattle.ash_context.specs.Turns.{DoesIn};

use crate::calling::call_with;
use crate::classes::{cast, method_of};
use crate::storing::{store, word_at};
use crate::turning::Turn;
use ash_code::code::CodeParts;
use ash_code::instruction::Instruction;
use ash_host::{HostObject, Word};
use ash_run_steps::state::RunState;
use ash_run_steps::stop::Stop;
use ash_typed::ObjectType;

/// Gives an object if it is of a type, and else null.
pub(crate) fn cast_word<B: HostObject>(
    code: &CodeParts,
    state: &mut RunState<B>,
    at: usize,
    object_type: ObjectType,
    from: usize,
    to: usize,
) -> Result<Turn, Stop>
    requires within { at < usize.MAX }
    ensures does { DoesIn B.HostObject code.now (λ s. perform s (Instruction.Cast object_type from to)) at
        state.old result state.new }
{
    let word = cast(code, state, object_type, word_at(state, from));
    store(state, at, to, word)
}

// Calls the function that a method of an interface runs, of an object.
fn call_through<B: HostObject>(
    code: &CodeParts,
    state: &mut RunState<B>,
    at: usize,
    interface: usize,
    method: usize,
    number: u64,
    first: usize,
) -> Result<Turn, Stop>
    requires within { at < usize.MAX }
    ensures called { DoesIn B.HostObject code.now (λ s. call_through s interface method number first) at
        state.old result state.new }
{
    match method_of(code, state, interface, method, number) {
        Ok(function) => call_with(code, state, at, function, Word::Object(number), first),
        Err(stop) => Err(stop),
    }
}

/// Calls the method of an object that an interface names.
pub(crate) fn call_interface<B: HostObject>(
    code: &CodeParts,
    state: &mut RunState<B>,
    at: usize,
    interface: usize,
    method: usize,
    object: usize,
    first: usize,
) -> Result<Turn, Stop>
    requires within { at < usize.MAX }
    ensures does { DoesIn B.HostObject code.now
        (λ s. perform s (Instruction.CallInterface interface method object first)) at state.old result
        state.new }
{
    match state.object_of(word_at(state, object)) {
        Ok(number) => call_through(code, state, at, interface, method, number, first),
        Err(stop) => Err(stop),
    }
}
