//! Objects of classes that are constructed.
ghost use Rattle.std.specs.Prelude.{◌≡◌, ◌<◌, option_copied, slice_get};
ghost use Rattle.ash_code.specs.Performing.{perform, construct as construct_class};
ghost use Rattle.ash_context.specs.Asked.{new_object};
ghost use Rattle.ash_context.specs.Turns.{DoesIn};
ghost use Rattle.ash_run_steps.specs.Becoming.{Comes};
ghost use Rattle.ash_run_steps.specs.RunStates.{Names};

use crate::calling::enter_at;
use crate::turning::Turn;
use ash_code::code::{ClassCode, CodeParts};
use ash_code::instruction::Instruction;
use ash_host::{HostObject, Word};
use ash_run_steps::state::RunState;
use ash_run_steps::stop::Stop;

// A class, if there is one.
fn class_of(classes: &[ClassCode], class: usize) -> Option<&ClassCode>
    ensures class { option_copied result ≡ slice_get classes.now class }
{
    classes.get(class)
}

// A new object of a class, if there is room for the frame of its construction.
fn new_object<B: HostObject>(
    owner: u8,
    state: &mut RunState<B>,
    class: &ClassCode,
) -> Result<u64, Stop>
    ensures made { (names : Names) → Comes B.HostObject names (new_object (names.modules owner)
        class.now) state.old result state.new }
    ensures frames { state.new.frames ≡ state.old.frames }
{
    match state.demand_frame() {
        Ok(()) => state.make_script(owner, class.place, &class.fields),
        Err(stop) => Err(stop),
    }
}

// Constructs an object of a class.
fn construct_of<B: HostObject>(
    code: &CodeParts,
    state: &mut RunState<B>,
    at: usize,
    class: &ClassCode,
    first: usize,
) -> Result<Turn, Stop>
    requires within { at < usize.MAX }
    ensures constructs { DoesIn B.HostObject code.now (λ s c. construct_class s first c class.now) at state.old
        result state.new }
{
    match new_object(code.module, state, class) {
        Ok(number) => enter_at(
            code,
            state,
            at,
            class.construction,
            Word::Object(number),
            first,
        ),
        Err(stop) => Err(stop),
    }
}

/// Constructs an object of a class, if there is one.
pub(crate) fn construct<B: HostObject>(
    code: &CodeParts,
    state: &mut RunState<B>,
    at: usize,
    class: usize,
    first: usize,
) -> Result<Turn, Stop>
    requires within { at < usize.MAX }
    ensures does { DoesIn B.HostObject code.now (λ s. perform s (Instruction.Construct class first)) at
        state.old result state.new }
{
    match class_of(&code.classes, class) {
        Some(class) => construct_of(code, state, at, class, first),
        None => Err(Stop::Unsound),
    }
}
