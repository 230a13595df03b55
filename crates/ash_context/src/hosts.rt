//! Properties and calls of host objects, calls of services, and host objects that are constructed.
ghost use Rattle.std.specs.Prelude.{◌≡◌, ◌<◌, ◌≤◌, ◌+◌, length, take, drop};
ghost use Rattle.ash_code.specs.Performing.{perform};
ghost use Rattle.ash_context.specs.Asked.{property_of, property_set, answer_of};
ghost use Rattle.ash_context.specs.Turns.{Does};
ghost use Rattle.ash_run_steps.specs.Becoming.{Comes};
ghost use Rattle.ash_run_steps.specs.RunStates.{Names};

use crate::storing::{store_given, word_at};
use crate::turning::{Turn, going_on};
use ash_code::instruction::Instruction;
use ash_host::{HostObject, Word};
use ash_run_steps::state::RunState;
use ash_run_steps::stop::Stop;
use ash_typed::VarType;

// Slots from one on, so many of them.
#[derive(Clone, Copy)]
struct Row {
    first: usize,
    count: usize,
}

// Those of a row that the frame has.
fn row_of<B: HostObject>(state: &RunState<B>, first: usize, count: usize) -> Row
    ensures within { result.first + result.count ≤ length state.now.frames.frame.slots }
    ensures words { take result.count (drop result.first state.now.frames.frame.slots)
        ≡ take count (drop first state.now.frames.frame.slots) }
{
    let slots = state.slot_count();
    let first = first.min(slots);
    let count = count.min(slots - first);
    Row { first, count }
}

// The property of a host object. Null raises an exception.
fn property_of<B: HostObject>(
    state: &RunState<B>,
    object: Word,
    id: u16,
    of: VarType,
) -> Result<Word, Stop>
    ensures read { (names : Names) → Comes B.HostObject names (property_of object id of) state.now
        result state.now }
{
    match state.object_of(object) {
        Ok(number) => state.get_property(number, id, of),
        Err(stop) => Err(stop),
    }
}

/// Reads a property of a host object.
pub(crate) fn get_property<B: HostObject>(
    state: &mut RunState<B>,
    at: usize,
    object: usize,
    id: u16,
    var_type: VarType,
    to: usize,
) -> Result<Turn, Stop>
    requires within { at < usize.MAX }
    ensures does { Does B.HostObject (λ s. perform s (Instruction.GetProperty object id var_type to)) at
        state.old result state.new }
{
    let step = property_of(state, word_at(state, object), id, var_type);
    store_given(step, state, at, to)
}

// Writes the property of a host object. Null raises an exception.
fn property_set<B: HostObject>(
    state: &mut RunState<B>,
    object: Word,
    id: u16,
    word: Word,
) -> Result<(), Stop>
    ensures written { (names : Names) → Comes B.HostObject names (property_set object id word) state.old
        result state.new }
    ensures frames { state.new.frames ≡ state.old.frames }
{
    match state.object_of(object) {
        Ok(number) => state.set_property(number, id, word),
        Err(stop) => Err(stop),
    }
}

/// Writes a property of a host object.
pub(crate) fn set_property<B: HostObject>(
    state: &mut RunState<B>,
    at: usize,
    object: usize,
    id: u16,
    from: usize,
) -> Result<Turn, Stop>
    requires within { at < usize.MAX }
    ensures does { Does B.HostObject (λ s. perform s (Instruction.SetProperty object id from)) at state.old
        result state.new }
{
    let (object, word) = (word_at(state, object), word_at(state, from));
    let step = property_set(state, object, id, word);
    going_on(step, at + 1)
}

// What a method of a host object gives. Null raises an exception.
fn answer_of<B: HostObject>(
    state: &mut RunState<B>,
    object: Word,
    id: u16,
    declared: Option<VarType>,
    row: Row,
) -> Result<Word, Stop>
    requires within { row.first + row.count ≤ length state.old.frames.frame.slots }
    ensures answered { (names : Names) → Comes B.HostObject names (answer_of object id declared
        (take row.count (drop row.first state.old.frames.frame.slots))) state.old result state.new }
    ensures frames { state.new.frames ≡ state.old.frames }
{
    match state.object_of(object) {
        Ok(number) => state.invoke_host(number, id, declared, row.first, row.count),
        Err(stop) => Err(stop),
    }
}

/// Calls a method of a host object.
pub(crate) fn call_host<B: HostObject>(
    state: &mut RunState<B>,
    at: usize,
    object: usize,
    id: u16,
    declared: Option<VarType>,
    first: usize,
    count: usize,
) -> Result<Turn, Stop>
    requires within { at < usize.MAX }
    ensures does { Does B.HostObject (λ s. perform s (Instruction.CallHost object id declared first count)) at
        state.old result state.new }
{
    let row = row_of(state, first, count);
    let object = word_at(state, object);
    let step = answer_of(state, object, id, declared, row);
    store_given(step, state, at, first)
}

/// Calls a function of a service.
pub(crate) fn call_service<B: HostObject>(
    state: &mut RunState<B>,
    at: usize,
    service: u16,
    id: u16,
    declared: Option<VarType>,
    first: usize,
    count: usize,
) -> Result<Turn, Stop>
    requires within { at < usize.MAX }
    ensures does { Does B.HostObject (λ s. perform s (Instruction.CallService service id declared first count)) at
        state.old result state.new }
{
    let row = row_of(state, first, count);
    let step = state.invoke_service(service, id, declared, row.first, row.count);
    store_given(step, state, at, first)
}

/// Constructs a host object.
pub(crate) fn construct_host<B: HostObject>(
    state: &mut RunState<B>,
    at: usize,
    kind: u16,
    first: usize,
    count: usize,
) -> Result<Turn, Stop>
    requires within { at < usize.MAX }
    ensures does { Does B.HostObject (λ s. perform s (Instruction.ConstructHost kind first count)) at state.old
        result state.new }
{
    let row = row_of(state, first, count);
    let step = state.construct_host(kind, row.first, row.count);
    store_given(step, state, at, first)
}
