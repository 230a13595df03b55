//! Arrays: how they are made, and their methods.
ghost use Rattle.std.specs.Prelude.{◌≡◌, ◌<◌, OnOk};
ghost use Rattle.ash_code.specs.Performing.{perform};
ghost use Rattle.ash_context.specs.Members as members;
ghost use Rattle.ash_context.specs.Turns.{Does, SameControl};
ghost use Rattle.ash_run_steps.specs.Becoming.{Comes};
ghost use Rattle.ash_run_steps.specs.RunStates.{Names};

use crate::storing::{store_given, store_null, word_at};
use crate::turning::Turn;
use ash_code::instruction::Instruction;
use ash_host::{ElementTag, HostObject, Word};
use ash_run_steps::state::RunState;
use ash_run_steps::stop::Stop;

/// Constructs an array with no elements.
pub(crate) fn construct_array<B: HostObject>(
    state: &mut RunState<B>,
    at: usize,
    element: ElementTag,
    to: usize,
) -> Result<Turn, Stop>
    requires within { at < usize.MAX }
    ensures does { Does B.HostObject (λ s. perform s (Instruction.ConstructArray element to)) at state.old
        result state.new }
{
    let step = state.construct_array(element, Word::Uint(0));
    store_given(step, state, at, to)
}

/// Constructs an array of so many elements.
pub(crate) fn construct_array_of<B: HostObject>(
    state: &mut RunState<B>,
    at: usize,
    element: ElementTag,
    len: usize,
    to: usize,
) -> Result<Turn, Stop>
    requires within { at < usize.MAX }
    ensures does { Does B.HostObject (λ s. perform s (Instruction.ConstructArrayOf element len to)) at
        state.old result state.new }
{
    let len = word_at(state, len);
    let step = state.construct_array(element, len);
    store_given(step, state, at, to)
}

// How many elements an array has.
fn length_of<B: HostObject>(state: &RunState<B>, array: Word) -> Result<Word, Stop>
    ensures length { (names : Names) → Comes B.HostObject names (members.length_of array) state.now result
        state.now }
{
    match state.object_of(array) {
        Ok(number) => Ok(state.array_length(number)),
        Err(stop) => Err(stop),
    }
}

/// Gives how many elements an array has.
pub(crate) fn array_length<B: HostObject>(
    state: &mut RunState<B>,
    at: usize,
    array: usize,
    to: usize,
) -> Result<Turn, Stop>
    requires within { at < usize.MAX }
    ensures does { Does B.HostObject (λ s. perform s (Instruction.Length array to)) at state.old result
        state.new }
{
    let array = word_at(state, array);
    let step = length_of(state, array);
    store_given(step, state, at, to)
}

// Whether an array has no elements.
fn emptiness_of<B: HostObject>(state: &RunState<B>, array: Word) -> Result<Word, Stop>
    ensures empty { (names : Names) → Comes B.HostObject names (members.emptiness_of array) state.now result
        state.now }
{
    match state.object_of(array) {
        Ok(number) => Ok(state.array_is_empty(number)),
        Err(stop) => Err(stop),
    }
}

/// Gives whether an array has no elements.
pub(crate) fn array_is_empty<B: HostObject>(
    state: &mut RunState<B>,
    at: usize,
    array: usize,
    to: usize,
) -> Result<Turn, Stop>
    requires within { at < usize.MAX }
    ensures does { Does B.HostObject (λ s. perform s (Instruction.IsEmpty array to)) at state.old result
        state.new }
{
    let array = word_at(state, array);
    let step = emptiness_of(state, array);
    store_given(step, state, at, to)
}

// Gives an array so many elements.
fn resized<B: HostObject>(state: &mut RunState<B>, array: Word, count: Word) -> Result<(), Stop>
    ensures resized { (names : Names) → Comes B.HostObject names (members.resized array count) state.old
        result state.new }
    ensures same { OnOk result (SameControl state.old.frames state.new.frames) }
{
    match state.object_of(array) {
        Ok(number) => state.resize_array(number, count),
        Err(stop) => Err(stop),
    }
}

/// Gives an array so many elements, and stores null.
pub(crate) fn resize<B: HostObject>(
    state: &mut RunState<B>,
    at: usize,
    array: usize,
    len: usize,
    to: usize,
) -> Result<Turn, Stop>
    requires within { at < usize.MAX }
    ensures does { Does B.HostObject (λ s. perform s (Instruction.Resize array len to)) at state.old result
        state.new }
{
    let (array, len) = (word_at(state, array), word_at(state, len));
    let step = resized(state, array, len);
    store_null(step, state, at, to)
}

// Appends an element to an array.
fn inserted<B: HostObject>(state: &mut RunState<B>, array: Word, word: Word) -> Result<(), Stop>
    ensures inserted { (names : Names) → Comes B.HostObject names (members.inserted array word) state.old
        result state.new }
    ensures same { OnOk result (SameControl state.old.frames state.new.frames) }
{
    match state.object_of(array) {
        Ok(number) => state.insert_last(number, word),
        Err(stop) => Err(stop),
    }
}

/// Appends an element to an array, and stores null.
pub(crate) fn insert_last<B: HostObject>(
    state: &mut RunState<B>,
    at: usize,
    array: usize,
    from: usize,
    to: usize,
) -> Result<Turn, Stop>
    requires within { at < usize.MAX }
    ensures does { Does B.HostObject (λ s. perform s (Instruction.InsertLast array from to)) at state.old
        result state.new }
{
    let (array, word) = (word_at(state, array), word_at(state, from));
    let step = inserted(state, array, word);
    store_null(step, state, at, to)
}

// Takes the last element of an array away.
fn removed<B: HostObject>(state: &mut RunState<B>, array: Word) -> Result<(), Stop>
    ensures removed { (names : Names) → Comes B.HostObject names (members.removed array) state.old result
        state.new }
    ensures same { OnOk result (SameControl state.old.frames state.new.frames) }
{
    match state.object_of(array) {
        Ok(number) => state.remove_last(number),
        Err(stop) => Err(stop),
    }
}

/// Takes the last element of an array away, and stores null.
pub(crate) fn remove_last<B: HostObject>(
    state: &mut RunState<B>,
    at: usize,
    array: usize,
    to: usize,
) -> Result<Turn, Stop>
    requires within { at < usize.MAX }
    ensures does { Does B.HostObject (λ s. perform s (Instruction.RemoveLast array to)) at state.old result
        state.new }
{
    let array = word_at(state, array);
    let step = removed(state, array);
    store_null(step, state, at, to)
}
