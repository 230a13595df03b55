//! Elements of arrays.
ghost use Rattle.std.specs.Prelude.{◌≡◌, ◌<◌, OnOk};
ghost use Rattle.ash_code.specs.Performing.{perform};
ghost use Rattle.ash_context.specs.Members as members;
ghost use Rattle.ash_context.specs.Turns.{Does, SameControl};
ghost use Rattle.ash_run_steps.specs.Becoming.{Comes};
ghost use Rattle.ash_run_steps.specs.RunStates.{Names};

use crate::members::part_held;
use crate::storing::{store_given, word_at};
use crate::turning::{Turn, going_on};
use ash_code::instruction::Instruction;
use ash_host::{HostObject, Word};
use ash_run_steps::state::RunState;
use ash_run_steps::stop::Stop;

// Reads an element by an index, and holds its word.
#[inline(always)]
fn element_held<B: HostObject>(
    state: &mut RunState<B>,
    array: Word,
    index: Word,
) -> Result<Word, Stop>
    ensures held { (names : Names) → Comes B.HostObject names (members.element_held array index) state.old
        result state.new }
    ensures same { OnOk result (SameControl state.old.frames state.new.frames) }
{
    match state.element_at(array, index) {
        Ok(element) => part_held(state, element.number, element.place),
        Err(stop) => Err(stop),
    }
}

/// Reads an element, and holds its word.
#[inline(always)]
pub(crate) fn read_element<B: HostObject>(
    state: &mut RunState<B>,
    at: usize,
    array: usize,
    index: usize,
    to: usize,
) -> Result<Turn, Stop>
    requires within { at < usize.MAX }
    ensures does { Does B.HostObject (λ s. perform s (Instruction.ReadElement array index to)) at state.old
        result state.new }
{
    let (array, index) = (word_at(state, array), word_at(state, index));
    let step = element_held(state, array, index);
    store_given(step, state, at, to)
}

// Writes an element by an index.
#[inline(always)]
fn element_written<B: HostObject>(
    state: &mut RunState<B>,
    array: Word,
    index: Word,
    word: Word,
) -> Result<(), Stop>
    ensures written { (names : Names) → Comes B.HostObject names (members.element_written array index word)
        state.old result state.new }
    ensures same { OnOk result (SameControl state.old.frames state.new.frames) }
{
    match state.element_at(array, index) {
        Ok(element) => state.write_part(element.number, element.place, word),
        Err(stop) => Err(stop),
    }
}

/// Writes an element.
#[inline(always)]
pub(crate) fn write_element<B: HostObject>(
    state: &mut RunState<B>,
    at: usize,
    array: usize,
    index: usize,
    from: usize,
) -> Result<Turn, Stop>
    requires within { at < usize.MAX }
    ensures does { Does B.HostObject (λ s. perform s (Instruction.WriteElement array index from)) at
        state.old result state.new }
{
    let (array, index) = (word_at(state, array), word_at(state, index));
    let word = word_at(state, from);
    let step = element_written(state, array, index, word);
    going_on(step, at + 1)
}
