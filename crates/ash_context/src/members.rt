//! Globals and fields.
ghost use Rattle.std.specs.Prelude.{◌≡◌, ◌<◌, OnOk};
ghost use Rattle.ash_code.specs.Performing.{perform};
ghost use Rattle.ash_context.specs.Members as members;
ghost use Rattle.ash_context.specs.Turns.{Does, SameControl};
ghost use Rattle.ash_run_steps.specs.Becoming.{Comes};
ghost use Rattle.ash_run_steps.specs.RunStates.{Names};

use crate::storing::{held, store_given, word_at};
use crate::turning::{Turn, going_on};
use ash_code::instruction::Instruction;
use ash_host::{HostObject, Word};
use ash_run_steps::state::RunState;
use ash_run_steps::stop::Stop;

/// Reads a global, and holds its word.
#[inline(always)]
pub(crate) fn read_global<B: HostObject>(
    state: &mut RunState<B>,
    at: usize,
    place: usize,
    to: usize,
) -> Result<Turn, Stop>
    requires within { at < usize.MAX }
    ensures does { Does B.HostObject (λ s. perform s (Instruction.ReadGlobal place to)) at state.old
        result state.new }
{
    let word = state.read_global(place);
    let step = held(state, word);
    store_given(step, state, at, to)
}

/// Writes a global.
#[inline(always)]
pub(crate) fn write_global<B: HostObject>(
    state: &mut RunState<B>,
    at: usize,
    place: usize,
    from: usize,
) -> Result<Turn, Stop>
    requires within { at < usize.MAX }
    ensures does { Does B.HostObject (λ s. perform s (Instruction.WriteGlobal place from)) at state.old
        result state.new }
{
    let word = word_at(state, from);
    let step = state.write_global(place, word);
    going_on(step, at + 1)
}

/// Reads a field or an element of an object, and holds its word.
#[inline(always)]
pub(crate) fn part_held<B: HostObject>(
    state: &mut RunState<B>,
    number: u64,
    place: usize,
) -> Result<Word, Stop>
    ensures held { (names : Names) → Comes B.HostObject names (members.part_held number place) state.old
        result state.new }
    ensures same { OnOk result (SameControl state.old.frames state.new.frames) }
{
    let word = state.read_part(number, place);
    held(state, word)
}

// Reads a field of an object, and holds its word.
#[inline(always)]
fn field_held<B: HostObject>(
    state: &mut RunState<B>,
    object: Word,
    place: usize,
) -> Result<Word, Stop>
    ensures held { (names : Names) → Comes B.HostObject names (members.field_held object place) state.old
        result state.new }
    ensures same { OnOk result (SameControl state.old.frames state.new.frames) }
{
    match state.object_of(object) {
        Ok(number) => part_held(state, number, place),
        Err(stop) => Err(stop),
    }
}

/// Reads a field, and holds its word.
#[inline(always)]
pub(crate) fn read_field<B: HostObject>(
    state: &mut RunState<B>,
    at: usize,
    object: usize,
    place: usize,
    to: usize,
) -> Result<Turn, Stop>
    requires within { at < usize.MAX }
    ensures does { Does B.HostObject (λ s. perform s (Instruction.ReadField object place to)) at state.old
        result state.new }
{
    let object = word_at(state, object);
    let step = field_held(state, object, place);
    store_given(step, state, at, to)
}

// Writes a field of an object.
#[inline(always)]
fn field_written<B: HostObject>(
    state: &mut RunState<B>,
    object: Word,
    place: usize,
    word: Word,
) -> Result<(), Stop>
    ensures written { (names : Names) → Comes B.HostObject names (members.field_written object place word)
        state.old result state.new }
    ensures same { OnOk result (SameControl state.old.frames state.new.frames) }
{
    match state.object_of(object) {
        Ok(number) => state.write_part(number, place, word),
        Err(stop) => Err(stop),
    }
}

/// Writes a field.
#[inline(always)]
pub(crate) fn write_field<B: HostObject>(
    state: &mut RunState<B>,
    at: usize,
    object: usize,
    place: usize,
    from: usize,
) -> Result<Turn, Stop>
    requires within { at < usize.MAX }
    ensures does { Does B.HostObject (λ s. perform s (Instruction.WriteField object place from)) at
        state.old result state.new }
{
    let (object, word) = (word_at(state, object), word_at(state, from));
    let step = field_written(state, object, place, word);
    going_on(step, at + 1)
}

/// Writes a field of the object whose method runs.
#[inline(always)]
pub(crate) fn write_own_field<B: HostObject>(
    state: &mut RunState<B>,
    at: usize,
    place: usize,
    from: usize,
) -> Result<Turn, Stop>
    requires within { at < usize.MAX }
    ensures does { Does B.HostObject (λ s. perform s (Instruction.WriteOwnField place from)) at state.old
        result state.new }
{
    let (this, word) = (state.this(), word_at(state, from));
    let step = field_written(state, this, place, word);
    going_on(step, at + 1)
}
