//! Words that are read from slots, and stored in them.
ghost use Rattle.std.specs.Prelude.{◌≡◌, ◌<◌, ◌≤◌, ℕ, List, length, slice_index_or, OnOk, IfSome};
ghost use Rattle.ash_code.specs.Controls.{Control};
ghost use Rattle.ash_code.specs.Performing.{Setting, put};
ghost use Rattle.ash_code.specs.Steps.{give_held};
ghost use Rattle.ash_context.specs.Composed.{putting, putting_null};
ghost use Rattle.ash_context.specs.Positions.{control_of, came_to};
ghost use Rattle.ash_context.specs.Turns.{Does, SameControl};
ghost use Rattle.ash_host.specs.declared.word.Word.{Word};
ghost use Rattle.ash_host.specs.declared.word.Word.TheVariants as words;
ghost use Rattle.ash_host.specs.Records.{HostRecord};
ghost use Rattle.ash_run_steps.specs.Becoming.{Comes};
ghost use Rattle.ash_run_steps.specs.FrameChanges.{in_running, with_word};
ghost use Rattle.ash_run_steps.specs.Guarded.{Guarded};
ghost use Rattle.ash_run_steps.specs.RunStates.{Names, State, shown};

use crate::turning::{Turn, going_on};
use ash_host::{HostObject, Word};
use ash_run_steps::state::RunState;
use ash_run_steps::stop::Stop;

/// The word in a slot; null past the last.
#[inline(always)]
pub(crate) fn word_at<B: HostObject>(state: &RunState<B>, slot: usize) -> Word
    ensures word { result ≡ slice_index_or state.now.frames.frame.slots slot words.Null }
{
    state.slot(slot).unwrap_or(Word::Null)
}

/// The number in a slot, if it is of type `int`.
#[inline(always)]
pub(crate) fn int_at<B: HostObject>(state: &RunState<B>, slot: usize) -> Option<i32>
    ensures int { IfSome result
        (λ number. slice_index_or state.now.frames.frame.slots slot words.Null ≡ words.Int number) }
{
    match word_at(state, slot) {
        Word::Int(number) => Some(number),
        _ => None,
    }
}

// Stores a word in a local.
#[inline(always)]
fn put_local<B: HostObject>(
    state: &mut RunState<B>,
    at: usize,
    to: usize,
    word: Word,
) -> Result<Turn, Stop>
    requires slot { to < state.old.frames.frame.count }
    requires within { at < usize.MAX }
    ensures put { Does B.HostObject (λ _ c. put to c word) at state.old result state.new }
{
    let step = state.write_local(to, word);
    going_on(step, at + 1)
}

/// Writes a word into a slot that is no local. Past the last slot nothing is written.
#[inline(always)]
pub(crate) fn write_slot<B: HostObject>(state: &mut RunState<B>, slot: usize, word: Word)
    requires above { state.old.frames.frame.count ≤ slot }
    ensures same { (names : Names) (rest : List HostRecord) → shown B.HostObject names rest state.new
        ≡ shown B.HostObject names rest state.old }
    ensures written { state.new ≡ record state.old {
      frames = in_running (with_word slot word) state.old.frames;
    } }
{
    if slot < state.slot_count() {
        state.set_slot(slot, word);
    }
}

// Stores a word in a slot that is no local.
#[inline(always)]
fn put_temporary<B: HostObject>(
    state: &mut RunState<B>,
    at: usize,
    to: usize,
    word: Word,
) -> Result<Turn, Stop>
    requires above { state.old.frames.frame.count ≤ to }
    requires within { at < usize.MAX }
    ensures put { Does B.HostObject (λ _ c. put to c word) at state.old result state.new }
{
    write_slot(state, to, word);
    Ok(Turn::GoesOn(at + 1))
}

/// Stores a word, and goes on with the next instruction. Past the last slot nothing is stored.
#[inline(always)]
pub(crate) fn store<B: HostObject>(
    state: &mut RunState<B>,
    at: usize,
    to: usize,
    word: Word,
) -> Result<Turn, Stop>
    requires within { at < usize.MAX }
    ensures put { Does B.HostObject (λ _ c. put to c word) at state.old result state.new }
{
    if to < state.local_count() {
        put_local(state, at, to, word)
    } else {
        put_temporary(state, at, to, word)
    }
}

/// Stores the word that a step gave, if it gave one.
#[inline(always)]
pub(crate) fn store_given<B: HostObject>(
    step: Result<Word, Stop>,
    state: &mut RunState<B>,
    at: usize,
    to: usize,
) -> Result<Turn, Stop>
    requires within { at < usize.MAX }
    ensures put { (s : Setting) (run : Guarded Word) (c : Control) (start : State B)
        → Comes B.HostObject s.names run start step state.old
        → OnOk step (control_of at state.old.frames ≡ c)
        → Comes B.HostObject s.names (putting run to c) start (came_to result state.new.frames) state.new }
{
    match step {
        Ok(word) => store(state, at, to, word),
        Err(stop) => Err(stop),
    }
}

/// Stores null after a step that has no value, unless it ended the run.
#[inline(always)]
pub(crate) fn store_null<B: HostObject>(
    step: Result<(), Stop>,
    state: &mut RunState<B>,
    at: usize,
    to: usize,
) -> Result<Turn, Stop>
    requires within { at < usize.MAX }
    ensures put { (s : Setting) (run : Guarded (Unit {0})) (c : Control) (start : State B)
        → Comes B.HostObject s.names run start step state.old
        → OnOk step (control_of at state.old.frames ≡ c)
        → Comes B.HostObject s.names (putting_null run to c) start (came_to result state.new.frames) state.new }
{
    match step {
        Ok(()) => store(state, at, to, Word::Null),
        Err(stop) => Err(stop),
    }
}

/// Holds a word until the full expression ends, and gives it.
#[inline(always)]
pub(crate) fn held<B: HostObject>(state: &mut RunState<B>, word: Word) -> Result<Word, Stop>
    ensures held { (names : Names) → Comes B.HostObject names (give_held word) state.old result state.new }
    ensures same { OnOk result (SameControl state.old.frames state.new.frames) }
{
    match state.hold(word) {
        Ok(()) => Ok(word),
        Err(stop) => Err(stop),
    }
}
