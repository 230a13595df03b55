//! Frames that are entered.
ghost use Rattle.std.specs.Prelude.{◌≡◌, ◌≤◌, ◌+◌, length, take, drop, OnOk, OnErr};
ghost use Rattle.ash_run_steps.specs.Becoming.{Comes};
ghost use Rattle.ash_run_steps.specs.FrameChanges.{entering};
ghost use Rattle.ash_run_steps.specs.GuardedSteps.{enter};
ghost use Rattle.ash_run_steps.specs.RunStates.{Names};

use crate::counting::{are_alive, hold_in_slot, hold_words, slot_of_handle};
use crate::state::RunState;
use crate::stop::Stop;
use ash_host::{HostObject, Word};

impl<B: HostObject> RunState<B> {
    /// Enters a frame of a function at a line. Its slots are those of its caller from one on, and its arguments, which
    /// are its first locals, are in the first of them. The caller goes on from an instruction when the frame is left.
    #[inline(always)]
    pub fn enter(
        &mut self,
        function: usize,
        line: u32,
        this: Word,
        back: usize,
        at: usize,
        count: usize,
    ) -> Result<(), Stop>
        requires above { self.old.frames.frame.count ≤ at }
        requires within { at + count ≤ length self.old.frames.frame.slots }
        ensures entered { (names : Names) → Comes B.HostObject names
            (enter (names.functions function) line this
            (take count (drop at self.old.frames.frame.slots))) self.old result self.new }
        ensures frames { OnOk result (self.new.frames ≡ entering function line this back at count
            self.old.frames) }
        ensures unchanged { OnErr result (self.new.frames ≡ self.old.frames) }
    {
        let Some(slot) = slot_of_handle(&self.table, this) else {
            return Err(Stop::Unsound);
        };
        if !are_alive(&self.table, self.stack.slots_from(at, count)) {
            return Err(Stop::Unsound);
        }
        self.stack.facts();
        self.stack.enter(function, line, this, back, at, count)?;
        hold_in_slot(&mut self.table, this, slot);
        hold_words(&mut self.table, self.stack.locals());
        Ok(())
    }
}
