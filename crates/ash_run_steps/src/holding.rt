//! What frames hold until a full expression ends.
ghost use Rattle.std.specs.Prelude.{◌≡◌, ◌∷◌, ◌++◌, [], ℕ, Ok, OnOk, OnErr, IsErrOf};
ghost use Rattle.ash_host.specs.Objects.{handles};
ghost use Rattle.ash_meaning.specs.Releases as releases;
ghost use Rattle.ash_meaning.specs.Activity.{in_frame};
ghost use Rattle.ash_meaning.specs.Frames as frames;
ghost use Rattle.ash_meaning.specs.Runs.{change};
ghost use Rattle.ash_run_steps.specs.Becoming.{Comes};
ghost use Rattle.ash_run_steps.specs.FrameChanges as framed;
ghost use Rattle.ash_run_steps.specs.FrameChanges.{in_running};
ghost use Rattle.ash_run_steps.specs.Guarded.{plain};
ghost use Rattle.ash_run_steps.specs.GuardedSteps.{hold};
ghost use Rattle.ash_run_steps.specs.RunStates.{Names};
ghost use Rattle.ash_run_steps.specs.declared.stop.Stop.{Stop};

use crate::counting::{handle, hold_in_slot, slot_of_handle, unhold_numbers};
use crate::stack::Stack;
use crate::state::RunState;
use crate::stop::Stop;
use ash_host::{HostObject, NoMemory, Word};

// Makes the frame hold what a word is a handle to.
#[inline(always)]
pub(crate) fn push_handle(stack: &mut Stack, word: Word) -> Result<(), NoMemory>
    ensures held { OnOk result (stack.new ≡ record stack.old {
      frame = record stack.old.frame { held = handles (word ∷ []) ++ stack.old.frame.held };
    }) }
    ensures unchanged { OnErr result (stack.new ≡ stack.old) }
{
    match handle(word) {
        Some(number) => stack.push_held(number),
        None => Ok(()),
    }
}

impl<B: HostObject> RunState<B> {
    /// Holds what a word is a handle to until the full expression ends.
    #[inline(always)]
    pub fn hold(&mut self, word: Word) -> Result<(), Stop>
        ensures held { (names : Names) → Comes B.HostObject names (hold word) self.old result self.new }
        ensures frames { OnOk result (self.new.frames ≡ in_running (framed.holding (handles (word ∷ [])))
            self.old.frames) }
        ensures unchanged { OnErr result (self.new.frames ≡ self.old.frames) }
    {
        let Some(slot) = slot_of_handle(&self.table, word) else {
            return Err(Stop::Unsound);
        };
        self.stack.facts();
        push_handle(&mut self.stack, word)?;
        hold_in_slot(&mut self.table, word, slot);
        Ok(())
    }

    /// Lets go what the frame holds. It takes no memory.
    #[inline(always)]
    pub fn let_go(&mut self)
        ensures let_go { (names : Names) → Comes B.HostObject names
            (plain (change (in_frame releases.let_go))) self.old (Ok tt) self.new }
        ensures frames { self.new.frames ≡ in_running framed.letting_go self.old.frames }
    {
        unhold_numbers(&mut self.table, self.stack.held());
        self.stack.clear_held();
    }

    /// Takes a tick for what begins at a line.
    #[inline(always)]
    pub fn tick(&mut self, line: u32) -> Result<(), Stop>
        ensures ticked { (names : Names) → Comes B.HostObject names (plain (frames.tick line)) self.old
            result self.new }
        ensures frames { self.new.frames ≡ in_running (framed.at_line line) self.old.frames }
        ensures memory { IsErrOf result Stop.NoMemory → ⊥ }
    {
        self.stack.set_line(line);
        if self.ticks == 0 {
            return Err(Stop::OutOfTicks);
        }
        self.ticks -= 1;
        Ok(())
    }
}
