//! Locals.
ghost use Rattle.std.specs.Prelude.{◌≡◌, OnOk, OnErr};
ghost use Rattle.ash_meaning.specs.Releases as releases;
ghost use Rattle.ash_run_steps.specs.Becoming.{Comes, Becomes};
ghost use Rattle.ash_run_steps.specs.FrameChanges.{in_running, overwriting, keeping};
ghost use Rattle.ash_run_steps.specs.Guarded.{plain, give};
ghost use Rattle.ash_run_steps.specs.GuardedSteps.{write_local};
ghost use Rattle.ash_run_steps.specs.RunStates.{Names};

use crate::counting::{hold_word, is_alive, unhold_words};
use crate::holding::push_handle;
use crate::state::RunState;
use crate::stop::Stop;
use ash_host::{HostObject, Word};

impl<B: HostObject> RunState<B> {
    /// Writes a word into a local. What was there is held until the full expression ends.
    #[inline(always)]
    pub fn write_local(&mut self, slot: usize, word: Word) -> Result<(), Stop>
        ensures written { (names : Names) → Comes B.HostObject names (write_local slot word) self.old
            result self.new }
        ensures frames { OnOk result (self.new.frames ≡ in_running (overwriting slot word) self.old.frames) }
        ensures unchanged { OnErr result (self.new.frames ≡ self.old.frames) }
    {
        let Some(before) = self.stack.local(slot) else {
            return Err(Stop::Unsound);
        };
        if !is_alive(&self.table, word) {
            return Err(Stop::Unsound);
        }
        self.stack.facts();
        push_handle(&mut self.stack, before)?;
        hold_word(&mut self.table, word);
        self.stack.set_word(slot, word);
        Ok(())
    }

    /// Leaves blocks: the first locals are left, so many of them. It takes no memory.
    #[inline(always)]
    pub fn leave_blocks(&mut self, count: usize)
        ensures left { (names : Names) → Becomes B.HostObject names
            (plain (releases.leave_blocks count)) self.old (give tt) self.new }
        ensures frames { self.new.frames ≡ in_running (keeping count) self.old.frames }
    {
        if count < self.stack.count() {
            unhold_words(&mut self.table, self.stack.locals_from(count));
            self.stack.set_count(count);
        }
    }
}
