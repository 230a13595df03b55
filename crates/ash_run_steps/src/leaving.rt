//! Frames that are left.
ghost use Rattle.std.specs.Prelude.{◌≡◌, ◌<◌, ◌≤◌, ◌∷◌, [], ℕ, List, length, OnOk};
ghost use Rattle.ash_host.specs.Objects.{handles};
ghost use Rattle.ash_objects.specs.Table.{holds_of};
ghost use Rattle.ash_run_steps.specs.Becoming.{Comes};
ghost use Rattle.ash_run_steps.specs.FrameChanges.{leaving};
ghost use Rattle.ash_run_steps.specs.FrameSteps.{give_back, return_from};
ghost use Rattle.ash_run_steps.specs.GuardedSteps.{RankTest};
ghost use Rattle.ash_run_steps.specs.RunStates.{Names, HoldsLess, times};
ghost use Rattle.ash_run_steps.specs.Stacks.{roots_of};

use crate::counting::{hold_word, is_alive, unhold_numbers, unhold_word, unhold_words};
use crate::holding::push_handle;
use crate::stack::Stack;
use crate::state::RunState;
use crate::stop::Stop;
use ash_host::{HostObject, Word};
use ash_objects::Objects;

// Undoes a hold for each time that the frame that runs reaches an object by itself.
#[inline(always)]
pub(crate) fn unhold_frame<B: HostObject>(table: &mut Objects<B>, stack: &Stack)
    requires held { (number : ℕ) → times number (roots_of stack.now.frame) ≤ holds_of number table.old }
    ensures unheld { HoldsLess (roots_of stack.now.frame) table.old table.new }
{
    unhold_word(table, stack.this());
    unhold_words(table, stack.locals());
    unhold_numbers(table, stack.held());
}

impl<B: HostObject> RunState<B> {
    // Gives the frame up. What a word is a handle to passes into what the caller holds.
    #[inline(always)]
    fn give_back(&mut self, word: Word) -> Result<(), Stop>
        requires called { 0 < length self.old.frames.callers }
        ensures back { (names : Names) → Comes B.HostObject names (give_back word) self.old result
            self.new }
        ensures frames { OnOk result (self.new.frames ≡ leaving (handles (word ∷ [])) self.old.frames) }
    {
        if !is_alive(&self.table, word) {
            return Err(Stop::Unsound);
        }
        self.stack.facts();
        hold_word(&mut self.table, word);
        unhold_frame(&mut self.table, &self.stack);
        self.stack.clear_held();
        self.stack.leave();
        match push_handle(&mut self.stack, word) {
            Ok(()) => Ok(()),
            Err(refused) => {
                unhold_word(&mut self.table, word);
                Err(Stop::from(refused))
            }
        }
    }

    /// Leaves the frame that runs, from within any blocks, and gives its result, which the caller holds until its full
    /// expression ends. What can't be reached goes.
    #[inline(always)]
    pub fn leave(&mut self, word: Word) -> Result<Word, Stop>
        requires called { 0 < length self.old.frames.callers }
        ensures left { (names : Names) (test : RankTest) (counts : List ℕ) → Comes B.HostObject names
            (return_from test counts word) self.old result self.new }
        ensures frames { OnOk result (self.new.frames ≡ leaving (handles (word ∷ [])) self.old.frames) }
    {
        self.give_back(word)?;
        self.release()?;
        Ok(word)
    }
}
